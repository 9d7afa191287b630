//! What outlasts a run: accepted updates and moves, as rows that a keeper keeps.
//!
//! A keeper is something outside, as a source or a sink of bytes is. It may tell its rows, and it may tell
//! what `load` gives; what it does not tell is not known. Whatever it tells is told by its own type.
#![tactic(auto)]

mod calls;
mod keeper;
mod kept;
mod memory;
mod nothing;

pub use calls::FailingCalls;
pub use keeper::Keeper;
pub use kept::Kept;
pub use memory::MemoryKeeper;
pub use nothing::NeverFails;
