//! What one agent holds of a city's document: nodes that it owns, copies of nodes of other agents, and
//! nodes of which it knows the ids alone.
#![tactic(auto)]

mod error;
mod fragment;
mod held;
mod laws;
mod nodes;
mod piece;
mod status;

pub use error::EvictError;
pub use fragment::Fragment;
pub use laws::{look_ups, taking_in};
pub use piece::{Full, Level, Piece};
pub use status::Status;
