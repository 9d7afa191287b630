//! The command line of iris: where its scripts come from, where its answers go, and the play of a
//! script.
#![tactic(auto)]

mod event;
mod halt;
mod line;
mod player;
mod script;
mod session;
pub mod sink;
mod site;
pub mod source;
mod status;
#[cfg(test)]
mod tests;

pub use player::play;
pub use sink::{MemorySink, Sink, StdSink};
pub use source::{LinePart, MemorySource, Source, StdSource};
pub use status::Status;
