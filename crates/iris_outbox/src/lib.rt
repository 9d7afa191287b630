//! What is sent and told as the steps of an event are made: the posts of a city, the requests of its clients,
//! and the lines of its run.
//!
//! Before an event changes what lasts, room is made for all that follows from its steps; after that nothing
//! of it takes memory.
#![tactic(auto)]

mod outbox;
mod preparing;
mod requests;
mod steps;

pub use outbox::{Outbox, Ready};
pub use preparing::Preparing;
pub use requests::Requests;
