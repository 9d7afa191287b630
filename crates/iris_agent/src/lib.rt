//! What one agent does with each message.
//!
//! An agent owns nodes of a city's document, holds copies of others in a bounded cache, gathers what a
//! query lacks from other agents, and knows which nodes are its own while they move. Each event, the
//! arrival of a message or the decision of a gather, gives a list of steps that the world makes for it.
//!
//! Private methods of an agent change one table each. An event finds all memory that it takes before it
//! changes what lasts, or takes back what it changed.
#![tactic(auto)]

mod agent;
mod arrive;
mod asks;
mod city_changes;
mod commit;
mod decide;
mod equality;
mod give;
mod handover;
mod job;
mod keeping;
mod mail;
mod named;
mod opening;
mod parked;
mod pieces;
mod reply;
mod room;
mod start;
mod step;
mod turn;
mod update;

pub use agent::Agent;
pub use commit::{CommitError, Done};
pub use give::{GiveError, Move};
pub use job::Job;
pub use room::Room;
pub use step::{Refusal, Step};
pub use turn::Turn;
