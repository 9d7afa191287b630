//! The messages between agents, and which nodes an agent has the title of while nodes move.
//!
//! A node has one owner at a time, and the number of its moves is its epoch. A message for a node carries
//! the epoch that its sender read. An agent serves it where it owns the node. It forwards it where it gave
//! the node away by a move of a greater epoch, and else parks it until the handover of the node comes.
//! A handover is taken once, and a message is parked for a node once.
#![tactic(auto)]

mod asks;
mod copying;
mod direct;
mod error;
mod key;
mod message;
mod seat;
mod seats;
mod titles;

pub use direct::Direct;
pub use error::TakeError;
pub use key::Key;
pub use message::{Handover, Message};
pub use titles::Titles;
