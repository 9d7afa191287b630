//! The posts of a city: messages to its agents, each with a number, that are kept until they are delivered
//! and forgotten.
//!
//! Numbers are given from 0 on, in the order in which posts are made, and none is given twice. A kept post
//! may be delivered any number of times, and in any order. What was delivered stays delivered when it is
//! forgotten.
#![tactic(auto)]

mod growth;
mod post;
mod posts;
mod slot;
mod weights;

pub use growth::Growth;
pub use post::Post;
pub use posts::Posts;
pub use weights::{ID_WEIGHT, MESSAGE_WEIGHT, PIECE_WEIGHT, STATE_WEIGHT, weigh};
