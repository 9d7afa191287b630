//! How the agents of a city begin.
//!
//! Each agent owns the nodes that the registry gives it, with their newest values by the book, and holds the
//! ids of the nodes above those (`specs/Pieces.antt`). So it is an agent as its city starts, in the sense of
//! `iris_runs`.
#![tactic(auto)]

mod pieces;
mod start;

pub use start::Start;
