//! Who owns each node of a city, and where queries are sent.
//!
//! The `Registry` has each node's owner and its epoch, which is the number of its moves. At the start of a
//! city the owner is the agent of the nearest placed name at or above the node. A move gives one node to
//! another agent with a greater epoch, by `set`, and nothing else changes.
//!
//! A query is sent to the owner of its `route`: the lowest node at or above all that the query selects, as
//! far as its anchored steps tell and such a node exists.
#![tactic(auto)]

mod laws;
mod registry;
mod routing;
mod start;
mod titles;

pub use laws::{owner_is_nearest_placed, selected_lies_under_route};
pub use registry::Registry;
pub use routing::route;
