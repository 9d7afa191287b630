//! A city as it runs: its agents, the posts between them, the requests of its clients, the registry and the
//! book, as one value, and what happens in it.
#![tactic(auto)]

mod agents;
mod arrivals;
mod copies;
mod deliveries;
mod forgetting;
mod gathers;
mod moves;
mod posting;
mod state;

pub use state::State;
