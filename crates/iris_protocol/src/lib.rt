//! The protocol by which the agents of a city serve requests and move nodes, as a model: what every event
//! does to titles, posts, requests, gathers and asks, and what holds after every list of events.
//!
//! Events are the posts of queries and updates, moves, arrivals of posts, decisions of gathers, lent gathers
//! and their verdicts, and the forgetting of what was delivered. Any post that is kept may arrive at any
//! time, any number of times, late or never. Of an evaluation the model knows which needs it misses and how
//! deep they lie; of an update, its number. There is no code here: each law is a call that does nothing.
#![tactic(auto)]

mod laws;

pub use laws::{
    deliveries_leave_none_due, every_run_is_good, every_run_keeps_its_promises,
    nothing_under_way_is_quiet, program_events_stay_known, program_settles_are_quiet,
    settles_are_quiet,
};
