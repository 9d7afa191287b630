//! A city as it runs: all its agents, the posts between them, the registry and the book, as tables, and
//! what each event leaves of them.
//!
//! What one agent does with an event is what the protocol of `iris_protocol` says of it, where messages,
//! agents and gathers are seen as it sees them; so is what happens in a city. A city is good where some
//! history of the protocol leads to it, its book has the updates that were accepted, what its agents hold,
//! gather and send was so of the nodes, and no number is used twice (`specs/Good.antt`). It begins so and
//! stays so, whatever happens; so its agents may do what their calls ask for, and each answer is allowed by
//! what was entered before it. Where nothing is under way it is at rest: each request has its outcome. Nothing
//! is ever sent to an agent that is not of the city (`specs/Among.antt`).
//!
//! There is no code here: each law is a call that does nothing. The edits in `must-fail/` are of definitions.
#![tactic(auto)]

mod agent_laws;
mod among_laws;
mod answer_laws;
mod copy_laws;
mod depth_laws;
mod good_laws;
mod world_laws;

pub use agent_laws::{
    agents_arrive_by_the_protocol, agents_decide_by_the_protocol, agents_move_by_the_protocol,
};
pub use among_laws::cities_keep_their_agents;
pub use answer_laws::answers_stay_allowed;
pub use copy_laws::{
    agents_stay_right, arrivals_keep_copies, decisions_keep_copies, moments_go_on,
    moves_keep_copies,
};
pub use depth_laws::what_is_missing_lies_deeper;
pub use good_laws::{agents_may_act, cities_answer_rightly, cities_begin_good, cities_stay_good};
pub use world_laws::{cities_run_by_the_protocol, cities_stay_known};
