//! Gathers: what an evaluation over a view decides, and the gathering of what it lacks.
//!
//! A `Gather` evaluates a query from a start over a view of pieces. `evaluate` gives the `Verdict`: that
//! nothing is missing, or what is asked for. A gather that settles a verdict takes the pieces on which it
//! rests, and each missing need is a pending ask then. As a reply comes, its pieces go into the view. Once
//! nothing is pending, the query is evaluated again.
//!
//! What a decision rests on, `Basis`, is that of the gather's view laid over what the agent holds and may use;
//! it is found without laying all of that. A verdict of an evaluation that was made elsewhere, over the view
//! as it was laid earlier, is taken where `Basis::validate` tells that it still holds: it reads what the
//! verdict looks at, and evaluates nothing.
//!
//! `Gathers` has all open gathers of an agent, and finds them by their numbers, by what is pending at them,
//! and by the requests and asks for which they are made.
#![tactic(auto)]

mod basis;
mod basis_laws;
mod entries;
mod equal;
mod error;
mod gather;
mod gathers;
mod index;
mod indices;
mod laid;
mod laid_view;
mod laws;
mod parent;
mod usable;
mod validation;
mod verdict;

pub use basis::Basis;
pub use basis_laws::decisions_stand;
pub use error::ReplyError;
pub use gather::Gather;
pub use gathers::Gathers;
pub use laid::{laid_at_names, lay};
pub use laws::{
    asks_are_made_once, gathers_are_opened, gathers_go_on, replies_tell_what_was_asked,
};
pub use parent::Parent;
pub use validation::Evaluated;
pub use verdict::{Verdict, evaluate};
