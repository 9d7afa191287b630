//! What an evaluation over a part of a document looks at, what it lacks, and what it answers where it
//! lacks nothing.
#![tactic(auto)]

mod answer;
mod conditions;
mod elements;
mod ends;
mod evaluate;
mod further;
mod held;
mod laws;
mod look_laws;
mod looks;
mod meaning_laws;
mod need;
mod needs;
mod reach;
mod route;
mod spot;
mod view;
mod walk;
mod whole;

pub use answer::answer_of;
pub use evaluate::{missing, support};
pub use iris_tree::State;
pub use laws::{
    answer_is_determined, missing_lies, needs_are_ordered, support_has_full_names,
    undecided_is_real_work,
};
pub use look_laws::{
    looks_are_covered, looks_decide, looks_descend, missing_descends, missing_exists,
    views_are_enough, views_grow,
};
pub use meaning_laws::{
    answer_is_meant, full_names_are_meant, looks_are_meant, places_are_told, predicates_are_meant,
    program_is_meant,
};
pub use need::{Need, Start};
pub use view::View;
