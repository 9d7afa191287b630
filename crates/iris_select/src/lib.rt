//! What a query selects in a document, and the answer that it gets.
#![tactic(auto)]

mod evaluation;
mod evaluator;
mod items;
mod labels;
mod marks;
mod place;
mod spot;
mod walk;

pub use evaluation::{Evaluation, ItemEvaluation, evaluate, evaluate_items, select};
pub use items::{answer, items_at};
pub use place::Place;
