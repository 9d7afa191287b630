//! Why copies and answers are right.
//!
//! What agents hold and send of nodes was so of them: each full part is the value of a version that the
//! owner of the node held at the stamp. It stays so as time passes, as the book grows, and whatever
//! fragments, caches and views do with it. An answer that is decided over a view of such copies is allowed:
//! its cites tell of a document, and its items are those that the query selects there.
//!
//! This crate has definitions and laws. Each function does nothing, and its clauses are the laws, so no edit
//! of its code could tell anything.
#![tactic(auto)]

mod answer_laws;
mod book_laws;
mod fragment_laws;
mod view_laws;

pub use answer_laws::{answers_are_allowed, cites_are_in_order, decisions_are_allowed};
pub use book_laws::{books_go_on, newest_values_stay};
pub use fragment_laws::{
    caches_hold_copies, fragments_hold_copies, fragments_stay, held_pieces_are_copies,
    usable_pieces_are_copies,
};
pub use view_laws::{views_are_copies, views_stay, views_take_copies};
