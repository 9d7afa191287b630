//! The book: the record of all that was accepted in a city since its start.
#![tactic(auto)]

mod book;
mod entry;
mod linked;
mod links;
mod log;
mod update;
mod weights;

pub use book::{Book, Newest};
pub use entry::Entry;
pub use weights::{CITE_WEIGHT, ENTRY_WEIGHT};
