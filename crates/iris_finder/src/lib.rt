//! The parking finder, over answers to queries.
//!
//! `query_of` gives the query for the blocks of a hood that have a free space. The items of its answer go to
//! `offers`, with the arrival by the clocks of the city, and come back as free spaces with what the stay
//! costs there, the cheapest first.
//!
//! What a stay costs is told by the tariff of the block, which `Tariff::read` finds in the attributes of the
//! block, and `price` computes. Its definition counts the minutes of the stay one by one, each by its
//! weekday and its minute of the day; the program counts by days.
//!
//! A city tells the weekday and the minute of the arrival alone. So the clocks of the arrival are those of
//! the whole stay, also where they are changed during it.
#![tactic(auto)]

mod amount;
mod days;
mod laws;
mod limits;
mod offering;
mod pricing;
mod question;
mod tariff;

pub use laws::{offers_are_ranked, question_is_a_query, tariff_reads_in_one_way};
pub use limits::{DAYS_A_WEEK, DEFAULT_UNIT, MAX_AMOUNT_DIGITS, MAX_CAP, MAX_RATE};
pub use offering::{OfferError, offers};
pub use pricing::{TooLong, price};
pub use question::query_of;
pub use tariff::Tariff;
