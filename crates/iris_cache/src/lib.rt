//! A fragment that holds a bounded number of copies. Where there would be one more, the copy whose last
//! use is the longest ago is evicted.
#![tactic(auto)]

mod cached;
mod copies;
mod recency;

pub use cached::Cached;
