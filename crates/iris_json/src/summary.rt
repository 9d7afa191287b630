//! What a world counts.

/// The counts of a world since its start.
#[derive(Clone, Copy, Debug, PartialEq, Eq)]
pub struct Summary {
    /// The accepted updates.
    pub accepted: u64,
    /// The requests that were answered, queries and those for parking.
    pub answered: u64,
    /// The asks that were made.
    pub asks: u64,
    /// The bytes of all lists of answers and of offers, written compactly.
    pub bytes: u64,
    /// The accepted moves.
    pub moves: u64,
    /// The client queries that are open. Its key in a line is `open`.
    pub opened: u64,
    /// The posts that were made.
    pub posts: u64,
    /// The requests that were refused.
    pub refused: u64,
}
