//! What messages belong to.

/// What a message belongs to: the request of a client, or an ask of an agent. Requests stand before asks
/// in the order, and each are ordered by their numbers.
#[derive(Clone, Copy, Debug, PartialEq, Eq, PartialOrd, Ord, Hash)]
pub enum Key {
    /// A query or an update of a client, by the number of the request.
    Request(u64),
    /// An ask of an agent, by its number.
    Ask(u64),
}
