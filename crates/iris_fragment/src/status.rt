//! How a node stands in a fragment.

/// How a node stands in a fragment, where it stands there at all.
#[derive(Clone, Copy, Debug, PartialEq, Eq, PartialOrd, Ord)]
pub enum Status {
    /// The fragment's agent owns the node.
    Owned,
    /// There is a copy of the node, with its version and the moment at which that was the owner's.
    Complete,
    /// The node's ids are held and nothing else of it.
    IdComplete,
    /// Nothing of the node is held; it is known by its id alone, which a held node or the document lists.
    Incomplete,
}
