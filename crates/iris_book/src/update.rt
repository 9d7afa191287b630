//! Updates of a node.
ghost use Rattle.std.specs.Prelude.{◌≡◌};

use iris_tree::{Change, Local, Sequence};

/// An update of a node, as it was accepted.
#[derive(Debug, Drop)]
pub struct NodeUpdate {
    /// The number that its sender gave it.
    pub no: u64,
    pub changes: Sequence<Change>,
    /// What the node held afterwards.
    pub local: Local,
    /// The moment, in milliseconds.
    pub at: u64,
}

// The same changes without room for more, since they are kept for good.
pub(crate) fn trimmed(changes: Sequence<Change>) -> Sequence<Change>
    ensures { result ≡ changes }
{
    let mut items = changes.into_vec();
    items.shrink_to_fit();
    Sequence::from_vec(items)
}
