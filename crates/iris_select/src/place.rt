//! Places in a document.

use iris_tree::{Mem, Name, Sequence};

/// A place in a document: a node, or a plain element at or below one. Places are ordered by their names
/// and then by their paths, a prefix first.
#[derive(Debug, Drop)]
pub struct Place {
    /// The name of the node at or above the place.
    pub name: Name,
    /// The positions that lead from that node to the plain element, from 0 among the plain elements
    /// right below each; empty for the node itself.
    pub path: Sequence<u32>,
}
