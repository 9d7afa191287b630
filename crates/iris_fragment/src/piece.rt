//! Pieces: what fragments give one another of single nodes.
ghost use Rattle.std.specs.Prelude.{◌≡◌, IfOk};

use iris_tree::{Label, Local, Mem, Name, Sequence};

/// How much of a node is asked for or held.
#[derive(Clone, Copy, Debug, PartialEq, Eq, PartialOrd, Ord)]
pub enum Level {
    /// The labels of its children.
    Ids,
    /// These and its local information.
    Full,
}

/// A node's local information as it once was.
#[derive(Debug, Drop)]
pub struct Full {
    pub local: Local,
    /// How many updates of the node had been accepted.
    pub version: u64,
    /// A moment at which this was the owner's value, in milliseconds.
    pub stamp: u64,
}

/// What is told of one node.
#[derive(Debug, Drop)]
pub struct Piece {
    pub name: Name,
    /// The labels of the node's children, in their order.
    pub ids: Sequence<Label>,
    pub full: Option<Full>,
}

impl Full {
    /// A copy, by the same allocator.
    pub fn copy(&self) -> Mem<Full>
        ensures { IfOk result (λ copy. copy ≡ self.now) }
    {
        Ok(Full {
            local: self.local.copy()?,
            version: self.version,
            stamp: self.stamp,
        })
    }
}

// A copy of a list of labels, by the same allocator.
pub(crate) fn copy_ids(ids: &Sequence<Label>) -> Mem<Sequence<Label>>
    ensures { IfOk result (λ copy. copy ≡ ids.now) }
{
    let labels = Vec::from_slice(ids.allocator(), ids.as_slice())?;
    Ok(Sequence::from_vec(labels))
}

// A copy of a full part, where there is one.
fn copy_full(full: &Option<Full>) -> Mem<Option<Full>>
    ensures { IfOk result (λ copy. copy ≡ full.now) }
{
    match full {
        Some(full) => Ok(Some(full.copy()?)),
        None => Ok(None),
    }
}

impl Piece {
    /// A copy, by the same allocator.
    pub fn copy(&self) -> Mem<Piece>
        ensures { IfOk result (λ copy. copy ≡ self.now) }
    {
        Ok(Piece {
            name: self.name.copy()?,
            ids: copy_ids(&self.ids)?,
            full: copy_full(&self.full)?,
        })
    }
}
