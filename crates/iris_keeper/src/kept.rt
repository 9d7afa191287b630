//! Rows.
ghost use Rattle.std.specs.Prelude.{◌≡◌, IfOk};

use iris_tree::{AgentId, Change, Mem, Name, Sequence};

/// A change of a city that outlasts a run.
#[derive(Debug, Drop)]
pub enum Kept {
    /// An update of a node was accepted.
    Update {
        name: Name,
        /// The update's number, greater than that of each earlier update of the node.
        no: u64,
        /// What it changed, in this order.
        changes: Sequence<Change>,
    },
    /// A node was given to an agent.
    Gave {
        name: Name,
        to: AgentId,
        /// The number of the node's moves, this one counted.
        epoch: u64,
    },
}

impl Kept {
    /// A copy, by the same allocator.
    pub fn copy(&self) -> Mem<Kept>
        ensures { IfOk result (λ copy. copy ≡ self.now) }
    {
        Ok(match self {
            Kept::Update { name, no, changes } => Kept::Update {
                name: name.copy()?,
                no: *no,
                changes: changes.copy()?,
            },
            Kept::Gave { name, to, epoch } => Kept::Gave {
                name: name.copy()?,
                to: *to,
                epoch: *epoch,
            },
        })
    }
}
