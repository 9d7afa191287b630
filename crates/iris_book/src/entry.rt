//! The entries of a book.
ghost use Rattle.std.specs.Prelude.{◌≡◌, IfOk};

use iris_tree::{AgentId, Change, Cite, Local, Mem, Name, Sequence};
use iris_xpath::Query;

/// What is entered into a book.
#[derive(Debug, Drop)]
pub enum Entry {
    /// An update of a node was accepted.
    Updated {
        name: Name,
        /// The number that its sender gave it.
        no: u64,
        changes: Sequence<Change>,
        /// What the node holds afterwards.
        local: Local,
        /// The moment, in milliseconds.
        at: u64,
    },
    /// A node was given to another agent.
    Gave {
        name: Name,
        to: AgentId,
        epoch: u64,
    },
    /// A query was answered.
    Answered {
        request: u64,
        query: Query,
        /// The least stamp that a cite may have, in milliseconds.
        floor: u64,
        /// What the answer rests on, in the order of names.
        cites: Sequence<Cite>,
    },
}

impl Entry {
    /// A copy, by the same allocators.
    #[tactic(auto, using(iris_base::proofs::Copies::copied))]
    pub fn copy(&self) -> Mem<Entry>
        ensures { IfOk result (λ copy. copy ≡ self.now) }
    {
        Ok(match self {
            Entry::Updated {
                name,
                no,
                changes,
                local,
                at,
            } => Entry::Updated {
                name: name.copy()?,
                no: *no,
                changes: changes.copy()?,
                local: local.copy()?,
                at: *at,
            },
            Entry::Gave { name, to, epoch } => Entry::Gave {
                name: name.copy()?,
                to: *to,
                epoch: *epoch,
            },
            Entry::Answered {
                request,
                query,
                floor,
                cites,
            } => Entry::Answered {
                request: *request,
                query: query.copy()?,
                floor: *floor,
                cites: cites.copy()?,
            },
        })
    }
}
