//! The log of a book.

use iris_tree::{AgentId, Cite, Name, Sequence};
use iris_xpath::Query;

/// An entry, where an update is told by its place alone: the first such slot stands for the first update,
/// and so on.
#[derive(Debug, Drop)]
pub enum Slot {
    Update,
    Gave {
        name: Name,
        to: AgentId,
        epoch: u64,
    },
    Answered {
        request: u64,
        query: Query,
        floor: u64,
        cites: Sequence<Cite>,
    },
}

impl Slot {
    ghost use Rattle.std.specs.Prelude.{◌≡◌};
    ghost use Rattle.iris_book.specs.Log.{stays};

    // Whether it is not an answer.
    pub(crate) fn stays(&self) -> bool
        ensures { result ≡ stays self.now }
    {
        !matches!(self, Slot::Answered { .. })
    }
}
