//! What an event at an agent makes the world do.
ghost use Rattle.std.specs.Prelude.{◌≡◌, [], ◌∷◌, IfOk, OnOk};

use crate::room::Room;
use iris_migrate::Message;
use iris_tree::{AgentId, Cite, Item, Mem, Sequence};
use iris_xpath::Query;
use std::alloc::{AllocError, AllocFailed, Global};

/// One thing that follows from an event at an agent: a message to post, or what is told of a request.
#[derive(Debug, Drop)]
pub enum Step {
    /// A message is posted to an agent.
    Post {
        to: AgentId,
        message: Message,
    },
    /// A client's query is answered.
    Answered {
        request: u64,
        query: Query,
        /// The least stamp that a cite may have, in milliseconds.
        floor: u64,
        /// What the query selects, in the order of places.
        items: Sequence<Item>,
        /// What that rests on, in the order of names.
        cites: Sequence<Cite>,
    },
    /// An update was accepted; the node has that version now.
    Accepted {
        request: u64,
        version: u64,
    },
    /// An update was refused, and nothing changed.
    Refused {
        request: u64,
        refusal: Refusal,
    },
}

/// Why an update was refused. Of several causes the first in this order is told.
#[derive(Clone, Copy, Debug, PartialEq, Eq)]
pub enum Refusal {
    /// The update's number is not greater than that of the last accepted update of the node.
    Old { last: u64 },
    /// The change at that place, from 0, can't be made, or puts an element with the tag of a kind.
    BadChange { at: usize },
    /// The keeper failed to keep it.
    Unkept,
}

// A list of one step.
pub(crate) fn one_step(alloc: Global, step: Step) -> Mem<Vec<Step>>
    ensures { IfOk result (λ steps. steps.items ≡ step ∷ []) }
{
    let mut steps = Vec::new(alloc);
    steps.push(step)?;
    Ok(steps)
}

// No steps, and room for none.
pub(crate) fn nothing<R: Room>(alloc: Global, room: &mut R) -> Mem<Vec<Step>>
    ensures steps { IfOk result (λ steps. steps.items ≡ []) }
    ensures room { OnOk result (R.has_room room.old room.new []) }
{
    let steps = Vec::new(alloc);
    room.make(&steps)?;
    Ok(steps)
}
