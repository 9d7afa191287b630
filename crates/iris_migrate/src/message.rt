//! Messages between agents.
ghost use Rattle.std.specs.Prelude.{◌≡◌, None, Some, IfOk, MatchOption, option_copied};
ghost use Rattle.iris_migrate.specs.Messages.{node_of, epoch_of, key_of};

use crate::copying::{copy_changes, copy_pieces};
use crate::key::Key;
use iris_fragment::Piece;
use iris_need::Start;
use iris_tree::{AgentId, Change, Mem, Name, Sequence};
use iris_xpath::Query;

/// What is sent to an agent, by another or by a client. A message for a node carries the epoch of the node
/// that its sender read.
#[derive(Debug, Drop)]
pub enum Message {
    /// A client's query.
    Query {
        request: u64,
        query: Query,
        /// The route of the query: the owner of this node serves it.
        name: Name,
        epoch: u64,
        /// The least stamp that a copy may have, in milliseconds.
        floor: u64,
    },
    /// An agent's ask for the node at which the start is.
    Ask {
        ask: u64,
        /// The agent that asks, to which the reply goes.
        from: AgentId,
        query: Query,
        start: Start,
        epoch: u64,
        /// The least stamp that a copy may have, in milliseconds.
        floor: u64,
    },
    /// The reply to an ask.
    Reply {
        ask: u64,
        /// In the order of names.
        pieces: Sequence<Piece>,
    },
    /// A client's update of a node.
    Update {
        request: u64,
        name: Name,
        epoch: u64,
        /// The number that its sender gave it.
        no: u64,
        changes: Sequence<Change>,
    },
    /// A node moves to the agent.
    Handover(Handover),
}

/// A node on its way to its new owner.
#[derive(Debug, Drop)]
pub struct Handover {
    pub name: Name,
    /// The number of moves of the node, this one among them.
    pub epoch: u64,
    /// The number of the last update of the node that was accepted.
    pub last: u64,
    /// The node's full piece, and a piece of each of its ancestors.
    pub pieces: Sequence<Piece>,
}

impl Handover {
    /// A copy, by the same allocators.
    pub fn copy(&self) -> Mem<Handover>
        ensures { IfOk result (λ copy. copy ≡ self.now) }
    {
        Ok(Handover {
            name: self.name.copy()?,
            epoch: self.epoch,
            last: self.last,
            pieces: copy_pieces(&self.pieces)?,
        })
    }
}

impl Message {
    /// A copy, by the same allocators.
    pub fn copy(&self) -> Mem<Message>
        ensures { IfOk result (λ copy. copy ≡ self.now) }
    {
        Ok(match self {
            Message::Query {
                request,
                query,
                name,
                epoch,
                floor,
            } => Message::Query {
                request: *request,
                query: query.copy()?,
                name: name.copy()?,
                epoch: *epoch,
                floor: *floor,
            },
            Message::Ask {
                ask,
                from,
                query,
                start,
                epoch,
                floor,
            } => Message::Ask {
                ask: *ask,
                from: *from,
                query: query.copy()?,
                start: start.copy()?,
                epoch: *epoch,
                floor: *floor,
            },
            Message::Reply { ask, pieces } => Message::Reply {
                ask: *ask,
                pieces: copy_pieces(pieces)?,
            },
            Message::Update {
                request,
                name,
                epoch,
                no,
                changes,
            } => Message::Update {
                request: *request,
                name: name.copy()?,
                epoch: *epoch,
                no: *no,
                changes: copy_changes(changes)?,
            },
            Message::Handover(handover) => Message::Handover(handover.copy()?),
        })
    }

    /// The node that it is for; none of a reply.
    pub fn node(&self) -> Option<&Name>
        ensures { option_copied result ≡ node_of self.now }
    {
        match self {
            Message::Query { name, .. } | Message::Update { name, .. } => Some(name),
            Message::Ask { start, .. } => Some(&start.name),
            Message::Reply { .. } => None,
            Message::Handover(handover) => Some(&handover.name),
        }
    }

    /// The epoch of its node that the sender read, and of a handover that of the move; none of a reply.
    pub fn epoch(&self) -> Option<u64>
        ensures { result ≡ epoch_of self.now }
    {
        match self {
            Message::Query { epoch, .. }
            | Message::Ask { epoch, .. }
            | Message::Update { epoch, .. } => Some(*epoch),
            Message::Reply { .. } => None,
            Message::Handover(handover) => Some(handover.epoch),
        }
    }

    /// The request or the ask that it belongs to, where it wants something of the holder of its node; none
    /// of a reply and of a handover.
    pub fn key(&self) -> Option<Key>
        ensures { result ≡ key_of self.now }
    {
        match self {
            Message::Query { request, .. } | Message::Update { request, .. } => {
                Some(Key::Request(*request))
            }
            Message::Ask { ask, .. } => Some(Key::Ask(*ask)),
            Message::Reply { .. } | Message::Handover(_) => None,
        }
    }

    // The node that it is parked for and its key, where it wants something of the holder of its node.
    pub(crate) fn place(&self) -> Option<(&Name, Key)>
        ensures { MatchOption result (key_of self.now ≡ None) (λ place. (node_of self.now ≡ Some place.0.now) × (key_of self.now ≡ Some place.1)) }
    {
        Some((self.node()?, self.key()?))
    }
}
