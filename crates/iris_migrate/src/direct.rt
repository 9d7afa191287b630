//! What an agent does with a message for a node.

use iris_tree::AgentId;

/// What an agent does with a message for a node.
#[derive(Clone, Copy, Debug)]
pub enum Direct {
    /// It owns the node, and serves the message.
    Serve,
    /// It gave the node away after the sender read the epoch: the message goes there, with the epoch of
    /// that move.
    Forward { to: AgentId, epoch: u64 },
    /// The node is on its way to this agent: the message waits for it.
    Park,
}

/// The last move by which an agent gave a node away: to whom, and the node's epoch since.
#[derive(Clone, Copy, Debug)]
pub struct Forward {
    pub to: AgentId,
    pub epoch: u64,
}
