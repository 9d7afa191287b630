//! For whom a gather is made.

use iris_tree::AgentId;

/// For whom a gather is made, by the number that they gave it.
#[derive(Clone, Copy, Debug, PartialEq, Eq)]
pub enum Parent {
    /// A client's request, which is to be answered.
    Client { request: u64 },
    /// Another agent's ask, which is to be replied to.
    Ask { ask: u64, agent: AgentId },
}
