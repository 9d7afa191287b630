//! One post.

use iris_migrate::Message;
use iris_tree::AgentId;

/// A message on its way, or one that was delivered and is kept.
#[derive(Drop)]
pub struct Post {
    /// The agent to which it goes.
    pub to: AgentId,
    pub message: Message,
}
