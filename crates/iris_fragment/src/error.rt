//! Why a node was not evicted.

use crate::status::Status;
use thiserror::Error;

/// Why a node was not evicted. The fragment is as before.
#[derive(Clone, Copy, Debug, PartialEq, Eq, Error)]
pub enum EvictError {
    /// The node is neither owned nor complete. It has that status, if it has one.
    #[error("no copy of the node is held")]
    NotHeld { status: Option<Status> },
    /// The fragment's agent owns the node.
    #[error("the node is owned")]
    IsOwned,
}
