//! Why a handover is not taken.

use thiserror::Error;

/// Why a handover is not taken.
#[derive(Clone, Copy, Debug, PartialEq, Eq, PartialOrd, Ord, Hash, Error)]
pub enum TakeError {
    /// A handover of the node with this epoch, which is at least as great, was taken before.
    #[error("a handover of epoch {taken} was taken before")]
    Stale { taken: u64 },
}
