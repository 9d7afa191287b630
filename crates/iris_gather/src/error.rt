//! Why a gather did not take a reply.

use iris_tree::Memory;
use thiserror::Error;

/// Why a gather did not take a reply. It is as before.
#[derive(Clone, Copy, Debug, PartialEq, Eq, Error)]
pub enum ReplyError {
    /// That ask is not pending: it is none of the gather's, or has its reply.
    #[error("the ask is not pending")]
    NotPending,
    /// There was no memory.
    #[error("out of memory")]
    Memory,
}

impl From<Memory> for ReplyError {
    ghost use Rattle.std.specs.Prelude.{◌≡◌};
    ghost use Rattle.iris_gather.specs.declared.error.ReplyError.TheVariants.{Memory};

    ghost from_gives = { λ _ e. e ≡ Memory };

    fn from(_error: Memory) -> ReplyError {
        ReplyError::Memory
    }
}
