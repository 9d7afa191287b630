//! What answers rest on.
ghost use Rattle.std.specs.Prelude.{◌≡◌, IfOk};

use crate::memory::Mem;
use crate::name::Name;
use std::alloc::AllocError;

/// What an answer rests on: a node's value at a version, which its owner held at a moment.
#[derive(Debug, Drop)]
pub struct Cite {
    pub name: Name,
    /// The number of updates that the node had had.
    pub version: u64,
    /// In milliseconds.
    pub stamp: u64,
}

impl Cite {
    /// A copy, by the same allocator.
    pub fn copy(&self) -> Mem<Cite>
        ensures { IfOk result (λ copy. copy ≡ self.now) }
    {
        Ok(self.clone()?)
    }
}

impl Clone for Cite {
    ghost is_clone = { λ cite copy. copy ≡ cite };

    fn clone(&self) -> Result<Cite, AllocError> {
        Ok(Cite {
            name: self.name.clone()?,
            version: self.version,
            stamp: self.stamp,
        })
    }
}
