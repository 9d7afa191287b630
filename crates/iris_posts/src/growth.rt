//! Memory for more posts.
ghost use Rattle.std.specs.Prelude.{◌≡◌, ◌≤◌, [], IfOk};
ghost use Rattle.std.specs.Vec.{vec_capacity};

use crate::slot::Slot;
use iris_tree::Mem;
use std::alloc::Global;
use std::marker::Model;

/// Memory for posts, found before it is needed. Contracts see how many posts it is for, those that are kept
/// among them.
#[derive(Drop)]
pub struct Growth {
    slots: Vec<Slot>,
}

impl Model for Growth {
    ghost use Rattle.std.specs.Prelude.{◌≡◌, ℕ, []};
    ghost use Rattle.std.specs.Coded.{coded_ℕ};
    ghost use Rattle.std.specs.Vec.{vec_capacity};

    ghost Value = { ℕ };

    ghost coded = { coded_ℕ };

    ghost view = { λ g. vec_capacity g.slots };

    ghost invariant = { λ g. g.slots.items ≡ [] };
}

impl Growth {
    /// No memory: what is kept has enough. It takes none.
    pub fn none(alloc: Global) -> Growth {
        Growth {
            slots: Vec::new(alloc),
        }
    }

    // Memory for so many posts in all.
    pub(crate) fn to(alloc: Global, count: usize) -> Mem<Growth>
        ensures { IfOk result (λ growth. count ≤ growth) }
    {
        let slots = Vec::with_capacity(alloc, count)?;
        Ok(Growth { slots })
    }

    // The memory itself.
    pub(crate) fn into_slots(self) -> Vec<Slot>
        ensures none { result.items ≡ [] }
        ensures capacity { vec_capacity result ≡ self }
    {
        self.slots
    }
}
