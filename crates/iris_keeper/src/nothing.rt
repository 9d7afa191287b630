//! A keeper that keeps nothing.
ghost use Rattle.std.specs.Prelude.{◌≡◌, []};

use crate::keeper::Keeper;
use crate::kept::Kept;
use iris_tree::{Fault, Sequence};
use std::alloc::Global;

/// Keeps nothing and never fails: a run over it leaves nothing behind. It tells that `load` gives no rows,
/// and tells no rows of its own.
#[derive(Debug, Drop)]
pub struct NeverFails {
    alloc: Global,
}

impl NeverFails {
    /// It takes no memory.
    pub fn new(alloc: Global) -> NeverFails
        ensures { ⟦<NeverFails as Keeper>⟧.gives result [] }
    {
        NeverFails { alloc }
    }
}

impl Keeper for NeverFails {
    ghost use Rattle.std.specs.Prelude.{[]};
    ghost use Rattle.std.proofs.Common.{sym, ◌∙◌};

    ghost rows = { λ _ _. ⊥ };

    ghost gives = { λ _ rows. rows ≡ [] };

    ghost faults = { λ _. 0 };

    ghost one = { λ keeper a b is was. is ∙ sym was };

    ghost rows_given = { λ keeper a told. absurd told };

    fn append(&mut self, _row: &Kept) -> Result<(), Fault> {
        Ok(())
    }

    fn load(&mut self) -> Result<Sequence<Kept>, Fault> {
        Ok(Sequence::new(self.alloc))
    }
}
