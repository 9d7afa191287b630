//! What a keeper is.
ghost use Rattle.std.specs.Prelude.{◌≡◌, ◌≤◌, ◌<◌, ℕ, List, IfOk, OnOk, OnErr};
ghost use Rattle.iris_base.specs.Outside.{HasCause};
ghost use Rattle.iris_keeper.specs.declared.kept.Kept.{Kept};
ghost use Rattle.iris_keeper.specs.Told.{StillTells, Adds, DidTell};

use crate::kept::Kept;
use iris_tree::{Fault, Sequence};

/// A list of rows, the oldest first, that outlasts a run.
pub trait Keeper {
    /// Its rows, where the keeper tells them.
    ghost rows: { Self → List Kept → Type 0 };

    /// What `load` gives, where the keeper tells that.
    ghost gives: { Self → List Kept → Type 0 };

    /// How many calls have failed so far. It never falls.
    ghost faults: { Self → ℕ };

    // It tells at most one list.
    ghost one: { (keeper : Self) (a b : List Kept) → gives keeper a → gives keeper b → a ≡ b };

    // The rows that it tells are what `load` gives.
    ghost rows_given: { (keeper : Self) (a : List Kept) → rows keeper a → gives keeper a };

    /// Adds a row behind all others; after an error the rows are as before.
    fn append(&mut self, row: &Kept) -> Result<(), Fault>
        ensures cause { HasCause Fault.Failed (faults self.old) (faults self.new) result }
        ensures added { OnOk result (Adds (rows self.old) (rows self.new) row.now) }
        ensures told { OnOk result (DidTell (gives self.old) (gives self.new)) }
        ensures kept { OnErr result (StillTells (rows self.old) (rows self.new)) }
        ensures given { OnErr result (StillTells (gives self.old) (gives self.new)) };

    /// The rows, the oldest first.
    fn load(&mut self) -> Result<Sequence<Kept>, Fault>
        ensures cause { HasCause Fault.Failed (faults self.old) (faults self.new) result }
        ensures loaded { IfOk result (λ found. (rows : List Kept) → gives self.new rows → found ≡ rows) }
        ensures kept { StillTells (rows self.old) (rows self.new) }
        ensures given { StillTells (gives self.old) (gives self.new) };
}
