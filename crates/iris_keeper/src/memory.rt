//! A keeper whose rows lie in memory.
ghost use Rattle.std.specs.Prelude.{◌≡◌, [], ◌∷◌, ◌++◌, true, Err, IsErr, IfOk, OnOk, OnErr};
ghost use Rattle.iris_base.specs.Outside.{HasCause};
ghost use Rattle.iris_keeper.specs.Calls.{fails_now};

use crate::calls::FailingCalls;
use crate::keeper::Keeper;
use crate::kept::Kept;
use iris_tree::{Fault, Mem, Sequence};
use std::marker::Model;

/// Rows in memory. It tells them.
#[derive(Debug, Drop)]
pub struct MemoryKeeper {
    rows: Sequence<Kept>,
    calls: FailingCalls,
}

impl Model for MemoryKeeper {
    ghost use Rattle.iris_keeper.specs.contracts.kept.Kept as kept_type;
    ghost use Rattle.iris_keeper.specs.Calls.{RowsInMemory, rows_code};

    ghost Value = { RowsInMemory };

    ghost coded = { rows_code kept_type.the_row.coded };

    ghost view = { λ k. record { rows = k.rows; calls = k.calls } };
}

// A copy of a list of rows, by the same allocator.
fn copy_rows(rows: &Sequence<Kept>) -> Mem<Sequence<Kept>>
    ensures { IfOk result (λ copy. copy ≡ rows.now) }
{
    let mut copy = Sequence::new(rows.allocator());
    for row in rows.as_slice() {
        copy.push(row.copy()?)?;
    }
    Ok(copy)
}

impl MemoryKeeper {
    /// A keeper of these rows, the oldest first. The calls of `append` and `load` whose numbers, from 0
    /// over both, stand in `fails` change nothing and answer `Failed`.
    pub fn new(rows: Sequence<Kept>, fails: Vec<u64>) -> MemoryKeeper
        ensures rows { ⟦<MemoryKeeper as Keeper>⟧.rows result rows }
        ensures calls { result.calls ≡ record { fails = fails.items; made = 0; faults = 0 } }
    {
        MemoryKeeper {
            rows,
            calls: FailingCalls::new(fails),
        }
    }

    /// Its rows, the oldest first.
    pub fn rows(&self) -> &[Kept]
        ensures { ⟦<MemoryKeeper as Keeper>⟧.rows self.now result.now }
    {
        self.rows.as_slice()
    }
}

impl Keeper for MemoryKeeper {
    ghost use Rattle.std.proofs.Common.{sym, ◌∙◌};

    ghost rows = { λ keeper rows. rows ≡ keeper.rows };

    ghost gives = { λ keeper rows. rows ≡ keeper.rows };

    ghost faults = { λ keeper. keeper.calls.faults };

    ghost one = { λ keeper a b is was. is ∙ sym was };

    ghost rows_given = { λ keeper a told. told };

    fn append(&mut self, row: &Kept) -> Result<(), Fault>
        ensures cause { HasCause Fault.Failed self.old.calls.faults self.new.calls.faults result }
        ensures added { OnOk result (self.new.rows ≡ self.old.rows ++ row.now ∷ []) }
        ensures kept { OnErr result (self.new.rows ≡ self.old.rows) }
        ensures only { result ≡ Err Fault.Failed → fails_now self.old.calls ≡ true }
        ensures failed { fails_now self.old.calls ≡ true → IsErr result }
    {
        self.calls.begin()?;
        let Ok(row) = row.copy() else {
            return Err(Fault::Memory);
        };
        match self.rows.push(row) {
            Ok(()) => Ok(()),
            Err(_) => Err(Fault::Memory),
        }
    }

    fn load(&mut self) -> Result<Sequence<Kept>, Fault>
        ensures cause { HasCause Fault.Failed self.old.calls.faults self.new.calls.faults result }
        ensures loaded { IfOk result (λ found. found ≡ self.old.rows) }
        ensures kept { self.new.rows ≡ self.old.rows }
        ensures only { result ≡ Err Fault.Failed → fails_now self.old.calls ≡ true }
        ensures failed { fails_now self.old.calls ≡ true → IsErr result }
    {
        self.calls.begin()?;
        match copy_rows(&self.rows) {
            Ok(rows) => Ok(rows),
            Err(_) => Err(Fault::Memory),
        }
    }
}
