//! Rows that are kept before what they tell is done.
ghost use Rattle.std.specs.Prelude.{◌≤◌, IfOk, OnErr};
ghost use Rattle.iris_agent.specs.Outside.{seen, KeptNothing, WasKept};

use iris_keeper::{Keeper, Kept};
use iris_tree::{Fault, Mem, Memory};

/// Has a keeper keep a row, and returns whether it did.
pub(crate) fn keep<P: Keeper>(keeper: &mut P, row: &Kept) -> Mem<bool>
    ensures told { IfOk result (λ kept. WasKept kept (seen (P.rows keeper.old) (P.gives keeper.old) (P.faults keeper.old)) (seen (P.rows keeper.new) (P.gives keeper.new) (P.faults keeper.new)) row.now) }
    ensures err { OnErr result (KeptNothing (seen (P.rows keeper.old) (P.gives keeper.old) (P.faults keeper.old)) (seen (P.rows keeper.new) (P.gives keeper.new) (P.faults keeper.new))) }
    ensures later { P.faults keeper.old ≤ P.faults keeper.new }
{
    match keeper.append(row) {
        Ok(()) => Ok(true),
        Err(Fault::Failed) => Ok(false),
        Err(Fault::Memory) => Err(Memory),
    }
}
