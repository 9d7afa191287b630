//! Faults of what lies outside, as sources and sinks of bytes, and how they are counted.
ghost use Rattle.std.specs.Prelude.{◌≡◌, ◌↔◌, ◌+◌, ◌≤◌, ◌<◌, min};

use thiserror::Error;

/// Why a call on something outside did not do all that it was asked.
#[derive(Clone, Copy, Debug, PartialEq, Eq, PartialOrd, Ord, Hash, Error)]
pub enum Fault {
    /// The call failed, and the count of faults rose in this call.
    #[error("the call failed")]
    Failed,
    /// There was no memory, or the count of faults is at its greatest value.
    #[error("out of memory")]
    Memory,
}

/// Counts one more failed call, and gives the error of that call. A count of faults never falls, and
/// stays at `u64::MAX` once it is there.
pub fn count_fault(faults: &mut u64) -> Fault
    ensures count { faults.new ≡ min (faults.old + 1) u64.MAX }
    ensures full { (result ≡ Fault.Memory) ↔ (faults.old ≡ u64.MAX) }
    ensures later { faults.old ≤ faults.new }
    ensures failed { result ≡ Fault.Failed → faults.old < faults.new }
{
    if *faults == u64::MAX {
        return Fault::Memory;
    }
    *faults += 1;
    Fault::Failed
}
