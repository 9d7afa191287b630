//! Calls that are made to fail, for what lies in memory and stands for something outside.
ghost use Rattle.std.specs.Prelude.{◌≡◌, ◌↔◌, ◌+◌, true, min, IsErr, IfErr};
ghost use Rattle.iris_base.specs.Outside.{HasCause};
ghost use Rattle.iris_keeper.specs.Calls.{fails_now};

use iris_tree::{Fault, count_fault};
use std::marker::Model;

/// A count of calls, of which some are to fail, by their numbers from 0, and a count of those that did.
#[derive(Debug, Drop)]
pub struct FailingCalls {
    fails: Vec<u64>,
    calls: u64,
    faults: u64,
}

impl Model for FailingCalls {
    ghost use Rattle.iris_keeper.specs.Calls.{Calls, calls_code};

    ghost Value = { Calls };

    ghost coded = { calls_code };

    ghost view = { λ c. record { fails = c.fails.items; made = c.calls; faults = c.faults } };
}

impl FailingCalls {
    /// No call was made yet, and those with these numbers are to fail.
    pub fn new(fails: Vec<u64>) -> FailingCalls
        ensures { result ≡ record { fails = fails.items; made = 0; faults = 0 } }
    {
        FailingCalls {
            fails,
            calls: 0,
            faults: 0,
        }
    }

    /// Begins a call, and fails it exactly where its number is one of those. The call past the greatest
    /// number has that number again.
    pub fn begin(&mut self) -> Result<(), Fault>
        ensures failed { IsErr result ↔ (fails_now self.old ≡ true) }
        ensures cause { HasCause Fault.Failed self.old.faults self.new.faults result }
        ensures counted { IfErr result (λ fault. (fault ≡ Fault.Memory) ↔ (self.old.faults ≡ u64.MAX)) }
        ensures made { self.new.made ≡ min (self.old.made + 1) u64.MAX }
        ensures fails { self.new.fails ≡ self.old.fails }
    {
        let fails = self.fails.contains(&self.calls);
        self.calls = self.calls.saturating_add(1);
        if fails {
            return Err(count_fault(&mut self.faults));
        }
        Ok(())
    }
}
