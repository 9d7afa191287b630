//! The moment of an event, and the numbers that it may use.
ghost use Rattle.std.specs.Prelude.{◌≡◌, ◌+◌, IfOk, OnErr};
ghost use Rattle.iris_agent.specs.Handled.{after_opening};

use iris_tree::{Mem, Memory};

/// When an event happens, and from where on numbers are free.
#[derive(Clone, Copy, Debug, PartialEq, Eq)]
pub struct Turn {
    /// The present moment, in milliseconds.
    pub now: u64,
    /// The number of the next ask: no ask has it or a greater one.
    pub next_ask: u64,
    /// The number of the next gather: no gather has it or a greater one.
    pub next_gather: u64,
}

impl Turn {
    // The turn once the number that is free for a gather is taken. The greatest number is never taken.
    pub(crate) fn with_gather(self) -> Mem<Turn>
        ensures { IfOk result (λ after. after ≡ after_opening self) }
    {
        let Some(next_gather) = self.next_gather.checked_add(1) else {
            return Err(Memory);
        };
        Ok(Turn {
            now: self.now,
            next_ask: self.next_ask,
            next_gather,
        })
    }
}
