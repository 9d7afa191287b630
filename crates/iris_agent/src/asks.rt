//! The asks that an agent met.
ghost use Rattle.std.specs.Prelude.{◌≡◌, ℕ, true, false, [], OnOk, OnErr};
ghost use Rattle.iris_agent.specs.NamedAsks.{AreRetained};
ghost use Rattle.iris_agent.specs.Tables.{is_among, at_number};

use iris_tree::Mem;
use std::alloc::{AllocError, Global};
use std::collections::BTreeSet;
use std::marker::Model;

/// Numbers of asks, each once.
#[derive(Drop)]
pub(crate) struct Asks {
    numbers: BTreeSet<u64>,
}

impl Model for Asks {
    ghost use Rattle.std.specs.Prelude.{List, ℕ};

    ghost Value = { List ℕ };

    ghost view = { λ a. a.numbers.keys };
}

impl Asks {
    // No asks. It takes no memory.
    pub(crate) fn new(alloc: Global) -> Asks
        ensures { result ≡ [] }
    {
        Asks {
            numbers: BTreeSet::new(alloc),
        }
    }

    pub(crate) fn contains(&self, ask: u64) -> bool
        ensures { result ≡ is_among self.now ask }
    {
        self.numbers.contains(&ask)
    }

    pub(crate) fn insert(&mut self, ask: u64) -> Mem<()>
        ensures ok { OnOk result ((other : ℕ) → is_among self.new other ≡ at_number (is_among self.old) ask true other) }
        ensures err { OnErr result (self.new ≡ self.old) }
    {
        self.numbers.insert(ask)?;
        Ok(())
    }

    // It takes no memory.
    pub(crate) fn remove(&mut self, ask: u64)
        ensures { (other : ℕ) → is_among self.new other ≡ at_number (is_among self.old) ask false other }
    {
        self.numbers.remove(&ask);
    }

    // Keeps the numbers of which the test says true. It takes no memory.
    pub(crate) fn retain<F: Fn(u64) -> bool>(&mut self, stays: F)
        requires { F.IsAlwaysCallable stays }
        ensures { AreRetained (λ ask answer. F.post stays ask answer) self.old self.new }
    {
        self.numbers.retain(|ask| stays(*ask));
    }
}
