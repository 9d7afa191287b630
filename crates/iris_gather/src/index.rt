//! Which gather belongs to a number of an ask or of a request.
ghost use Rattle.std.specs.Prelude.{◌≡◌, ℕ, true, [], Some, None, IsSome, OnOk, OnErr};
ghost use Rattle.iris_gather.specs.Gathers.{need_at};
ghost use Rattle.iris_gather.specs.Indices.{number_at, IsWith, AreWith, AreSame};

use iris_need::Need;
use iris_tree::{Mem, Memory};
use std::alloc::Global;
use std::collections::BTreeMap;
use std::marker::Model;

/// Numbers of gathers by the numbers of asks or requests.
#[derive(Debug, Drop)]
pub(crate) struct Index {
    numbers: BTreeMap<u64, u64>,
}

impl Model for Index {
    ghost use Rattle.std.specs.Prelude.{ℕ, List};

    ghost Value = { List (ℕ × ℕ) };

    ghost view = { λ i. i.numbers.entries };
}

impl Index {
    // It takes no memory.
    pub(crate) fn new(alloc: Global) -> Index
        ensures { result ≡ [] }
    {
        Index {
            numbers: BTreeMap::new(alloc),
        }
    }

    pub(crate) fn get(&self, key: u64) -> Option<u64>
        ensures { result ≡ number_at self.now key }
    {
        self.numbers.get(&key).copied()
    }

    // Also where the key has another number.
    pub(crate) fn insert(&mut self, key: u64, number: u64) -> Mem<()>
        ensures ok { OnOk result (IsWith self.old self.new key (Some number)) }
        ensures err { OnErr result (self.new ≡ self.old) }
    {
        self.numbers.insert(key, number)?;
        Ok(())
    }

    // It takes no memory.
    pub(crate) fn remove(&mut self, key: u64)
        ensures { IsWith self.old self.new key None }
    {
        self.numbers.remove(&key);
    }

    // Each of these asks gets that number, of which none had one.
    pub(crate) fn insert_all(&mut self, asks: &BTreeMap<u64, Need>, number: u64) -> Mem<()>
        requires { (ask : ℕ) → IsSome (need_at asks.now.entries ask) → number_at self.old ask ≡ None }
        ensures ok { OnOk result (AreWith self.old self.new asks.now.entries (Some number)) }
        ensures err { OnErr result (AreSame self.old self.new) }
    {
        for ask in asks.keys() {
            if let Err(refused) = self.insert(*ask, number) {
                self.remove_all(asks);
                return Err(refused);
            }
        }
        Ok(())
    }

    // None of these asks has a number then. It takes no memory.
    pub(crate) fn remove_all(&mut self, asks: &BTreeMap<u64, Need>)
        ensures { AreWith self.old self.new asks.now.entries None }
    {
        for ask in asks.keys() {
            self.remove(*ask);
        }
    }
}
