//! How often each ask is parked.
ghost use Rattle.std.specs.Prelude.{◌≡◌, ℕ, ◌+◌, ◌-◌, [], ◌∷◌, OnOk, OnErr};
ghost use Rattle.iris_migrate.specs.Messages.{one_of_ask, asks_among};
ghost use Rattle.iris_migrate.specs.Titles.{count_of};

use crate::key::Key;
use crate::message::Message;
use iris_tree::{Mem, Memory};
use std::alloc::Global;
use std::collections::HashMap;
use std::marker::Model;

/// How often each ask is parked, by its number. Contracts see numbers of asks and counts.
#[derive(Drop)]
pub(crate) struct ParkedAsks {
    counts: HashMap<u64, u64>,
}

impl Model for ParkedAsks {
    ghost use Rattle.std.specs.Prelude.{ℕ, List};

    ghost Value = { List (ℕ × ℕ) };

    ghost view = { λ a. a.counts.entries };
}

impl ParkedAsks {
    // None is parked. It takes no memory.
    pub(crate) fn new(alloc: Global) -> ParkedAsks
        ensures { (ask : ℕ) → count_of result ask ≡ 0 }
    {
        ParkedAsks {
            counts: HashMap::new(alloc),
        }
    }

    // How often that ask is parked.
    pub(crate) fn count(&self, ask: u64) -> u64
        ensures { result ≡ count_of self.now ask }
    {
        self.counts.get(&ask).copied().unwrap_or(0)
    }

    // Counts a key, where it is an ask, once more.
    pub(crate) fn add(&mut self, key: Key) -> Mem<()>
        ensures ok { OnOk result ((ask : ℕ) → count_of self.new ask ≡ count_of self.old ask + one_of_ask ask key) }
        ensures err { OnErr result ((ask : ℕ) → count_of self.new ask ≡ count_of self.old ask) }
    {
        match key {
            Key::Request(_) => Ok(()),
            Key::Ask(ask) => self.add_ask(ask),
        }
    }

    fn add_ask(&mut self, ask: u64) -> Mem<()>
        ensures ok { OnOk result ((other : ℕ) → count_of self.new other ≡ count_of self.old other + one_of_ask other (Key.Ask ask)) }
        ensures err { OnErr result ((other : ℕ) → count_of self.new other ≡ count_of self.old other) }
    {
        let Some(count) = self.count(ask).checked_add(1) else {
            return Err(Memory);
        };
        self.counts.insert(ask, count)?;
        Ok(())
    }

    // Counts a key, where it is an ask, once less.
    pub(crate) fn remove(&mut self, key: Key)
        ensures { (ask : ℕ) → count_of self.new ask ≡ count_of self.old ask - one_of_ask ask key }
    {
        if let Key::Ask(ask) = key {
            self.remove_ask(ask);
        }
    }

    fn remove_ask(&mut self, ask: u64)
        ensures { (other : ℕ) → count_of self.new other ≡ count_of self.old other - one_of_ask other (Key.Ask ask) }
    {
        if self.count(ask) <= 1 {
            self.counts.remove(&ask);
        } else if let Some(count) = self.counts.get_mut(&ask) {
            *count -= 1;
        }
    }

    // Counts each ask among these messages once less.
    pub(crate) fn remove_all(&mut self, messages: &[Message])
        ensures { (ask : ℕ) → count_of self.new ask ≡ count_of self.old ask - asks_among ask messages.now }
    {
        for message in messages {
            self.remove_one(message);
        }
    }

    fn remove_one(&mut self, message: &Message)
        ensures { (ask : ℕ) → count_of self.new ask ≡ count_of self.old ask - asks_among ask (message.now ∷ []) }
    {
        if let Some(key) = message.key() {
            self.remove(key);
        }
    }
}
