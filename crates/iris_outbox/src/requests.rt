//! The requests of a city's clients.
ghost use Rattle.std.specs.Prelude.{◌≡◌, ◌<◌, ℕ, suc, [], length, true, OnOk, OnErr, IfOk};
ghost use Rattle.iris_agent.specs.Tables.{at_number};
ghost use Rattle.iris_outbox.specs.Requests.{is_closed};

use iris_tree::{Mem, Memory};
use std::alloc::{AllocError, Global};
use std::collections::BTreeSet;
use std::marker::Model;

/// The numbers of requests: how many were made, and which queries and updates have no outcome yet. What has
/// its outcome takes no memory.
#[derive(Drop)]
pub struct Requests {
    made: u64,
    queries: BTreeSet<u64>,
    updates: BTreeSet<u64>,
}

impl Model for Requests {
    ghost use Rattle.iris_outbox.specs.Requests.{Asked, AreMade};

    ghost Value = { Asked };

    ghost view = { λ r. record { made = r.made; queries = r.queries.keys; updates = r.updates.keys } };

    ghost invariant = { λ r. AreMade (record { made = r.made; queries = r.queries.keys; updates = r.updates.keys }) };
}

impl Requests {
    /// No requests. It takes no memory.
    pub fn new(alloc: Global) -> Requests
        ensures { result ≡ record { made = 0; queries = []; updates = [] } }
    {
        Requests {
            made: 0,
            queries: BTreeSet::new(alloc),
            updates: BTreeSet::new(alloc),
        }
    }

    /// The number of the next request, which is how many were made.
    pub fn made(&self) -> u64
        ensures { result ≡ self.now.made }
    {
        self.made
    }

    /// How many queries have no outcome yet.
    pub fn open_queries(&self) -> usize
        ensures { result ≡ length self.now.queries }
    {
        self.queries.len()
    }

    /// Whether a request was made and has its outcome.
    pub fn is_closed(&self, request: u64) -> bool
        ensures { result ≡ is_closed self.now request }
    {
        request < self.made && !self.queries.contains(&request) && !self.updates.contains(&request)
    }

    /// A request has its outcome. It takes no memory.
    pub fn close(&mut self, request: u64)
        requires { request < self.old.made }
        ensures made { self.new.made ≡ self.old.made }
        ensures closed { (other : ℕ) → is_closed self.new other ≡ at_number (is_closed self.old) request true other }
    {
        self.queries.remove(&request);
        self.updates.remove(&request);
    }

    /// A query is made: it takes the next number.
    pub fn add_query(&mut self) -> Mem<()>
        ensures made { OnOk result (self.new.made ≡ suc self.old.made) }
        ensures closed { OnOk result ((other : ℕ) → is_closed self.new other ≡ is_closed self.old other) }
        ensures err { OnErr result (self.new ≡ self.old) }
    {
        let after = next(self.made)?;
        self.queries.insert(self.made)?;
        self.made = after;
        Ok(())
    }

    /// An update is made: it takes the next number.
    pub fn add_update(&mut self) -> Mem<()>
        ensures made { OnOk result (self.new.made ≡ suc self.old.made) }
        ensures closed { OnOk result ((other : ℕ) → is_closed self.new other ≡ is_closed self.old other) }
        ensures err { OnErr result (self.new ≡ self.old) }
    {
        let after = next(self.made)?;
        self.updates.insert(self.made)?;
        self.made = after;
        Ok(())
    }

    /// A request is made and has its outcome at once: it takes the next number.
    pub fn count(&mut self) -> Mem<()>
        ensures made { OnOk result (self.new.made ≡ suc self.old.made) }
        ensures closed { OnOk result ((other : ℕ) → is_closed self.new other ≡ at_number (is_closed self.old) self.old.made true other) }
        ensures err { OnErr result (self.new ≡ self.old) }
    {
        self.made = next(self.made)?;
        Ok(())
    }
}

// The number after that one. The greatest is never given.
fn next(number: u64) -> Mem<u64>
    ensures { IfOk result (λ after. after ≡ suc number) }
{
    match number.checked_add(1) {
        Some(after) => Ok(after),
        None => Err(Memory),
    }
}
