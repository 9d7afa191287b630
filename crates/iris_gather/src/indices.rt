//! The indices by which open gathers are found.
ghost use Rattle.std.specs.Prelude.{◌≡◌, ℕ, true, false, [], Some, None, is_some, ◌||◌, IsSome, OnOk, OnErr};
ghost use Rattle.iris_gather.specs.Gathers.{need_at};
ghost use Rattle.iris_gather.specs.OpenGathers.{is_none_left, is_request, is_ask};
ghost use Rattle.iris_gather.specs.Indices.{number_at, IsWith, AreWith, AreSame, has_number, IsReadyWith, ServesWith, ServesSame, AreIndices};

use crate::index::Index;
use crate::parent::Parent;
use iris_need::Need;
use iris_tree::Mem;
use std::alloc::Global;
use std::collections::{BTreeMap, BTreeSet};

/// Where open gathers are found.
#[derive(Debug, Drop)]
pub(crate) struct Indices {
    // The numbers of those of which nothing is pending, lent ones too.
    ready: BTreeSet<u64>,
    // By the asks that are pending.
    pending: Index,
    // By parents that are requests of clients, and that are asks.
    requests: Index,
    asks: Index,
}

impl Indices {
    // It takes no memory.
    pub(crate) fn new(alloc: Global) -> Indices
        ensures { AreIndices [] result }
    {
        Indices {
            ready: BTreeSet::new(alloc),
            pending: Index::new(alloc),
            requests: Index::new(alloc),
            asks: Index::new(alloc),
        }
    }

    pub(crate) fn ready(&self) -> &BTreeSet<u64>
        ensures { result.now ≡ self.now.ready }
    {
        &self.ready
    }

    pub(crate) fn is_ready(&self, number: u64) -> bool
        ensures { result ≡ has_number self.now number }
    {
        self.ready.contains(&number)
    }

    // The gather at which that ask is pending.
    pub(crate) fn awaiting(&self, ask: u64) -> Option<u64>
        ensures { result ≡ number_at self.now.pending ask }
    {
        self.pending.get(ask)
    }

    // Whether that request is the parent of a gather.
    pub(crate) fn serves(&self, request: u64) -> bool
        ensures { result ≡ is_some (number_at self.now.requests request) }
    {
        self.requests.get(request).is_some()
    }

    // Whether that ask is the parent of a gather, or is pending at one.
    pub(crate) fn names(&self, ask: u64) -> bool
        ensures { result ≡ (is_some (number_at self.now.asks ask) || is_some (number_at self.now.pending ask)) }
    {
        self.asks.get(ask).is_some() || self.pending.get(ask).is_some()
    }

    // A gather of which nothing is pending, with its parent.
    pub(crate) fn enter(&mut self, number: u64, parent: &Parent) -> Mem<()>
        requires new { has_number self.old number ≡ false }
        requires request { (request : ℕ) → is_request request parent.now ≡ true → number_at self.old.requests request ≡ None }
        requires ask { (ask : ℕ) → is_ask ask parent.now ≡ true → number_at self.old.asks ask ≡ None }
        ensures ready { OnOk result (IsReadyWith self.old self.new number true) }
        ensures parents { OnOk result (ServesWith self.old self.new parent.now (Some number)) }
        ensures err { OnErr result (IsReadyWith self.old self.new number false × ServesWith self.old self.new parent.now None) }
        ensures pending { self.new.pending ≡ self.old.pending }
    {
        self.add_parent(parent, number)?;
        if let Err(refused) = self.ready.insert(number) {
            self.remove_parent(parent);
            return Err(refused.into());
        }
        Ok(())
    }

    fn add_parent(&mut self, parent: &Parent, number: u64) -> Mem<()>
        ensures ok { OnOk result (ServesWith self.old self.new parent.now (Some number)) }
        ensures err { OnErr result (self.new ≡ self.old) }
        ensures ready { self.new.ready ≡ self.old.ready }
        ensures pending { self.new.pending ≡ self.old.pending }
    {
        match *parent {
            Parent::Client { request } => self.requests.insert(request, number),
            Parent::Ask { ask, .. } => self.asks.insert(ask, number),
        }
    }

    fn remove_parent(&mut self, parent: &Parent)
        ensures parents { ServesWith self.old self.new parent.now None }
        ensures ready { self.new.ready ≡ self.old.ready }
        ensures pending { self.new.pending ≡ self.old.pending }
    {
        match *parent {
            Parent::Client { request } => self.requests.remove(request),
            Parent::Ask { ask, .. } => self.asks.remove(ask),
        }
    }

    // Takes back what `enter` did. It takes no memory.
    pub(crate) fn withdraw(&mut self, number: u64, parent: &Parent)
        ensures ready { IsReadyWith self.old self.new number false }
        ensures parents { ServesWith self.old self.new parent.now None }
        ensures pending { self.new.pending ≡ self.old.pending }
    {
        self.ready.remove(&number);
        self.remove_parent(parent);
    }

    // A gather with that parent and those pending asks is gone. It takes no memory.
    pub(crate) fn leave(&mut self, number: u64, parent: &Parent, asks: &BTreeMap<u64, Need>)
        ensures ready { IsReadyWith self.old self.new number false }
        ensures parents { ServesWith self.old self.new parent.now None }
        ensures pending { AreWith self.old.pending self.new.pending asks.now.entries None }
    {
        self.withdraw(number, parent);
        self.pending.remove_all(asks);
    }

    // The gather of that number, which is ready, waits for these asks, of which none is pending elsewhere.
    pub(crate) fn wait(&mut self, number: u64, asks: &BTreeMap<u64, Need>) -> Mem<()>
        requires ready { has_number self.old number ≡ true }
        requires fresh { (ask : ℕ) → IsSome (need_at asks.now.entries ask) → number_at self.old.pending ask ≡ None }
        ensures ready { OnOk result (IsReadyWith self.old self.new number (is_none_left asks.now.entries)) }
        ensures pending { OnOk result (AreWith self.old.pending self.new.pending asks.now.entries (Some number)) }
        ensures err_ready { OnErr result (self.new.ready ≡ self.old.ready) }
        ensures err_pending { OnErr result (AreSame self.old.pending self.new.pending) }
        ensures requests { self.new.requests ≡ self.old.requests }
        ensures asks { self.new.asks ≡ self.old.asks }
    {
        self.pending.insert_all(asks, number)?;
        if !asks.is_empty() {
            self.ready.remove(&number);
        }
        Ok(())
    }

    // That ask is pending no more at the gather of that number, where these are left.
    pub(crate) fn reply(&mut self, number: u64, ask: u64, left: &BTreeMap<u64, Need>) -> Mem<()>
        requires { has_number self.old number ≡ false }
        ensures ready { OnOk result (IsReadyWith self.old self.new number (is_none_left left.now.entries)) }
        ensures pending { OnOk result (IsWith self.old.pending self.new.pending ask None) }
        ensures err { OnErr result (self.new ≡ self.old) }
        ensures requests { self.new.requests ≡ self.old.requests }
        ensures asks { self.new.asks ≡ self.old.asks }
    {
        if left.is_empty() {
            self.ready.insert(number)?;
        }
        self.pending.remove(ask);
        Ok(())
    }
}
