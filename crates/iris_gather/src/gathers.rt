//! The open gathers of an agent.
ghost use Rattle.std.specs.Prelude.{◌≡◌, ◌≢◌, ℕ, true, false, [], Some, None, IsSome, OnOk, OnErr, IsSomeAnd, MatchBool, option_copied, option_map};
ghost use Rattle.iris_gather.specs.Gathers.{need_at};
ghost use Rattle.std.specs.List.Sorted.{IsStrictlySortedBy};
ghost use Rattle.std.specs.Map.{keys_of};
ghost use Rattle.std.specs.Ordering.{nat_cmp};
ghost use Rattle.iris_gather.specs.OpenGathers.{gather_at, unlent, with_lent, is_lent, is_due, serves_request, serves_ask, serves, awaits, names, AnyGather, NoGather, AtMostOne, HaveOwnNumbers, IsLowestDue, IsAwaiting, Exchanged, IsAnswered};

use crate::entries::Entries;
use crate::gather::Gather;
use crate::indices::Indices;
use iris_tree::Mem;
use std::alloc::Global;
use std::marker::Model;

/// The open gathers of one agent, by their numbers. A gather is due where nothing of it is pending and it
/// isn't lent, which is to say that its evaluation is made elsewhere. Each call but `due` looks a few numbers
/// up, and one more for each ask that begins or ends to be pending; `due` passes over the gathers that are
/// lent. Contracts see the list of numbers and gathers.
#[derive(Debug, Drop)]
pub struct Gathers {
    entries: Entries,
    indices: Indices,
}

impl Model for Gathers {
    ghost use Rattle.iris_gather.specs.contracts.entries.Entries as entries_type;
    ghost use Rattle.iris_gather.specs.OpenGathers.{OpenGathers, HaveOwnNumbers};

    ghost Value = { OpenGathers };

    ghost coded = { entries_type.the_row.coded };

    ghost use Rattle.iris_gather.specs.Indices.{AreIndices};

    ghost view = { λ g. g.entries };

    ghost invariant = { λ g. HaveOwnNumbers g.entries × AreIndices g.entries g.indices };
}

impl Gathers {
    /// No gathers. It takes no memory.
    pub fn new(alloc: Global) -> Gathers
        ensures { result ≡ [] }
    {
        Gathers {
            entries: Entries::new(alloc),
            indices: Indices::new(alloc),
        }
    }

    /// Numbers rise, each gather stands at its own, an ask is pending at one gather at most, and a request or
    /// an ask is the parent of one at most. This call does nothing.
    pub fn keeps_order(&self)
        ensures rising { IsStrictlySortedBy nat_cmp (keys_of self.now) }
        ensures numbers { HaveOwnNumbers self.now }
        ensures awaited { (ask : ℕ) → AtMostOne (awaits ask) self.now }
        ensures requests { (request : ℕ) → AtMostOne (serves_request request) self.now }
        ensures asks { (ask : ℕ) → AtMostOne (serves_ask ask) self.now }
    {
        self.entries.keeps_order();
    }

    /// The gather of that number.
    pub fn get(&self, number: u64) -> Option<&Gather>
        ensures { option_copied result ≡ option_map (λ one. one.gather) (gather_at self.now number) }
    {
        Some(&self.entries.get(number)?.gather)
    }

    /// Whether the gather of that number is lent.
    pub fn is_lent(&self, number: u64) -> bool
        ensures { result ≡ is_lent (gather_at self.now number) }
    {
        match self.entries.get(number) {
            Some(one) => one.lent,
            None => false,
        }
    }

    /// Whether the gather of that number is due.
    pub fn is_due(&self, number: u64) -> bool
        ensures { result ≡ is_due (gather_at self.now number) }
    {
        self.indices.is_ready(number) && !self.is_lent(number)
    }

    /// The lowest number of a gather that is due.
    pub fn due(&self) -> Option<u64>
        ensures { IsLowestDue self.now result }
    {
        for number in self.indices.ready() {
            if !self.is_lent(*number) {
                return Some(*number);
            }
        }
        None
    }

    /// Whether that request of a client is the parent of a gather.
    pub fn serves(&self, request: u64) -> bool
        ensures { MatchBool result (AnyGather (serves_request request) self.now) (NoGather (serves_request request) self.now) }
    {
        self.indices.serves(request)
    }

    /// Whether that ask is the parent of a gather, or is pending at one.
    pub fn names(&self, ask: u64) -> bool
        ensures { MatchBool result (AnyGather (names ask) self.now) (NoGather (names ask) self.now) }
    {
        self.indices.names(ask)
    }

    /// The gather at which that ask is pending.
    pub fn awaiting(&self, ask: u64) -> Option<u64>
        ensures { IsAwaiting self.now ask result }
    {
        self.indices.awaiting(ask)
    }

    /// Adds a gather under its number, not lent.
    pub fn open(&mut self, gather: Gather) -> Mem<()>
        requires number { gather_at self.old gather.id ≡ None }
        requires settled { gather.pending ≡ [] }
        requires parent { NoGather (serves gather.parent) self.old }
        ensures ok { OnOk result (Exchanged self.old self.new gather.id (Some (unlent gather))) }
        ensures err { OnErr result (self.new ≡ self.old) }
    {
        let number = gather.id();
        let parent = gather.parent();
        self.indices.enter(number, &parent)?;
        if let Err(refused) = self.entries.insert(number, gather) {
            self.indices.withdraw(number, &parent);
            return Err(refused);
        }
        Ok(())
    }

    /// Takes the gather of that number out, if there is one. It takes no memory.
    pub fn close(&mut self, number: u64)
        ensures { Exchanged self.old self.new number None }
    {
        if let Some(closed) = self.entries.remove(number) {
            let gather = &closed.gather;
            self.indices
                .leave(number, &gather.parent(), gather.pending());
        }
    }

    /// Lends the gather of that number. It takes no memory.
    pub fn lend(&mut self, number: u64)
        requires { is_due (gather_at self.old number) ≡ true }
        ensures { Exchanged self.old self.new number (option_map (with_lent true) (gather_at self.old number)) }
    {
        self.entries.set_lent(number, true);
    }

    /// The gather of that number, if there is one, is lent no more. It takes no memory.
    pub fn give_back(&mut self, number: u64)
        ensures { Exchanged self.old self.new number (option_map (with_lent false) (gather_at self.old number)) }
    {
        self.entries.set_lent(number, false);
    }

    /// Puts a gather in the place of the one that has its number and its parent, and of which nothing is
    /// pending. It isn't lent then.
    pub fn wait(&mut self, gather: Gather) -> Mem<()>
        requires there { IsSomeAnd (gather_at self.old gather.id) (λ one. (one.gather.parent ≡ gather.parent) × (one.gather.pending ≡ [])) }
        requires fresh { (ask : ℕ) → IsSome (need_at gather.pending ask) → NoGather (awaits ask) self.old }
        ensures ok { OnOk result (Exchanged self.old self.new gather.id (Some (unlent gather))) }
        ensures err { OnErr result (self.new ≡ self.old) }
    {
        let number = gather.id();
        self.indices.wait(number, gather.pending())?;
        self.entries.replace(number, gather);
        Ok(())
    }

    /// Puts a gather in the place of the one that has its number and its parent, and at which one ask more
    /// is pending: that one, which now is answered.
    pub fn reply(&mut self, ask: u64, gather: Gather) -> Mem<()>
        requires there { IsSomeAnd (gather_at self.old gather.id) (λ one. IsAnswered ask one.gather gather) }
        ensures ok { OnOk result (Exchanged self.old self.new gather.id (Some (unlent gather))) }
        ensures err { OnErr result (self.new ≡ self.old) }
    {
        let number = gather.id();
        self.entries.keeps_asks(number);
        self.indices.reply(number, ask, gather.pending())?;
        self.entries.replace(number, gather);
        Ok(())
    }
}
