//! The book of a city.
ghost use Rattle.std.specs.Prelude.{◌≡◌, ◌↔◌, ◌+◌, ◌<◌, ◌≤◌, [], length, sum_by, IsTrue, IfOk, OnOk, option_copied};
ghost use Rattle.std.specs.Prelude.{ℕ, List, Some, IfSome, slice_get, option_map};
ghost use Rattle.iris_base.specs.declared.name.Label.{Label};
ghost use Rattle.iris_tree.specs.TextLen.{saturated};
ghost use Rattle.iris_book.specs.Book.{with_entry, updates_at, update_count, value_at, latest, last_number_at, today, MayBeEntered, IsSound, HadVersion, weight};
ghost use Rattle.iris_book.specs.Entering.{after_entry, updates_by, KeepsEarlier, without_answers};

use crate::entry::Entry;
use crate::linked::LinkedUpdates;
use crate::log::Slot;
use crate::update::{NodeUpdate, trimmed};
use crate::weights::{ENTRY_WEIGHT, answer_weight, update_weight};
use iris_tree::{Local, Mem, Name, Tree};
use std::alloc::Global;
use std::marker::Model;

/// What was accepted in a city since its start: the updates of nodes, the moves of nodes between agents
/// and the answers, in their order. A value is found by the hashed name of its node, and by links from
/// the node's last update back to that version. Contracts see it as the `Recorded` of `specs/Book.antt`.
#[derive(Drop)]
pub struct Book {
    start: Tree,
    linked: LinkedUpdates,
    log: Vec<Slot>,
    // The weights of the updates and moves together, and those of the answers.
    lasting: u64,
    answered: u64,
    // How many more entries take no memory.
    spare: usize,
}

/// What a node holds now.
#[derive(Clone, Copy, Debug)]
pub struct Newest<'a> {
    pub local: &'a Local,
    /// The number of its updates.
    pub version: u64,
    /// The number of its last update, as its sender gave it; 0 where it had none.
    pub number: u64,
}

impl Model for Book {
    ghost use Rattle.iris_tree.specs.Universe.{Node};
    ghost use Rattle.iris_tree.specs.NodeCode.{node_code};
    ghost use Rattle.iris_base.specs.contracts.name.Label as label_type;
    ghost use Rattle.iris_tree.specs.contracts.local.Local as local_type;
    ghost use Rattle.iris_book.specs.contracts.entry.Entry as entry_type;
    ghost use Rattle.iris_book.specs.Book.{Recorded, recorded_code};
    ghost use Rattle.iris_book.specs.Log.{entries_of};
    ghost use Rattle.iris_book.specs.Consistent.{IsConsistent};
    ghost use Rattle.std.specs.Prelude.{◌-◌};
    ghost use Rattle.std.specs.Vec.{vec_len, vec_capacity};

    ghost Value = { Recorded };

    ghost coded = { recorded_code (node_code label_type.the_row.coded local_type.the_row.coded) entry_type.the_row.coded };

    ghost view = { λ b. record { history = record { start = b.start; entries = entries_of b.log.items b.linked.updates }; spare = b.spare } };

    ghost invariant = { λ b. IsConsistent b.start b.linked b.log.items (vec_capacity b.log - vec_len b.log) b.lasting b.answered b.spare };
}

impl Book {
    /// A book without entries, of a city that starts with this document.
    pub fn new(alloc: Global, tree: Tree) -> Mem<Book>
        ensures start { IfOk result (λ book. book.history.start ≡ tree) }
        ensures entries { IfOk result (λ book. book.history.entries ≡ []) }
    {
        Ok(Book {
            start: tree,
            linked: LinkedUpdates::new(alloc),
            log: Vec::new(alloc),
            lasting: 0,
            answered: 0,
            spare: 0,
        })
    }

    /// Makes room for so many more entries, so that they take no memory.
    pub fn reserve(&mut self, n: usize) -> Mem<()>
        ensures ok { OnOk result (n ≤ self.new.spare) }
        ensures room { self.old.spare ≤ self.new.spare }
        ensures history { self.new.history ≡ self.old.history }
    {
        self.linked.reserve(n)?;
        self.log.reserve(n)?;
        self.spare = self.spare.max(n);
        Ok(())
    }

    /// Adds an entry at the end. It takes no memory.
    pub fn push(&mut self, entry: Entry)
        requires room { 1 ≤ self.old.spare }
        requires follows { MayBeEntered self.old.history entry }
        ensures entries { self.new.history ≡ with_entry self.old.history entry }
        ensures room { self.new.spare + 1 ≡ self.old.spare }

        // What follows from the new entry.
        ensures today { today self.new.history ≡ after_entry (today self.old.history) entry }
        ensures newest { (name : List Label) → update_count self.new.history name ≡ update_count self.old.history name + updates_by entry name }
        ensures earlier { KeepsEarlier self.old.history self.new.history entry }
    {
        self.enter(entry);
    }

    // The same, without what follows from it.
    fn enter(&mut self, entry: Entry)
        requires room { 1 ≤ self.old.spare }
        requires follows { MayBeEntered self.old.history entry }
        ensures entries { self.new.history ≡ with_entry self.old.history entry }
        ensures room { self.new.spare + 1 ≡ self.old.spare }
    {
        self.spare -= 1;
        match entry {
            Entry::Updated {
                name,
                no,
                changes,
                local,
                at,
            } => {
                let weight = update_weight(changes.as_slice(), &local);
                self.lasting = self.lasting.saturating_add(weight);
                self.log.push_reserved(Slot::Update);
                let update = NodeUpdate {
                    no,
                    changes: trimmed(changes),
                    local,
                    at,
                };
                self.linked.push(name, update);
            }
            Entry::Gave { name, to, epoch } => {
                self.lasting = self.lasting.saturating_add(ENTRY_WEIGHT);
                self.log.push_reserved(Slot::Gave { name, to, epoch });
            }
            Entry::Answered {
                request,
                query,
                floor,
                cites,
            } => {
                let weight = answer_weight(cites.len());
                self.answered = self.answered.saturating_add(weight);
                self.log.push_reserved(Slot::Answered {
                    request,
                    query,
                    floor,
                    cites,
                });
            }
        }
    }

    /// The local information of that node after so many of its updates: of version 0 at the start. None
    /// exactly where no such node is, or the node had fewer updates.
    pub fn value(&self, name: &Name, version: u64) -> Option<&Local>
        ensures { option_copied result ≡ value_at self.now.history name.now version }
    {
        match version.checked_sub(1) {
            Some(before) => Some(&self.linked.get(name, before as usize)?.local),
            None => Some(self.start.find(name)?.local()),
        }
    }

    /// What that node holds now, by one look-up. None exactly where no such node is.
    pub fn newest(&self, name: &Name) -> Option<Newest<'_>>
        ensures version { option_map (λ newest. newest.version) result ≡ latest self.now.history name.now }
        ensures value { IfSome result (λ newest. value_at self.now.history name.now newest.version ≡ Some newest.local.now) }
        ensures number { IfSome result (λ newest. newest.number ≡ last_number_at self.now.history name.now) }
    {
        if let Some(last) = self.linked.last(name) {
            return Some(Newest {
                local: &last.update.local,
                version: last.before as u64 + 1,
                number: last.update.no,
            });
        }
        let start = self.start.find(name)?;
        Some(Newest {
            local: start.local(),
            version: 0,
            number: 0,
        })
    }

    /// The newest version of that node, which is the number of its updates. None exactly where no such
    /// node is.
    pub fn latest(&self, name: &Name) -> Option<u64>
        ensures { result ≡ latest self.now.history name.now }
    {
        Some(self.newest(name)?.version)
    }

    /// Whether the node had that version at that moment, in milliseconds. At the moment of an update it
    /// had both the version before and the one after.
    pub fn held(&self, name: &Name, version: u64, stamp: u64) -> bool
        ensures { IsTrue result ↔ HadVersion self.now.history name.now version stamp }
    {
        self.value(name, version).is_some()
            && self.had_begun(name, version, stamp)
            && self.was_not_over(name, version, stamp)
    }

    // Whether the update that made that version, if one did, came at that moment or before.
    fn had_begun(&self, name: &Name, version: u64, stamp: u64) -> bool
        ensures { IsTrue result ↔ ((before : ℕ) → before + 1 ≡ version → IfSome (slice_get (updates_at self.now.history name.now) before) (λ u. u.at ≤ stamp)) }
    {
        let Some(before) = version.checked_sub(1) else {
            return true;
        };
        match self.linked.get(name, before as usize) {
            Some(update) => update.at <= stamp,
            None => true,
        }
    }

    // Whether the update after that version, if there is one, came at that moment or after.
    fn was_not_over(&self, name: &Name, version: u64, stamp: u64) -> bool
        ensures { IsTrue result ↔ IfSome (slice_get (updates_at self.now.history name.now) version) (λ u. stamp ≤ u.at) }
    {
        match self.linked.get(name, version as usize) {
            Some(update) => stamp <= update.at,
            None => true,
        }
    }

    /// The newest document: the start document with the newest value of each node.
    pub fn today(&self) -> Mem<Tree>
        ensures { IfOk result (λ document. document ≡ today self.now.history) }
    {
        let mut document = self.start.copy()?;
        self.linked.put_newest(&mut document)?;
        Ok(document)
    }

    /// The number of entries.
    pub fn entries(&self) -> u64
        ensures number { result ≡ length self.now.history.entries }
        ensures sound { IsSound self.now.history }
    {
        self.log.len() as u64
    }

    /// What all entries weigh together, in bytes, or `u64::MAX` where it is more: each `ENTRY_WEIGHT`, an
    /// update the texts of its changes and of its local information besides, and an answer `CITE_WEIGHT`
    /// for each cite.
    pub fn bytes(&self) -> u64
        ensures { result ≡ saturated (sum_by weight self.now.history.entries) }
    {
        self.lasting.saturating_add(self.answered)
    }

    /// Takes all answers out. What else was entered stays, in its order. It takes no memory.
    pub fn drop_answers(&mut self)
        ensures history { self.new.history ≡ without_answers self.old.history }
        ensures room { self.new.spare ≡ self.old.spare }
    {
        self.log.retain(|slot| slot.stays());
        self.answered = 0;
    }
}
