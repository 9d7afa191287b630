//! The service of an update.
ghost use Rattle.std.specs.Prelude.{◌≡◌, ◌<◌, ◌≤◌, suc, [], ◌∷◌, All, IsSome, IfOk, OnErr};
ghost use Rattle.std.specs.Option.{IsSomeAnd};
ghost use Rattle.iris_book.specs.declared.entry.Entry.TheVariants as entries;
ghost use Rattle.iris_book.specs.Book.{MayBeEntered, updates_in};
ghost use Rattle.iris_fragment.specs.Changes.{version_at};
ghost use Rattle.iris_keeper.specs.declared.kept.Kept.TheVariants as rows;
ghost use Rattle.iris_cache.specs.Recency.{renewed_in};
ghost use Rattle.iris_migrate.specs.Titles.{seat_at, with_last};
ghost use Rattle.iris_agent.specs.Events.{IsBookOf, Happened};
ghost use Rattle.iris_agent.specs.Outside.{KeptNothing, seen};
ghost use Rattle.iris_agent.specs.Tables.{tables_of};
ghost use Rattle.iris_agent.specs.Updates.{made_of, update_kept, update_served};
ghost use Rattle.iris_agent.specs.declared.step.Step.TheVariants as steps;
ghost use Rattle.iris_agent.specs.Changes.{HasNode};

use crate::agent::Agent;
use crate::city_changes::change_in_city;
use crate::keeping::keep;
use crate::room::Room;
use crate::step::{Refusal, Step, nothing, one_step};
use crate::turn::Turn;
use iris_book::{Book, Entry};
use iris_keeper::{Keeper, Kept};
use iris_tree::{Change, ChangeError, Local, Mem, Memory, Name, Sequence};

/// A client's update of a node.
#[derive(Clone, Copy)]
pub(crate) struct SentUpdate<'a> {
    pub(crate) request: u64,
    pub(crate) name: &'a Name,
    // The number that its sender gave it.
    pub(crate) no: u64,
    pub(crate) changes: &'a Sequence<Change>,
}

// A copy of a list of changes, by the same allocator.
#[tactic(auto, using(iris_base::proofs::Copies::copied))]
pub(crate) fn copy_changes(changes: &Sequence<Change>) -> Mem<Sequence<Change>>
    ensures { IfOk result (λ copy. copy ≡ changes.now) }
{
    Ok(changes.copy()?)
}

impl SentUpdate<'_> {
    // The row that it is kept by.
    fn row(&self) -> Mem<Kept>
        ensures { IfOk result (λ row. row ≡ rows.Update self.now.name.now self.now.no self.now.changes.now) }
    {
        Ok(Kept::Update {
            name: self.name.copy()?,
            no: self.no,
            changes: copy_changes(self.changes)?,
        })
    }

    // Its entry in a book, where it leaves this value.
    fn entry(&self, local: &Local, at: u64) -> Mem<Entry>
        ensures { IfOk result (λ entry. entry ≡ entries.Updated self.now.name.now self.now.no self.now.changes.now local.now at) }
    {
        Ok(Entry::Updated {
            name: self.name.copy()?,
            no: self.no,
            changes: copy_changes(self.changes)?,
            local: local.copy()?,
            at,
        })
    }
}

impl Agent {
    // Serves an update of a node that it owns: it is accepted once its row is kept, or refused.
    pub(crate) fn serve_update<P: Keeper, R: Room>(
        &mut self,
        update: &SentUpdate<'_>,
        turn: Turn,
        book: &mut Book,
        keeper: &mut P,
        room: &mut R,
    ) -> Mem<Vec<Step>>
        requires book { IsBookOf self.old book.old }
        requires spare { 1 ≤ book.old.spare }
        requires times { All (λ u. u.1.at ≤ turn.now) (updates_in book.old.history.entries) }
        ensures served { IfOk result (λ made. Happened (λ kept. update_served kept (tables_of self.old) turn update.now.request update.now.name.now update.now.no update.now.changes.now) self.new turn made.items book.old book.new (seen (P.rows keeper.old) (P.gives keeper.old) (P.faults keeper.old)) (seen (P.rows keeper.new) (P.gives keeper.new) (P.faults keeper.new)) (R.has_room room.old room.new)) }
        ensures err { OnErr result (self.new ≡ self.old) }
        ensures unwritten { OnErr result (book.new ≡ book.old) }
        ensures unkept { OnErr result (KeptNothing (seen (P.rows keeper.old) (P.gives keeper.old) (P.faults keeper.old)) (seen (P.rows keeper.new) (P.gives keeper.new) (P.faults keeper.new))) }
        ensures later { P.faults keeper.old ≤ P.faults keeper.new }
    {
        let Some(last) = self.titles.last(update.name) else {
            return nothing(self.alloc, room);
        };
        let Some(_version) = self.cache.fragment().version(update.name) else {
            return nothing(self.alloc, room);
        };
        let Some(newest) = book.newest(update.name) else {
            unreachable!();
        };
        match self.make(newest.local, last, update)? {
            Ok(local) => self.accept(update, local, turn, book, keeper, room),
            Err(refusal) => self.refuse(update.request, refusal, room),
        }
    }

    // What an update makes of that value, where that was the number of the last one accepted, or why it is
    // refused.
    fn make(&self, local: &Local, last: u64, update: &SentUpdate<'_>) -> Mem<Result<Local, Refusal>>
        ensures { IfOk result (λ made. made ≡ made_of self.now.kinds local.now last update.now.no update.now.changes.now) }
    {
        if update.no <= last {
            return Ok(Err(Refusal::Old { last }));
        }
        match change_in_city(self.kinds.as_slice(), local, update.changes.as_slice()) {
            Ok(local) => Ok(Ok(local)),
            Err(ChangeError::BadChange { at }) => Ok(Err(Refusal::BadChange { at })),
            Err(ChangeError::Memory) => Err(Memory),
        }
    }

    // Refuses an update.
    fn refuse<R: Room>(&self, request: u64, refusal: Refusal, room: &mut R) -> Mem<Vec<Step>>
        ensures steps { IfOk result (λ made. made.items ≡ steps.Refused request refusal ∷ []) }
        ensures room { IfOk result (λ made. R.has_room room.old room.new made.items) }
    {
        let steps = one_step(self.alloc, Step::Refused { request, refusal })?;
        room.make(&steps)?;
        Ok(steps)
    }

    // The version of an owned node after one update more.
    fn next_version(&self, name: &Name) -> Mem<u64>
        requires { IsSome (version_at self.now.cache.contents name.now) }
        ensures { IfOk result (λ next. IsSomeAnd (version_at self.now.cache.contents name.now) (λ version. next ≡ suc version)) }
    {
        let Some(version) = self.cache.fragment().version(name) else {
            unreachable!();
        };
        match version.checked_add(1) {
            Some(next) => Ok(next),
            None => Err(Memory),
        }
    }

    // Accepts an update that leaves this value, if the keeper keeps its row.
    fn accept<P: Keeper, R: Room>(
        &mut self,
        update: &SentUpdate<'_>,
        local: Local,
        turn: Turn,
        book: &mut Book,
        keeper: &mut P,
        room: &mut R,
    ) -> Mem<Vec<Step>>
        requires owned { IsSome (version_at self.old.cache.contents update.now.name.now) }
        requires title { IsSome (seat_at self.old.titles update.now.name.now).last }
        requires spare { 1 ≤ book.old.spare }
        requires follows { MayBeEntered book.old.history (entries.Updated update.now.name.now update.now.no update.now.changes.now local turn.now) }
        ensures kept { IfOk result (λ made. Happened (λ kept. update_kept kept (tables_of self.old) turn update.now.request update.now.name.now update.now.no update.now.changes.now local) self.new turn made.items book.old book.new (seen (P.rows keeper.old) (P.gives keeper.old) (P.faults keeper.old)) (seen (P.rows keeper.new) (P.gives keeper.new) (P.faults keeper.new)) (R.has_room room.old room.new)) }
        ensures err { OnErr result (self.new ≡ self.old) }
        ensures unwritten { OnErr result (book.new ≡ book.old) }
        ensures unkept { OnErr result (KeptNothing (seen (P.rows keeper.old) (P.gives keeper.old) (P.faults keeper.old)) (seen (P.rows keeper.new) (P.gives keeper.new) (P.faults keeper.new))) }
        ensures later { P.faults keeper.old ≤ P.faults keeper.new }
    {
        let request = update.request;
        let version = self.next_version(update.name)?;
        let row = update.row()?;
        let entry = update.entry(&local, turn.now)?;
        let accepted = one_step(self.alloc, Step::Accepted { request, version })?;
        let refusal = Refusal::Unkept;
        let unkept = one_step(self.alloc, Step::Refused { request, refusal })?;
        room.make(&accepted)?;
        if !keep(keeper, &row)? {
            return Ok(unkept);
        }
        self.renew(update, local);
        book.push(entry);
        Ok(accepted)
    }

    // An update of an owned node was accepted, and left this value. It takes no memory.
    fn renew(&mut self, update: &SentUpdate<'_>, local: Local)
        requires version { IsSomeAnd (version_at self.old.cache.contents update.now.name.now) (λ version. version < u64.MAX) }
        requires title { IsSome (seat_at self.old.titles update.now.name.now).last }
        ensures { HasNode self.old self.new (renewed_in self.old.cache update.now.name.now local) update.now.name.now (with_last (seat_at self.old.titles update.now.name.now) update.now.no) }
    {
        self.cache.renew(update.name, local);
        self.titles.set_last(update.name, update.no);
    }
}
