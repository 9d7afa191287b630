//! The giver's part of a move.
ghost use Rattle.std.specs.Prelude.{◌≡◌, ◌≤◌, ◌∷◌, [], false, List, Some, IsSome, IfOk, IfErr, OnOk, OnErr};
ghost use Rattle.std.specs.Cmp.Lexicographic.{pointwise};
ghost use Rattle.iris_base.specs.declared.name.Label.{Label};
ghost use Rattle.iris_base.specs.NameOrder.{label_eq};
ghost use Rattle.iris_book.specs.declared.entry.Entry.TheVariants as entries;
ghost use Rattle.iris_fragment.specs.declared.status.Status.TheVariants as standing;
ghost use Rattle.iris_fragment.specs.Contents.{status};
ghost use Rattle.iris_cache.specs.Recency.{released_in};
ghost use Rattle.iris_keeper.specs.declared.kept.Kept.TheVariants as rows;
ghost use Rattle.iris_migrate.specs.Titles.{seat_at, given};
ghost use Rattle.iris_agent.specs.Tables.{tables_of};
ghost use Rattle.iris_agent.specs.Handled.{Does};
ghost use Rattle.iris_agent.specs.Gives.{gives, HasFailed};
ghost use Rattle.iris_agent.specs.Outside.{seen, Entered, KeptEntries, KeptNothing};

use crate::agent::Agent;
use crate::keeping::keep;
use crate::pieces::handover_pieces;
use crate::room::Room;
use crate::step::Step;
use crate::turn::Turn;
use iris_book::{Book, Entry};
use iris_cache::Cached;
use iris_keeper::{Keeper, Kept};
use iris_migrate::{Handover, Message, Titles};
use iris_tree::{AgentId, Mem, Memory, Name};
use std::slice;
use thiserror::Error;

/// A move of a node to another agent.
#[derive(Debug, Drop)]
pub struct Move {
    pub name: Name,
    pub to: AgentId,
    /// The number of the node's moves, this one counted.
    pub epoch: u64,
}

/// Why a node was not given away. All is as before.
#[derive(Clone, Copy, Debug, PartialEq, Eq, Error)]
pub enum GiveError {
    /// The keeper failed to keep the move; the count of its faults rose.
    #[error("the move was not kept")]
    Unkept,
    /// There was no memory.
    #[error("out of memory")]
    Memory,
}

impl From<Memory> for GiveError {
    ghost use Rattle.std.specs.Prelude.{◌≡◌};
    ghost use Rattle.iris_agent.specs.declared.give.GiveError.TheVariants.{Memory};

    ghost from_gives = { λ _ e. e ≡ Memory };

    fn from(_error: Memory) -> GiveError {
        GiveError::Memory
    }
}

impl Move {
    // The row that it is kept by.
    fn row(&self) -> Mem<Kept>
        ensures { IfOk result (λ row. row ≡ rows.Gave self.now.name self.now.to self.now.epoch) }
    {
        Ok(Kept::Gave {
            name: self.name.copy()?,
            to: self.to,
            epoch: self.epoch,
        })
    }

    // Its entry in a book.
    fn entry(&self) -> Mem<Entry>
        ensures { IfOk result (λ entry. entry ≡ entries.Gave self.now.name self.now.to self.now.epoch) }
    {
        Ok(Entry::Gave {
            name: self.name.copy()?,
            to: self.to,
            epoch: self.epoch,
        })
    }
}

// Keeps a copy of what was owned, stamped with the present moment, and sends on what comes later.
fn let_go(cache: &mut Cached, titles: &mut Titles, moved: &Move, now: u64)
    requires ready { cache.old.ready ≡ Some moved.now.name }
    requires owned { status cache.old.cache.contents moved.now.name ≡ Some standing.Owned }
    requires title { IsSome (seat_at titles.old moved.now.name).last }
    ensures cache { cache.new.cache ≡ released_in cache.old.cache moved.now.name now }
    ensures seat { seat_at titles.new moved.now.name ≡ given (seat_at titles.old moved.now.name) moved.now.to moved.now.epoch }
    ensures others { (other : List Label) → pointwise label_eq other moved.now.name ≡ false → seat_at titles.new other ≡ seat_at titles.old other }
{
    if cache.release(&moved.name, now).is_err() {
        unreachable!();
    }
    titles.give(&moved.name, moved.to, moved.epoch);
}

impl Agent {
    /// Gives a node that the agent owns to another agent. The move is kept by the keeper and entered into
    /// the book; the agent keeps a copy, stamped with the present moment, and sends on what comes later for
    /// the node; the step posts the handover.
    pub fn give<P: Keeper, R: Room>(
        &mut self,
        moved: &Move,
        turn: Turn,
        book: &mut Book,
        keeper: &mut P,
        room: &mut R,
    ) -> Result<Step, GiveError>
        requires title { IsSome (seat_at self.old.titles moved.now.name).last }
        requires owned { status self.old.cache.contents moved.now.name ≡ Some standing.Owned }
        requires spare { 1 ≤ book.old.spare }
        ensures gave { IfOk result (λ step. Does self.new turn (step ∷ []) (gives (tables_of self.old) turn moved.now)) }
        ensures entered { OnOk result (Entered book.old book.new (gives (tables_of self.old) turn moved.now).entries) }
        ensures kept { OnOk result (KeptEntries (seen (P.rows keeper.old) (P.gives keeper.old) (P.faults keeper.old)) (seen (P.rows keeper.new) (P.gives keeper.new) (P.faults keeper.new)) (gives (tables_of self.old) turn moved.now).entries) }
        ensures room { IfOk result (λ step. R.has_room room.old room.new (step ∷ [])) }
        ensures cause { IfErr result (HasFailed (P.faults keeper.old) (P.faults keeper.new)) }
        ensures err { OnErr result (self.new ≡ self.old) }
        ensures err_book { OnErr result (book.new ≡ book.old) }
        ensures err_keeper { OnErr result (KeptNothing (seen (P.rows keeper.old) (P.gives keeper.old) (P.faults keeper.old)) (seen (P.rows keeper.new) (P.gives keeper.new) (P.faults keeper.new))) }
        ensures later { P.faults keeper.old ≤ P.faults keeper.new }
    {
        let row = moved.row()?;
        let entry = moved.entry()?;
        let step = self.handing_over(moved, turn)?;
        self.cache.ready(&moved.name)?;
        room.make(slice::from_ref(&step))?;
        if !keep(keeper, &row)? {
            return Err(GiveError::Unkept);
        }
        book.push(entry);
        let_go(&mut self.cache, &mut self.titles, moved, turn.now);
        Ok(step)
    }

    // The step that posts the handover.
    fn handing_over(&self, moved: &Move, turn: Turn) -> Mem<Step>
        ensures { IfOk result (λ step. (gives (tables_of self.now) turn moved.now).steps ≡ step ∷ []) }
    {
        let handover = Handover {
            name: moved.name.copy()?,
            epoch: moved.epoch,
            last: self.titles.last(&moved.name).unwrap_or(0),
            pieces: handover_pieces(self.alloc, self.cache.fragment(), &moved.name, turn.now)?,
        };
        Ok(Step::Post {
            to: moved.to,
            message: Message::Handover(handover),
        })
    }
}
