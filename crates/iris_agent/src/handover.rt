//! The arrival of a handover.
ghost use Rattle.std.specs.Prelude.{◌≡◌, ◌≤◌, false, nat_le, map, IfOk, OnOk, OnErr};
ghost use Rattle.std.specs.List.{filter_map};
ghost use Rattle.iris_migrate.specs.Titles.{seat_at, took};
ghost use Rattle.iris_agent.specs.Changes.{HasNode, HasTakenFirst};
ghost use Rattle.iris_agent.specs.Events.{AreFree, FitsHandover, IsBackBut};
ghost use Rattle.iris_agent.specs.Given.{AreClosed, BringsNode, HasOpened, HasSameGathers};
ghost use Rattle.iris_agent.specs.Handled.{Does};
ghost use Rattle.iris_agent.specs.Handovers.{above_in, handed_in, ids_alone, posted_again, handover_arrives};
ghost use Rattle.iris_agent.specs.Tables.{tables_of};

use crate::agent::Agent;
use crate::parked::{Arrived, close_all, post_again};
use crate::room::Room;
use crate::step::{Step, nothing};
use crate::turn::Turn;
use iris_fragment::Piece;
use iris_migrate::Handover;
use iris_tree::Mem;
use std::alloc::{AllocError, AllocFailed, Global};

// The pieces without their full parts.
fn ids_alone(alloc: Global, pieces: &[Piece]) -> Mem<Vec<Piece>>
    ensures { IfOk result (λ alone. alone.items ≡ map ids_alone pieces.now) }
{
    let mut alone = Vec::new(alloc);
    for piece in pieces {
        let Piece { name, ids, .. } = piece.copy()?;
        alone.push(Piece {
            name,
            ids,
            full: None,
        })?;
    }
    Ok(alone)
}

impl Agent {
    // A handover arrives.
    pub(crate) fn arrive_handover<R: Room>(
        &mut self,
        handover: &Handover,
        turn: &mut Turn,
        room: &mut R,
    ) -> Mem<Vec<Step>>
        requires free { AreFree self.old turn.old.next_gather }
        requires fits { FitsHandover self.old handover.now }
        ensures arrived { IfOk result (λ made. Does self.new turn.new made.items (handover_arrives (tables_of self.old) turn.old handover.now)) }
        ensures room { IfOk result (λ made. R.has_room room.old room.new made.items) }
        ensures err { OnErr result (IsBackBut self.old self.new (map ids_alone handover.now.pieces)) }
        ensures turn { OnErr result (turn.new ≡ turn.old) }
    {
        if self.has_taken(handover) {
            return nothing(self.alloc, room);
        }
        self.take_over(handover, turn, room)
    }

    // Whether a handover of its epoch or a greater one was taken here.
    fn has_taken(&self, handover: &Handover) -> bool
        ensures { result ≡ nat_le handover.now.epoch (seat_at self.now.titles handover.now.name).taken }
    {
        handover.epoch <= self.titles.taken(&handover.name)
    }

    // A handover is taken. What was parked for the node goes on.
    fn take_over<R: Room>(
        &mut self,
        handover: &Handover,
        turn: &mut Turn,
        room: &mut R,
    ) -> Mem<Vec<Step>>
        requires free { AreFree self.old turn.old.next_gather }
        requires fits { FitsHandover self.old handover.now }
        requires later { nat_le handover.now.epoch (seat_at self.old.titles handover.now.name).taken ≡ false }
        ensures arrived { IfOk result (λ made. Does self.new turn.new made.items (handover_arrives (tables_of self.old) turn.old handover.now)) }
        ensures room { IfOk result (λ made. R.has_room room.old room.new made.items) }
        ensures err { OnErr result (IsBackBut self.old self.new (map ids_alone handover.now.pieces)) }
        ensures turn { OnErr result (turn.new ≡ turn.old) }
    {
        let steps = self.post_again(handover)?;
        room.make(&steps)?;
        let next = self.open_parked(handover, *turn)?;
        if let Err(error) = self.take(handover) {
            self.close_from(turn.next_gather, next);
            return Err(error);
        }
        turn.next_gather = next;
        Ok(steps)
    }

    // The steps that post parked updates of the node again.
    fn post_again(&self, handover: &Handover) -> Mem<Vec<Step>>
        ensures { IfOk result (λ steps. steps.items ≡ filter_map (posted_again self.now.id handover.now.epoch) (seat_at self.now.titles handover.now.name).parked) }
    {
        let parked = self.titles.parked(&handover.name);
        post_again(self.alloc, self.id, handover.epoch, parked)
    }

    // Closes the gathers from a number on, up to another.
    fn close_from(&mut self, first: u64, last: u64)
        requires { first ≤ last }
        ensures closed { AreClosed self.old.gathers self.new.gathers first last }
        ensures rest { self.new ≡ record self.old { gathers = self.new.gathers } }
    {
        close_all(&mut self.gathers, first, last);
    }

    // Opens the gathers of what is parked for the node of a handover, as it comes. Returns the number that is
    // free then.
    fn open_parked(&mut self, handover: &Handover, turn: Turn) -> Mem<u64>
        requires free { AreFree self.old turn.next_gather }
        requires fits { FitsHandover self.old handover.now }
        ensures opened { IfOk result (HasOpened self.old self.new handover.now turn) }
        ensures err { OnErr result (HasSameGathers self.old self.new) }
    {
        let Some(own) = handover.pieces.as_slice().last() else {
            unreachable!();
        };
        let arrived = Arrived {
            alloc: self.alloc,
            top: self.top,
            own,
            at: turn.now,
        };
        self.titles.keeps_parked();
        let parked = self.titles.parked(&handover.name);
        arrived.open_all(&mut self.gathers, parked, turn.next_gather)
    }

    // Owns the node of a handover. The gathers stay.
    fn take(&mut self, handover: &Handover) -> Mem<()>
        requires fits { BringsNode self.old.cache handover.now }
        requires later { nat_le handover.now.epoch (seat_at self.old.titles handover.now.name).taken ≡ false }
        ensures ok { OnOk result (HasNode self.old self.new (handed_in self.old.cache handover.now.pieces) handover.now.name (took (seat_at self.old.titles handover.now.name) handover.now.epoch handover.now.last)) }
        ensures err { OnErr result (HasTakenFirst self.old self.new (map ids_alone (above_in handover.now.pieces))) }
    {
        let Some((own, above)) = handover.pieces.as_slice().split_last() else {
            unreachable!();
        };
        let own = own.copy()?;
        let above = ids_alone(self.alloc, above)?;
        self.titles.ready(&handover.name)?;
        self.cache.take_all(&above)?;
        self.cache.own(own)?;
        if self.titles.take(handover).is_err() {
            unreachable!();
        }
        Ok(())
    }
}
