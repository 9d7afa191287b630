//! The arrival of a message.
ghost use Rattle.std.specs.Prelude.{◌≡◌, ◌≤◌, All, IfOk, OnErr};
ghost use Rattle.iris_book.specs.Book.{updates_in};
ghost use Rattle.iris_agent.specs.Events.{AreFree, IsBookOf, MayArrive, HasArrived, IsBackBut, offered};
ghost use Rattle.iris_agent.specs.Outside.{KeptNothing, seen};

use crate::agent::Agent;
use crate::room::Room;
use crate::step::{Step, nothing};
use crate::turn::Turn;
use iris_book::Book;
use iris_keeper::Keeper;
use iris_migrate::Message;
use iris_tree::Mem;

impl Agent {
    /// A message arrives. A query opens a gather, an update is accepted or refused, and an ask opens a
    /// gather that will reply, where this agent owns the node; where it gave the node away by a move of a
    /// greater epoch than the message's, the message is posted to where the node went; else it is parked
    /// until the node's handover comes. An ask that this agent opened or parked before, a reply that no
    /// gather waits for, and a handover that isn't newer than the last one taken here change nothing.
    ///
    /// An accepted update is kept by the keeper and entered into the book before it is told. Where there is
    /// no memory all is as before, but that the cache may have taken in some pieces of the message.
    pub fn arrive<P: Keeper, R: Room>(
        &mut self,
        message: &Message,
        turn: &mut Turn,
        book: &mut Book,
        keeper: &mut P,
        room: &mut R,
    ) -> Mem<Vec<Step>>
        requires free { AreFree self.old turn.old.next_gather }
        requires message { MayArrive self.old message.now }
        requires book { IsBookOf self.old book.old }
        requires spare { 1 ≤ book.old.spare }
        requires times { All (λ u. u.1.at ≤ turn.old.now) (updates_in book.old.history.entries) }
        ensures arrived { IfOk result (λ made. HasArrived self.old self.new turn.old turn.new message.now made.items book.old book.new (seen (P.rows keeper.old) (P.gives keeper.old) (P.faults keeper.old)) (seen (P.rows keeper.new) (P.gives keeper.new) (P.faults keeper.new)) (R.has_room room.old room.new)) }
        ensures err { OnErr result (IsBackBut self.old self.new (offered message.now)) }
        ensures turn { OnErr result (turn.new ≡ turn.old) }
        ensures unwritten { OnErr result (book.new ≡ book.old) }
        ensures unkept { OnErr result (KeptNothing (seen (P.rows keeper.old) (P.gives keeper.old) (P.faults keeper.old)) (seen (P.rows keeper.new) (P.gives keeper.new) (P.faults keeper.new))) }
        ensures later { P.faults keeper.old ≤ P.faults keeper.new }
    {
        match message {
            Message::Query { name, epoch, .. } => {
                self.arrive_mail(message, name, *epoch, turn, book, keeper, room)
            }
            Message::Ask {
                ask,
                start,
                epoch,
                ..
            } => {
                if self.is_asked(*ask) {
                    return nothing(self.alloc, room);
                }
                self.arrive_mail(message, &start.name, *epoch, turn, book, keeper, room)
            }
            Message::Update { name, epoch, .. } => {
                self.arrive_mail(message, name, *epoch, turn, book, keeper, room)
            }
            Message::Reply { ask, pieces } => self.arrive_reply(*ask, pieces, *turn, room),
            Message::Handover(handover) => self.arrive_handover(handover, turn, room),
        }
    }
}
