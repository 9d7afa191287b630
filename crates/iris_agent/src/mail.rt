//! The arrival of a message for the holder of a node.
ghost use Rattle.std.specs.Prelude.{◌≡◌, ◌≤◌, [], ◌∷◌, All, false, IsSome, IfOk, OnOk, OnErr};
ghost use Rattle.iris_book.specs.Book.{updates_in};
ghost use Rattle.iris_migrate.specs.Messages.{key_of};
ghost use Rattle.iris_migrate.specs.Titles.{seat_at, direct};
ghost use Rattle.iris_gather.specs.OpenGathers.{NoGather, serves_ask};
ghost use Rattle.iris_agent.specs.declared.step.Step.TheVariants as steps;
ghost use Rattle.iris_agent.specs.Arrivals.{served, parked, with_epoch, with_met, is_met, mail_directed};
ghost use Rattle.iris_agent.specs.Events.{AreFree, IsBookOf, MayOpen, Happened};
ghost use Rattle.iris_agent.specs.Outside.{KeptNothing, seen};
ghost use Rattle.iris_agent.specs.Handled.{after_opening, opened_gather};
ghost use Rattle.iris_agent.specs.Opened.{ask_gather};
ghost use Rattle.iris_agent.specs.Tables.{is_among, tables_of, with_asked};

use crate::agent::Agent;
use crate::room::Room;
use crate::step::{Step, nothing, one_step};
use crate::turn::Turn;
use crate::update::SentUpdate;
use iris_book::Book;
use iris_keeper::Keeper;
use iris_migrate::{Direct, Message};
use iris_need::Start;
use iris_tree::{AgentId, Mem, Name};
use iris_xpath::Query;
use std::alloc::Global;

// A copy of a message with that epoch of its node; that of a reply or a handover is as it was.
pub(crate) fn with_epoch(message: &Message, later: u64) -> Mem<Message>
    ensures { IfOk result (λ sent. sent ≡ with_epoch message.now later) }
{
    Ok(match message.copy()? {
        Message::Query {
            request,
            query,
            name,
            floor,
            ..
        } => Message::Query {
            request,
            query,
            name,
            epoch: later,
            floor,
        },
        Message::Ask {
            ask,
            from,
            query,
            start,
            floor,
            ..
        } => Message::Ask {
            ask,
            from,
            query,
            start,
            epoch: later,
            floor,
        },
        Message::Update {
            request,
            name,
            no,
            changes,
            ..
        } => Message::Update {
            request,
            name,
            epoch: later,
            no,
            changes,
        },
        other => other,
    })
}

// Sends a message on to where its node went.
fn send_on<R: Room>(
    alloc: Global,
    message: &Message,
    to: AgentId,
    later: u64,
    room: &mut R,
) -> Mem<Vec<Step>>
    ensures steps { IfOk result (λ made. made.items ≡ steps.Post to (with_epoch message.now later) ∷ []) }
    ensures room { IfOk result (λ made. R.has_room room.old room.new made.items) }
{
    let message = with_epoch(message, later)?;
    let steps = one_step(alloc, Step::Post { to, message })?;
    room.make(&steps)?;
    Ok(steps)
}

impl Agent {
    // Parks an ask that it has not met.
    fn park_ask(&mut self, ask: u64, message: Message) -> Mem<()>
        requires fresh { is_among self.old.asked ask ≡ false }
        requires wanting { IsSome (key_of message) }
        requires ask { with_met (tables_of self.old) message ≡ with_asked (tables_of self.old) ask }
        ensures ok { OnOk result (tables_of self.new ≡ parked (tables_of self.old) message) }
        ensures err { OnErr result (tables_of self.new ≡ tables_of self.old) }
    {
        self.learn(ask)?;
        if let Err(error) = self.park(message) {
            self.unlearn(ask);
            return Err(error);
        }
        Ok(())
    }

    // Parks a message that it has not met.
    fn wait_with<R: Room>(&mut self, message: &Message, room: &mut R) -> Mem<Vec<Step>>
        requires fresh { is_met (tables_of self.old) message.now ≡ false }
        requires wanting { IsSome (key_of message.now) }
        ensures tables { OnOk result (tables_of self.new ≡ parked (tables_of self.old) message.now) }
        ensures steps { IfOk result (λ made. made.items ≡ []) }
        ensures room { OnOk result (R.has_room room.old room.new []) }
        ensures err { OnErr result (tables_of self.new ≡ tables_of self.old) }
    {
        let copy = message.copy()?;
        let steps = nothing(self.alloc, room)?;
        if let Message::Ask { ask, .. } = message {
            self.park_ask(*ask, copy)?;
            return Ok(steps);
        }
        self.park(copy)?;
        Ok(steps)
    }

    // Serves an ask that it has not met.
    fn serve_ask(
        &mut self,
        ask: u64,
        from: AgentId,
        query: &Query,
        start: &Start,
        floor: u64,
        turn: &mut Turn,
    ) -> Mem<()>
        requires free { AreFree self.old turn.old.next_gather }
        requires alone { NoGather (serves_ask ask) self.old.gathers }
        requires fresh { is_among self.old.asked ask ≡ false }
        ensures tables { OnOk result (tables_of self.new ≡ (opened_gather (with_asked (tables_of self.old) ask) turn.old (ask_gather (tables_of self.old) turn.old ask from query.now start.now floor)).tables) }
        ensures turn { OnOk result (turn.new ≡ after_opening turn.old) }
        ensures err { OnErr result (tables_of self.new ≡ tables_of self.old) }
        ensures same { OnErr result (turn.new ≡ turn.old) }
    {
        self.learn(ask)?;
        if let Err(error) = self.open_ask(ask, from, query, start, floor, turn) {
            self.unlearn(ask);
            return Err(error);
        }
        Ok(())
    }

    // Serves a message for a node that it owns. It has not met the message.
    fn serve<P: Keeper, R: Room>(
        &mut self,
        message: &Message,
        turn: &mut Turn,
        book: &mut Book,
        keeper: &mut P,
        room: &mut R,
    ) -> Mem<Vec<Step>>
        requires free { AreFree self.old turn.old.next_gather }
        requires alone { MayOpen self.old message.now }
        requires fresh { is_met (tables_of self.old) message.now ≡ false }
        requires book { IsBookOf self.old book.old }
        requires spare { 1 ≤ book.old.spare }
        requires times { All (λ u. u.1.at ≤ turn.old.now) (updates_in book.old.history.entries) }
        ensures served { IfOk result (λ made. Happened (λ kept. served kept (tables_of self.old) turn.old message.now) self.new turn.new made.items book.old book.new (seen (P.rows keeper.old) (P.gives keeper.old) (P.faults keeper.old)) (seen (P.rows keeper.new) (P.gives keeper.new) (P.faults keeper.new)) (R.has_room room.old room.new)) }
        ensures err { OnErr result (tables_of self.new ≡ tables_of self.old) }
        ensures turn { OnErr result (turn.new ≡ turn.old) }
        ensures unwritten { OnErr result (book.new ≡ book.old) }
        ensures unkept { OnErr result (KeptNothing (seen (P.rows keeper.old) (P.gives keeper.old) (P.faults keeper.old)) (seen (P.rows keeper.new) (P.gives keeper.new) (P.faults keeper.new))) }
        ensures later { P.faults keeper.old ≤ P.faults keeper.new }
    {
        match message {
            Message::Query {
                request,
                query,
                floor,
                ..
            } => {
                let steps = nothing(self.alloc, room)?;
                self.open_client(*request, query, *floor, turn)?;
                Ok(steps)
            }
            Message::Ask {
                ask,
                from,
                query,
                start,
                floor,
                ..
            } => {
                let steps = nothing(self.alloc, room)?;
                self.serve_ask(*ask, *from, query, start, *floor, turn)?;
                Ok(steps)
            }
            Message::Update {
                request,
                name,
                no,
                changes,
                ..
            } => {
                let update = SentUpdate {
                    request: *request,
                    name,
                    no: *no,
                    changes,
                };
                self.serve_update(&update, *turn, book, keeper, room)
            }
            Message::Reply { .. } | Message::Handover(_) => nothing(self.alloc, room),
        }
    }

    // A message for the holder of a node arrives, which it has not met.
    pub(crate) fn arrive_mail<P: Keeper, R: Room>(
        &mut self,
        message: &Message,
        name: &Name,
        epoch: u64,
        turn: &mut Turn,
        book: &mut Book,
        keeper: &mut P,
        room: &mut R,
    ) -> Mem<Vec<Step>>
        requires free { AreFree self.old turn.old.next_gather }
        requires alone { MayOpen self.old message.now }
        requires fresh { is_met (tables_of self.old) message.now ≡ false }
        requires wanting { IsSome (key_of message.now) }
        requires book { IsBookOf self.old book.old }
        requires spare { 1 ≤ book.old.spare }
        requires times { All (λ u. u.1.at ≤ turn.old.now) (updates_in book.old.history.entries) }
        ensures arrived { IfOk result (λ made. Happened (λ kept. mail_directed kept (tables_of self.old) turn.old message.now (direct (seat_at self.old.titles name.now) epoch)) self.new turn.new made.items book.old book.new (seen (P.rows keeper.old) (P.gives keeper.old) (P.faults keeper.old)) (seen (P.rows keeper.new) (P.gives keeper.new) (P.faults keeper.new)) (R.has_room room.old room.new)) }
        ensures err { OnErr result (tables_of self.new ≡ tables_of self.old) }
        ensures turn { OnErr result (turn.new ≡ turn.old) }
        ensures unwritten { OnErr result (book.new ≡ book.old) }
        ensures unkept { OnErr result (KeptNothing (seen (P.rows keeper.old) (P.gives keeper.old) (P.faults keeper.old)) (seen (P.rows keeper.new) (P.gives keeper.new) (P.faults keeper.new))) }
        ensures later { P.faults keeper.old ≤ P.faults keeper.new }
    {
        match self.direct(name, epoch) {
            Direct::Serve => self.serve(message, turn, book, keeper, room),
            Direct::Forward { to, epoch } => send_on(self.alloc, message, to, epoch, room),
            Direct::Park => self.wait_with(message, room),
        }
    }
}
