//! Which nodes an agent owns while nodes move.
ghost use Rattle.std.specs.Prelude.{◌≡◌, ℕ, true, false, not, List, IfOk, IfErr, OnOk, OnErr, Some, IsSome, is_ok, nat_lt, if◌then◌else◌};
ghost use Rattle.std.specs.List.{list_any};
ghost use Rattle.std.specs.Cmp.Lexicographic.{pointwise};
ghost use Rattle.iris_base.specs.declared.name.Label.{Label};
ghost use Rattle.iris_base.specs.NameOrder.{label_eq};
ghost use Rattle.iris_migrate.specs.declared.key.Key.TheVariants as keys;
ghost use Rattle.iris_migrate.specs.declared.error.TakeError.TheVariants.{Stale};
ghost use Rattle.iris_migrate.specs.Messages.{key_of};
ghost use Rattle.iris_migrate.specs.Titles.{seat_at, empty_seat, owned_seat, direct, with_last, given, took, parking, with_parked, with_seat, is_parked, place_of, IsReady, AreParked};

use crate::asks::ParkedAsks;
use crate::direct::Direct;
use crate::error::TakeError;
use crate::key::Key;
use crate::message::{Handover, Message};
use crate::seats::Seats;
use iris_tree::{AgentId, Mem, Name};
use std::alloc::Global;
use std::marker::Model;

/// The nodes of which an agent has the title, those that it gave away, and the messages that wait for a
/// node on its way to it. Each look-up is one by the hashed name. Contracts see the list of names with
/// what is known of each, the `Seat` of `specs/Titles.antt`, and speak of it by name: `seat_at`.
#[derive(Drop)]
pub struct Titles {
    seats: Seats,
    asks: ParkedAsks,
}

impl Model for Titles {
    ghost use Rattle.iris_base.specs.contracts.name.Label as label_type;
    ghost use Rattle.iris_migrate.specs.contracts.seat.Seat as seat_type;
    ghost use Rattle.iris_migrate.specs.Titles.{Seats as List, seats_code, AreTitles};

    ghost Value = { List };

    ghost coded = { seats_code label_type.the_row.coded seat_type.the_row.coded };

    ghost view = { λ t. t.seats };

    ghost invariant = { λ t. AreTitles t.seats t.asks };
}

impl Titles {
    /// An agent that owns these nodes, each with last number 0, and knows nothing of any other.
    pub fn new(alloc: Global, owned: &[Name]) -> Mem<Titles>
        ensures owned { IfOk result (λ titles. (name : List Label) → list_any (pointwise label_eq name) owned.now ≡ true → seat_at titles name ≡ owned_seat) }
        ensures others { IfOk result (λ titles. (name : List Label) → list_any (pointwise label_eq name) owned.now ≡ false → seat_at titles name ≡ empty_seat) }
    {
        let mut seats = Seats::new(alloc);
        for name in owned {
            seats.own(name)?;
        }
        Ok(Titles {
            seats,
            asks: ParkedAsks::new(alloc),
        })
    }

    /// What is parked for a node is of that node, wants something of its holder, and belongs to different
    /// requests and asks. It is so of all titles. This call does nothing.
    pub fn keeps_parked(&self)
        ensures { (name : List Label) → AreParked name (seat_at self.now name).parked }
    {
        let _ = &self.seats;
    }

    /// The number of the last update of the node that was accepted; none exactly where the agent does not
    /// own the node.
    pub fn last(&self, name: &Name) -> Option<u64>
        ensures { result ≡ (seat_at self.now name.now).last }
    {
        self.seats.get(name)?.last()
    }

    /// An update of that number was accepted. The agent owns the node. It takes no memory.
    pub fn set_last(&mut self, name: &Name, number: u64)
        requires owned { IsSome (seat_at self.old name.now).last }
        ensures seat { seat_at self.new name.now ≡ with_last (seat_at self.old name.now) number }
        ensures others { (other : List Label) → pointwise label_eq other name.now ≡ false → seat_at self.new other ≡ seat_at self.old other }
        ensures ready { (other : List Label) → IsReady self.old other → IsReady self.new other }
    {
        self.seats.set_last(name, number);
    }

    /// The greatest epoch of a handover of the node that was taken here, and 0 where none was.
    pub fn taken(&self, name: &Name) -> u64
        ensures { result ≡ (seat_at self.now name.now).taken }
    {
        match self.seats.get(name) {
            Some(seat) => seat.taken(),
            None => 0,
        }
    }

    /// What becomes of a message for the node whose sender read that epoch. It takes no memory.
    pub fn direct(&self, name: &Name, epoch: u64) -> Direct
        ensures { result ≡ direct (seat_at self.now name.now) epoch }
    {
        match self.seats.get(name) {
            Some(seat) => seat.direct(epoch),
            None => Direct::Park,
        }
    }

    /// The messages that are parked for the node, in the order of parking.
    pub fn parked(&self, name: &Name) -> &[Message]
        ensures { result.now ≡ (seat_at self.now name.now).parked }
    {
        match self.seats.get(name) {
            Some(seat) => seat.parked(),
            None => &[],
        }
    }

    /// Whether that ask is parked, for whatever node, by one look-up.
    pub fn is_asked(&self, ask: u64) -> bool
        ensures yes { result ≡ true → (name : List Label) × (is_parked (seat_at self.now name) (Some (keys.Ask ask)) ≡ true) }
        ensures no { result ≡ false → (name : List Label) → is_parked (seat_at self.now name) (Some (keys.Ask ask)) ≡ false }
    {
        self.seats.stand_once();
        self.asks.count(ask) > 0
    }

    /// Makes a place for what is known of the node, so that it can be taken over. Nothing else changes.
    pub fn ready(&mut self, name: &Name) -> Mem<()>
        ensures ok { OnOk result (IsReady self.new name.now) }
        ensures seats { (other : List Label) → seat_at self.new other ≡ seat_at self.old other }
        ensures ready { (other : List Label) → IsReady self.old other → IsReady self.new other }
        ensures err { OnErr result (self.new ≡ self.old) }
    {
        self.seats.ready(name)?;
        Ok(())
    }

    /// Gives the node away, by a move to that agent and of that epoch, and answers the number of the last
    /// update that was accepted. The agent owns the node. It takes no memory.
    pub fn give(&mut self, name: &Name, to: AgentId, epoch: u64) -> u64
        requires owned { IsSome (seat_at self.old name.now).last }
        ensures last { Some result ≡ (seat_at self.old name.now).last }
        ensures seat { seat_at self.new name.now ≡ given (seat_at self.old name.now) to epoch }
        ensures others { (other : List Label) → pointwise label_eq other name.now ≡ false → seat_at self.new other ≡ seat_at self.old other }
        ensures ready { (other : List Label) → IsReady self.old other → IsReady self.new other }
    {
        let Some(last) = self.last(name) else {
            unreachable!();
        };
        self.seats.give(name, to, epoch);
        last
    }

    /// Takes a node over, and answers what was parked for it, in the order of parking; none of that is
    /// parked any more. There is a place for the node, by `ready`. It takes no memory.
    pub fn take(&mut self, handover: &Handover) -> Result<Vec<Message>, TakeError>
        requires ready { IsReady self.old handover.now.name }
        ensures later { is_ok result ≡ nat_lt (seat_at self.old handover.now.name).taken handover.now.epoch }
        ensures parked { IfOk result (λ parked. parked.items ≡ (seat_at self.old handover.now.name).parked) }
        ensures seat { OnOk result (seat_at self.new handover.now.name ≡ took (seat_at self.old handover.now.name) handover.now.epoch handover.now.last) }
        ensures others { (other : List Label) → pointwise label_eq other handover.now.name ≡ false → seat_at self.new other ≡ seat_at self.old other }
        ensures ready { (other : List Label) → IsReady self.old other → IsReady self.new other }
        ensures stale { IfErr result (λ error. error ≡ Stale (seat_at self.old handover.now.name).taken) }
        ensures err { OnErr result (self.new ≡ self.old) }
    {
        let taken = self.taken(&handover.name);
        if handover.epoch <= taken {
            return Err(TakeError::Stale { taken });
        }
        let parked = self
            .seats
            .take(&handover.name, handover.epoch, handover.last);
        self.asks.remove_all(&parked);
        Ok(parked)
    }

    /// Parks a query, an ask or an update for its node, behind what is parked for it. Answers false, and
    /// nothing changes, where that request or that ask is parked for that node already.
    pub fn park(&mut self, message: Message) -> Mem<bool>
        requires wanting { IsSome (key_of message) }
        ensures parked { IfOk result (λ parked. parked ≡ not (is_parked (seat_at self.old (place_of message)) (key_of message))) }
        ensures seat { OnOk result (seat_at self.new (place_of message) ≡ parking (seat_at self.old (place_of message)) message) }
        ensures others { (other : List Label) → pointwise label_eq other (place_of message) ≡ false → seat_at self.new other ≡ seat_at self.old other }
        ensures ready { (other : List Label) → IsReady self.old other → IsReady self.new other }
        ensures again { IfOk result (λ parked. parked ≡ false → self.new ≡ self.old) }
        ensures err { OnErr result (self.new ≡ self.old) }
    {
        let Some((name, key)) = message.place() else {
            unreachable!();
        };
        if self.parks(name, key) {
            return Ok(false);
        }
        self.park_new(key, message)?;
        Ok(true)
    }

    // Parks a message with that key, of which none is parked for its node.
    fn park_new(&mut self, key: Key, message: Message) -> Mem<()>
        requires key { key_of message ≡ Some key }
        requires fresh { is_parked (seat_at self.old (place_of message)) (Some key) ≡ false }
        ensures ok { OnOk result (self.new ≡ with_seat self.old (place_of message) (with_parked (seat_at self.old (place_of message)) message)) }
        ensures err { OnErr result (self.new ≡ self.old) }
    {
        self.asks.add(key)?;
        if let Err(error) = self.seats.park(key, message) {
            self.asks.remove(key);
            return Err(error);
        }
        Ok(())
    }

    // Whether that request or that ask is parked for the node.
    fn parks(&self, name: &Name, key: Key) -> bool
        ensures { result ≡ is_parked (seat_at self.now name.now) (Some key) }
    {
        match self.seats.get(name) {
            Some(seat) => seat.parks(key),
            None => false,
        }
    }
}
