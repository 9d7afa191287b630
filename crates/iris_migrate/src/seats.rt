//! What an agent knows of nodes, by their names.
ghost use Rattle.std.specs.Prelude.{◌≡◌, [], Some, None, false, IsSome, OnOk, OnErr, option_copied};
ghost use Rattle.std.specs.List.{IsDistinct};
ghost use Rattle.std.specs.Map.{keys_of};
ghost use Rattle.std.specs.Cmp.Lexicographic.{pointwise};
ghost use Rattle.iris_base.specs.NameOrder.{label_eq};
ghost use Rattle.iris_migrate.specs.Messages.{key_of, node_of};
ghost use Rattle.iris_migrate.specs.Titles.{noted_at, seat_at, with_seat, owned_seat, with_last, given, took, with_parked, is_parked, IsReady, place_of};

use crate::key::Key;
use crate::message::Message;
use crate::seat::Seat;
use indexmap::IndexMap;
use iris_tree::{AgentId, Mem, Name};
use std::alloc::Global;
use std::marker::Model;

/// What an agent knows of nodes, by their hashed names, in the order in which they were put in. Contracts
/// see the list of names and seats.
#[derive(Drop)]
pub(crate) struct Seats {
    alloc: Global,
    map: IndexMap<Name, Seat>,
}

impl Model for Seats {
    ghost use Rattle.iris_base.specs.contracts.name.Label as label_type;
    ghost use Rattle.iris_migrate.specs.contracts.seat.Seat as seat_type;
    ghost use Rattle.iris_migrate.specs.Titles.{Seats as List, seats_code};

    ghost Value = { List };

    ghost coded = { seats_code label_type.the_row.coded seat_type.the_row.coded };

    ghost view = { λ s. s.map.entries };
}

impl Seats {
    // Nothing is known of any node. It takes no memory.
    pub(crate) fn new(alloc: Global) -> Seats
        ensures { result ≡ [] }
    {
        Seats {
            alloc,
            map: IndexMap::new(alloc),
        }
    }

    // Each name stands here once. This call does nothing.
    pub(crate) fn stand_once(&self)
        ensures { IsDistinct (pointwise label_eq) (keys_of self.now) }
    {
        let _ = self.map.len();
    }

    pub(crate) fn get(&self, name: &Name) -> Option<&Seat>
        ensures { option_copied result ≡ noted_at self.now name.now }
    {
        self.map.get(name)
    }

    // Makes a place for what is known of a node.
    pub(crate) fn ready(&mut self, name: &Name) -> Mem<()>
        ensures ok { OnOk result (self.new ≡ with_seat self.old name.now (seat_at self.old name.now)) }
        ensures err { OnErr result (self.new ≡ self.old) }
    {
        if !self.map.contains_key(name) {
            self.map.insert(name.copy()?, Seat::new(self.alloc))?;
        }
        Ok(())
    }

    // The agent owns a node from now on, with last number 0, and nothing else is known of it.
    pub(crate) fn own(&mut self, name: &Name) -> Mem<()>
        ensures { OnOk result (self.new ≡ with_seat self.old name.now owned_seat) }
    {
        let mut seat = Seat::new(self.alloc);
        seat.set_last(0);
        self.map.insert(name.copy()?, seat)?;
        Ok(())
    }

    // An update of a node was accepted. There is a place for the node.
    pub(crate) fn set_last(&mut self, name: &Name, number: u64)
        requires { IsReady self.old name.now }
        ensures { self.new ≡ with_seat self.old name.now (with_last (seat_at self.old name.now) number) }
    {
        let Some(seat) = self.map.get_mut(name) else {
            unreachable!();
        };
        seat.set_last(number);
    }

    // A node is given away. There is a place for it.
    pub(crate) fn give(&mut self, name: &Name, to: AgentId, epoch: u64)
        requires { IsReady self.old name.now }
        ensures { self.new ≡ with_seat self.old name.now (given (seat_at self.old name.now) to epoch) }
    {
        let Some(seat) = self.map.get_mut(name) else {
            unreachable!();
        };
        seat.give(to, epoch);
    }

    // A node is taken over, and all that is parked for it is taken out. There is a place for it.
    pub(crate) fn take(&mut self, name: &Name, epoch: u64, last: u64) -> Vec<Message>
        requires { IsReady self.old name.now }
        ensures seat { self.new ≡ with_seat self.old name.now (took (seat_at self.old name.now) epoch last) }
        ensures parked { result.items ≡ (seat_at self.old name.now).parked }
    {
        let Some(seat) = self.map.get_mut(name) else {
            unreachable!();
        };
        seat.take(epoch, last)
    }

    // Parks a message with that key, of which none is parked for its node, behind the others.
    pub(crate) fn park(&mut self, key: Key, message: Message) -> Mem<()>
        requires key { key_of message ≡ Some key }
        requires fresh { is_parked (seat_at self.old (place_of message)) (Some key) ≡ false }
        ensures ok { OnOk result (self.new ≡ with_seat self.old (place_of message) (with_parked (seat_at self.old (place_of message)) message)) }
        ensures err { OnErr result (self.new ≡ self.old) }
    {
        let Some(name) = message.node() else {
            unreachable!();
        };
        let Some(seat) = self.map.get_mut(name) else {
            let name = name.copy()?;
            let mut seat = Seat::new(self.alloc);
            seat.park(key, message)?;
            self.map.insert(name, seat)?;
            return Ok(());
        };
        seat.park(key, message)?;
        Ok(())
    }
}
