//! What an agent knows of one node.
ghost use Rattle.std.specs.Prelude.{◌≡◌, Some, false, OnOk, OnErr};
ghost use Rattle.iris_migrate.specs.Messages.{key_of};
ghost use Rattle.iris_migrate.specs.Titles.{empty_seat, direct, with_last, given, took, with_parked, is_parked};

use crate::direct::{Direct, Forward};
use crate::key::Key;
use crate::message::Message;
use indexmap::IndexSet;
use iris_tree::{AgentId, Mem};
use std::alloc::Global;
use std::marker::Model;
use std::mem;

/// What an agent knows of one node. Contracts see it as the `Seat` of `specs/Titles.antt`.
#[derive(Drop)]
pub struct Seat {
    last: Option<u64>,
    forward: Option<Forward>,
    taken: u64,
    parked: Vec<Message>,
    // The keys of the parked messages, in the same order.
    keys: IndexSet<Key>,
}

impl Model for Seat {
    ghost use Rattle.std.specs.Prelude.{◌≡◌};
    ghost use Rattle.iris_migrate.specs.contracts.direct.Forward as forward_type;
    ghost use Rattle.iris_migrate.specs.contracts.message.Message as message_type;
    ghost use Rattle.iris_migrate.specs.Messages.{keys_in};
    ghost use Rattle.iris_migrate.specs.Titles.{Seat, seat_code};

    ghost Value = { Seat };

    ghost coded = { seat_code forward_type.the_row.coded message_type.the_row.coded };

    ghost view = { λ s. record { last = s.last; forward = s.forward; taken = s.taken; parked = s.parked.items } };

    ghost invariant = { λ s. s.keys.keys ≡ keys_in s.parked.items };
}

impl Seat {
    // A node of which nothing is known. It takes no memory.
    pub(crate) fn new(alloc: Global) -> Seat
        ensures { result ≡ empty_seat }
    {
        Seat {
            last: None,
            forward: None,
            taken: 0,
            parked: Vec::new(alloc),
            keys: IndexSet::new(alloc),
        }
    }

    pub(crate) fn last(&self) -> Option<u64>
        ensures { result ≡ self.now.last }
    {
        self.last
    }

    pub(crate) fn taken(&self) -> u64
        ensures { result ≡ self.now.taken }
    {
        self.taken
    }

    pub(crate) fn parked(&self) -> &[Message]
        ensures { result.now ≡ self.now.parked }
    {
        self.parked.as_slice()
    }

    pub(crate) fn direct(&self, epoch: u64) -> Direct
        ensures { result ≡ direct self.now epoch }
    {
        if self.last.is_some() {
            return Direct::Serve;
        }
        match self.forward {
            Some(Forward { to, epoch: given }) if epoch < given => Direct::Forward {
                to,
                epoch: given,
            },
            _ => Direct::Park,
        }
    }

    // Whether a message of that request or that ask is parked, by one look-up.
    pub(crate) fn parks(&self, key: Key) -> bool
        ensures { result ≡ is_parked self.now (Some key) }
    {
        self.keys.contains(&key)
    }

    pub(crate) fn set_last(&mut self, number: u64)
        ensures { self.new ≡ with_last self.old number }
    {
        self.last = Some(number);
    }

    pub(crate) fn give(&mut self, to: AgentId, epoch: u64)
        ensures { self.new ≡ given self.old to epoch }
    {
        self.last = None;
        self.forward = Some(Forward { to, epoch });
    }

    // Takes the node over, and all that is parked out.
    pub(crate) fn take(&mut self, epoch: u64, last: u64) -> Vec<Message>
        ensures seat { self.new ≡ took self.old epoch last }
        ensures parked { result.items ≡ self.old.parked }
    {
        self.last = Some(last);
        self.taken = epoch;
        let alloc = *self.parked.allocator();
        self.keys = IndexSet::new(alloc);
        mem::replace(&mut self.parked, Vec::new(alloc))
    }

    // Parks a message with that key, of which none is parked, behind the others.
    pub(crate) fn park(&mut self, key: Key, message: Message) -> Mem<()>
        requires key { key_of message ≡ Some key }
        requires fresh { is_parked self.old (Some key) ≡ false }
        ensures ok { OnOk result (self.new ≡ with_parked self.old message) }
        ensures err { OnErr result (self.new ≡ self.old) }
    {
        self.parked.reserve(1)?;
        self.keys.insert(key)?;
        self.parked.push_reserved(message);
        Ok(())
    }
}
