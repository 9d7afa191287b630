//! Agents.
ghost use Rattle.std.specs.Prelude.{◌≡◌, [], true, None, Some, IsSome, MatchBool, is_some, option_copied, option_map, OnOk, OnErr};
ghost use Rattle.iris_fragment.specs.Changes.{evict_answer, has_child};
ghost use Rattle.iris_fragment.specs.Contents.{status};
ghost use Rattle.iris_cache.specs.Recency.{evicted_from};
ghost use Rattle.iris_migrate.specs.Messages.{key_of};
ghost use Rattle.iris_migrate.specs.Titles.{direct, parking, place_of, seat_at};
ghost use Rattle.iris_gather.specs.OpenGathers.{gather_at, unlent, is_due, serves, serves_request, AnyGather, NoGather, IsLowestDue, IsAwaiting};
ghost use Rattle.iris_agent.specs.Tables.{is_among};
ghost use Rattle.iris_agent.specs.Changes.{HasCache, HasSeat, HasGather, HasAsked, HasForgotten, HasForgottenUnnamed};
ghost use Rattle.iris_agent.specs.NamedAsks.{NamesAsk, NamesNoAsk};

use crate::asks::Asks;
use crate::named::{keep_named, names_ask};
use iris_cache::Cached;
use iris_fragment::{EvictError, Fragment, Status};
use iris_gather::{Gather, Gathers};
use iris_migrate::{Direct, Message, Titles};
use iris_tree::{AgentId, Kind, Label, Mem, Name, Sequence};
use std::alloc::Global;
use std::marker::Model;

/// One agent of a city: what it owns, the copies that it holds, which nodes are its own while they move and
/// what waits for those to come, the queries that it gathers answers for, and the numbers of the asks that
/// it opened or parked. It reads no clock and sends nothing: an event is given the moment and the numbers
/// that are free, and returns the steps that the world makes for it. Nodes, gathers and asks are found by
/// maps, never by a scan.
///
/// Contracts see it as the `Holdings` of `specs/Tables.antt`, and events speak of it by its tables.
#[derive(Drop)]
pub struct Agent {
    pub(crate) alloc: Global,
    pub(crate) id: AgentId,
    pub(crate) kinds: Sequence<Kind>,
    // The label of the city's top node.
    pub(crate) top: Label,
    pub(crate) cache: Cached,
    pub(crate) titles: Titles,
    pub(crate) gathers: Gathers,
    // The asks that it opened or parked.
    pub(crate) asked: Asks,
}

impl Model for Agent {
    ghost use Rattle.iris_base.specs.contracts.name.Label as label_type;
    ghost use Rattle.iris_fragment.specs.contracts.held.HeldNode as held_type;
    ghost use Rattle.iris_fragment.specs.Stored.{contents_code};
    ghost use Rattle.iris_migrate.specs.contracts.direct.Forward as forward_type;
    ghost use Rattle.iris_migrate.specs.contracts.message.Message as message_type;
    ghost use Rattle.iris_migrate.specs.Titles.{seat_code, seats_code};
    ghost use Rattle.iris_gather.specs.contracts.entries.OpenGather as open_type;
    ghost use Rattle.iris_agent.specs.Stored.{cache_code, holdings_code};
    ghost use Rattle.iris_agent.specs.Tables.{Holdings};

    ghost Value = { Holdings };

    ghost coded = { holdings_code label_type.the_row.coded (cache_code label_type.the_row.coded (contents_code label_type.the_row.coded held_type.the_row.coded)) (seats_code label_type.the_row.coded (seat_code forward_type.the_row.coded message_type.the_row.coded)) open_type.the_row.coded };

    ghost view = { λ a. record { id = a.id; kinds = a.kinds; top = a.top; cache = a.cache.cache; titles = a.titles; gathers = a.gathers; asked = a.asked } };
}

impl Agent {
    /// Its id, which no other agent of the city has.
    pub fn id(&self) -> AgentId
        ensures { result ≡ self.now.id }
    {
        self.id
    }

    /// What it holds: the nodes that it owns, the copies of others, and the ids of what stands above those.
    pub fn fragment(&self) -> &Fragment
        ensures { result.now ≡ self.now.cache.contents }
    {
        self.cache.fragment()
    }

    /// Whether it owns the node of that name. No agent does from the move of a node until its handover is
    /// taken.
    pub fn owns(&self, name: &Name) -> bool
        ensures { result ≡ is_some (seat_at self.now.titles name.now).last }
    {
        self.titles.last(name).is_some()
    }

    /// Evicts a copy before its turn comes, and returns the status that its node has then. A node that is
    /// owned, or of which no copy is held, is refused. It takes no memory.
    pub fn evict(&mut self, name: &Name) -> Result<Status, EvictError>
        ensures answer { result ≡ evict_answer (status self.old.cache.contents name.now) (has_child self.old.cache.contents.nodes name.now) }
        ensures ok { OnOk result (HasCache self.old self.new (evicted_from self.old.cache name.now)) }
        ensures err { OnErr result (self.new ≡ self.old) }
    {
        self.cache.evict(name)
    }

    /// The lowest number of a gather that is due: it waits for the reply to no ask, and isn't lent.
    pub fn due(&self) -> Option<u64>
        ensures { IsLowestDue self.now.gathers result }
    {
        self.gathers.due()
    }

    /// Whether the gather of that number is due.
    pub fn is_due(&self, number: u64) -> bool
        ensures { result ≡ is_due (gather_at self.now.gathers number) }
    {
        self.gathers.is_due(number)
    }

    /// Whether an open gather is for that request of a client. A query that is only parked is not counted.
    pub fn serves(&self, request: u64) -> bool
        ensures { MatchBool result (AnyGather (serves_request request) self.now.gathers) (NoGather (serves_request request) self.now.gathers) }
    {
        self.gathers.serves(request)
    }

    /// Whether a message that is parked here is that ask, or a gather is for it or waits for its reply, by
    /// look-ups. Such an ask is not done with: its reply is still to be made or taken.
    pub fn names(&self, ask: u64) -> bool
        ensures { MatchBool result (NamesAsk self.now.titles self.now.gathers ask) (NamesNoAsk self.now.titles self.now.gathers ask) }
    {
        names_ask(&self.titles, &self.gathers, ask)
    }

    /// Forgets the asks that it opened or parked and that are named neither here, as `names` answers, nor
    /// elsewhere, as `named` does. An ask may be forgotten once it cannot arrive any more; one that arrives
    /// after that is served again. It takes no memory.
    pub fn forget<F: Fn(u64) -> bool>(&mut self, named: F)
        requires { F.IsAlwaysCallable named }
        ensures { HasForgottenUnnamed (λ ask answer. F.post named ask answer) self.old self.new }
    {
        keep_named(&mut self.asked, &self.titles, &self.gathers, named);
    }

    // Forgets that it met that ask, if it did. It takes no memory.
    pub(crate) fn unlearn(&mut self, ask: u64)
        ensures { HasForgotten self.old self.new ask }
    {
        self.asked.remove(ask);
    }

    // Whether it opened or parked that ask.
    pub(crate) fn is_asked(&self, ask: u64) -> bool
        ensures { result ≡ is_among self.now.asked ask }
    {
        self.asked.contains(ask)
    }

    // It opened or parked that ask.
    pub(crate) fn learn(&mut self, ask: u64) -> Mem<()>
        ensures ok { OnOk result (HasAsked self.old self.new ask) }
        ensures err { OnErr result (self.new ≡ self.old) }
    {
        self.asked.insert(ask)
    }

    // What becomes of a message for the node whose sender read that epoch.
    pub(crate) fn direct(&self, name: &Name, epoch: u64) -> Direct
        ensures { result ≡ direct (seat_at self.now.titles name.now) epoch }
    {
        self.titles.direct(name, epoch)
    }

    // Parks a query, an ask or an update for its node, unless that request or ask is parked there.
    pub(crate) fn park(&mut self, message: Message) -> Mem<()>
        requires { IsSome (key_of message) }
        ensures ok { OnOk result (HasSeat self.old self.new (place_of message) (parking (seat_at self.old.titles (place_of message)) message)) }
        ensures err { OnErr result (self.new ≡ self.old) }
    {
        self.titles.park(message)?;
        Ok(())
    }

    // Opens a gather under its number.
    pub(crate) fn open(&mut self, gather: Gather) -> Mem<()>
        requires number { gather_at self.old.gathers gather.id ≡ None }
        requires settled { gather.pending ≡ [] }
        requires parent { NoGather (serves gather.parent) self.old.gathers }
        ensures ok { OnOk result (HasGather self.old self.new gather.id (Some (unlent gather))) }
        ensures err { OnErr result (self.new ≡ self.old) }
    {
        self.gathers.open(gather)
    }

    // Closes the gather of that number, if there is one. It takes no memory.
    pub(crate) fn close(&mut self, number: u64)
        ensures { HasGather self.old self.new number None }
    {
        self.gathers.close(number);
    }

    // The open gather of that number.
    pub(crate) fn gather(&self, number: u64) -> Option<&Gather>
        ensures { option_copied result ≡ option_map (λ one. one.gather) (gather_at self.now.gathers number) }
    {
        self.gathers.get(number)
    }

    // The number of the gather that waits for the reply to that ask.
    pub(crate) fn awaiting(&self, ask: u64) -> Option<u64>
        ensures { IsAwaiting self.now.gathers ask result }
    {
        self.gathers.awaiting(ask)
    }
}
