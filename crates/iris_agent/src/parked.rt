//! What goes on that was parked for a node once the node came.
ghost use Rattle.std.specs.Prelude.{◌≡◌, ℕ, ◌≤◌, ◌++◌, All, Some, None, IsSome, IfOk, OnOk, OnErr, option_to_list};
ghost use Rattle.std.specs.List.{IsDistinct, filter_map};
ghost use Rattle.iris_fragment.specs.Usable.{full_held};
ghost use Rattle.iris_migrate.specs.Messages.{node_of, key_eq, keys_in};
ghost use Rattle.iris_gather.specs.OpenGathers.{gather_at};
ghost use Rattle.iris_agent.specs.Events.{MayOpenIn};
ghost use Rattle.iris_agent.specs.Given.{part_given, piece_given, given_gather, given_opened, opened_in, AreBeside, AreClosed};
ghost use Rattle.iris_agent.specs.Handovers.{posted_again, with_opened};

use crate::mail::with_epoch;
use crate::step::Step;
use iris_fragment::{Full, Level, Piece};
use iris_gather::{Gather, Gathers, Parent};
use iris_migrate::Message;
use iris_need::Start;
use iris_tree::{AgentId, Label, Mem, Memory};
use std::alloc::Global;

/// What parked messages go on with: the label of the city's top node, the piece of the node that came, and
/// the present moment.
#[derive(Clone, Copy)]
pub(crate) struct Arrived<'a> {
    pub(crate) alloc: Global,
    pub(crate) top: Label,
    pub(crate) own: &'a Piece,
    pub(crate) at: u64,
}

// The full part, stamped with that moment.
fn stamped(full: Option<Full>, stamp: u64) -> Option<Full>
    ensures { result ≡ full_held (part_given full) stamp }
{
    match full {
        Some(Full { local, version, .. }) => Some(Full {
            local,
            version,
            stamp,
        }),
        None => None,
    }
}

impl Arrived<'_> {
    // The piece of the node at a level.
    fn piece(&self, level: Level) -> Mem<Piece>
        requires { IsSome self.now.own.now.full }
        ensures { IfOk result (λ piece. piece_given self.now.own.now level self.now.at ≡ Some piece) }
    {
        let Piece { name, ids, full } = self.own.copy()?;
        let full = match level {
            Level::Ids => None,
            Level::Full => stamped(full, self.at),
        };
        Ok(Piece { name, ids, full })
    }

    // The gather that a message opens, if it opens one.
    fn gather(&self, message: &Message, number: u64) -> Mem<Option<Gather>>
        requires { IsSome self.now.own.now.full }
        ensures { IfOk result (λ gather. gather ≡ given_gather self.now.top self.now.own.now self.now.at number message.now) }
    {
        match message {
            Message::Query {
                request,
                query,
                floor,
                ..
            } => {
                let start = Start::from_document(self.alloc, self.top)?;
                let parent = Parent::Client { request: *request };
                let query = query.copy()?;
                let gather = Gather::open(self.alloc, number, query, *floor, start, None, parent)?;
                Ok(Some(gather))
            }
            Message::Ask {
                ask,
                from,
                query,
                start,
                floor,
                ..
            } => {
                let first = Some(self.piece(start.level)?);
                let parent = Parent::Ask {
                    ask: *ask,
                    agent: *from,
                };
                let query = query.copy()?;
                let start = start.copy()?;
                let gather = Gather::open(self.alloc, number, query, *floor, start, first, parent)?;
                Ok(Some(gather))
            }
            _ => Ok(None),
        }
    }

    // Opens the gather of a message, if it opens one. Returns the number that is free then.
    fn open(&self, gathers: &mut Gathers, message: &Message, number: u64) -> Mem<u64>
        requires full { IsSome self.now.own.now.full }
        requires free { (other : ℕ) → number ≤ other → gather_at gathers.old other ≡ None }
        requires alone { MayOpenIn gathers.old message.now }
        ensures opened { IfOk result (λ next. opened_in gathers.new next ≡ with_opened (opened_in gathers.old number) (given_gather self.now.top self.now.own.now self.now.at number message.now)) }
        ensures beside { IfOk result (λ next. AreBeside gathers.old gathers.new number next) }
        ensures err { OnErr result (gathers.new ≡ gathers.old) }
    {
        let Some(next) = number.checked_add(1) else {
            return Err(Memory);
        };
        let Some(gather) = self.gather(message, number)? else {
            return Ok(number);
        };
        gathers.open(gather)?;
        Ok(next)
    }

    // Opens the gathers of messages, one after another. Returns the number that is free then. Where there is
    // no memory it closes those that it opened.
    pub(crate) fn open_all(
        &self,
        gathers: &mut Gathers,
        messages: &[Message],
        first: u64,
    ) -> Mem<u64>
        requires full { IsSome self.now.own.now.full }
        requires free { (other : ℕ) → first ≤ other → gather_at gathers.old other ≡ None }
        requires alone { All (MayOpenIn gathers.old) messages.now }
        requires once { IsDistinct key_eq (keys_in messages.now) }
        ensures opened { IfOk result (λ next. opened_in gathers.new next ≡ given_opened self.now.top self.now.own.now self.now.at (opened_in gathers.old first) messages.now) }
        ensures beside { IfOk result (λ next. AreBeside gathers.old gathers.new first next) }
        ensures err { OnErr result ((number : ℕ) → gather_at gathers.new number ≡ gather_at gathers.old number) }
    {
        let mut next = first;
        for message in messages {
            match self.open(gathers, message, next) {
                Ok(after) => next = after,
                Err(error) => {
                    close_all(gathers, first, next);
                    return Err(error);
                }
            }
        }
        Ok(next)
    }
}

// Closes the gathers from a number on, up to another.
pub(crate) fn close_all(gathers: &mut Gathers, first: u64, last: u64)
    requires { first ≤ last }
    ensures { AreClosed gathers.old gathers.new first last }
{
    for number in first..last {
        gathers.close(number);
    }
}

// The step that posts an update again, with that epoch of its node; none for another message.
fn again(id: AgentId, epoch: u64, message: &Message) -> Mem<Option<Step>>
    ensures { IfOk result (λ step. step ≡ posted_again id epoch message.now) }
{
    let Message::Update { .. } = message else {
        return Ok(None);
    };
    let message = with_epoch(message, epoch)?;
    Ok(Some(Step::Post { to: id, message }))
}

// The steps that post parked updates again.
pub(crate) fn post_again(
    alloc: Global,
    id: AgentId,
    epoch: u64,
    messages: &[Message],
) -> Mem<Vec<Step>>
    ensures { IfOk result (λ steps. steps.items ≡ filter_map (posted_again id epoch) messages.now) }
{
    let mut steps = Vec::new(alloc);
    for message in messages {
        if let Some(step) = again(id, epoch, message)? {
            steps.push(step)?;
        }
    }
    Ok(steps)
}
