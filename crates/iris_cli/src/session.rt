//! A city under a script: what is posted and not yet delivered, and what each line brings about.
ghost use Rattle.std.specs.Prelude.{◌≡◌, ℕ, List, [], IfOk, IfErr, OnOk, MatchOption};
ghost use Rattle.iris_base.specs.Outside.{HasCause};
ghost use Rattle.iris_cli.specs.Acts.{Acts, Writes};
ghost use Rattle.iris_cli.specs.Run.{out_line, out_lines, all_delivered, after_all, post_out, after_post, Starts};
ghost use Rattle.iris_cli.specs.Served.{IsServedCity};
ghost use Rattle.iris_cli.specs.Sessions.{world_of, HasNumbers};
ghost use Rattle.iris_cli.specs.Stepped.{RefusesCityLine, Stepped};

use crate::event::{Event, Sent};
use crate::halt::Halt;
use crate::sink::Sink;
use crate::site::Site;
use iris_json::{City, Out, QueryFault, Show, Why, read_city, write_out};
use iris_tree::{AgentId, Mem};
use iris_xpath::Query;
use std::alloc::Global;
use std::collections::VecDeque;

/// What is posted and not yet delivered.
#[derive(Drop)]
pub struct Posted {
    /// The request that its outcome tells.
    pub request: u64,
    pub sent: Sent,
}

/// A city of one agent, and what is posted to it.
#[derive(Drop)]
pub struct Session {
    pub agent: AgentId,
    pub site: Site,
    /// In the order of posting.
    pub posted: VecDeque<Posted>,
    /// How many posts were made, numbered from 0.
    pub posts: u64,
    /// How many requests were made, numbered from 0.
    pub requests: u64,
}

/// Writes a line of the run, with its LF.
pub fn put<K: Sink>(alloc: Global, out: &Out, sink: &mut K) -> Result<(), Halt>
    ensures writes { Writes (K.held sink.old) (K.held sink.new) (K.faults sink.old) (K.faults sink.new) (out_line out.now) result }
{
    let mut text = write_out(alloc, out)?;
    text.push(b'\n')?;
    sink.put(&text).map_err(Halt::of_sink)
}

// Delivers all that is posted, in its order, and writes the line of each.
fn deliver_all<K: Sink>(
    alloc: Global,
    site: &mut Site,
    posted: &mut VecDeque<Posted>,
    sink: &mut K,
) -> Result<(), Halt>
    ensures writes { Writes (K.held sink.old) (K.held sink.new) (K.faults sink.old) (K.faults sink.new) (out_lines (all_delivered site.old posted.old.items)) result }
    ensures after { OnOk result (site.new ≡ after_all site.old posted.old.items) }
    ensures none { OnOk result (posted.new.items ≡ []) }
{
    'posts: while let Some(Posted { request, sent }) = posted.pop_front() {
        let out = site.deliver(alloc, request, sent)?;
        put(alloc, &out, sink)?;
    }
    Ok(())
}

// The agent of a city that is served: its only one, where all lines are shown.
fn sole_agent(city: &City) -> Option<AgentId>
    ensures { MatchOption result ((agent : List ℕ) → IsServedCity city.now agent → ⊥) (IsServedCity city.now) }
{
    match (city.agents.as_slice(), city.show) {
        ([agent], Show::All) => Some(*agent),
        _ => None,
    }
}

impl Session {
    /// The city of a city line, with nothing accepted and nothing posted. A city of several agents, or one of
    /// which the summary alone is shown, is not served yet, and its line refused as one that is of no form.
    pub fn start(alloc: Global, line: &[u8]) -> Result<Session, Halt>
        ensures starts { IfOk result (λ session. Starts line.now (world_of session)) }
        ensures refused { IfErr result (RefusesCityLine line.now) }
    {
        let city = read_city(alloc, line)?;
        let Some(agent) = sole_agent(&city) else {
            return Err(Halt::bad_line(Why::Shape));
        };
        let City { kinds, tree, .. } = city;
        Ok(Session {
            agent,
            site: Site::new(alloc, kinds, tree)?,
            posted: VecDeque::new(alloc),
            posts: 0,
            requests: 0,
        })
    }

    // Posts a query or an update, and tells the post; or tells that the update's node is none.
    fn post(&mut self, sent: Sent) -> Mem<Out>
        requires numbers { HasNumbers (world_of self.old) }
        ensures told { IfOk result (λ out. out ≡ post_out (world_of self.old) sent) }
        ensures after { OnOk result (world_of self.new ≡ after_post (world_of self.old) sent) }
    {
        let (post, request, to) = (self.posts, self.requests, self.agent);
        let out = match &sent {
            Sent::Query { .. } => Out::Query { post, request, to },
            Sent::Update { update } if self.site.has(&update.name) => {
                Out::Update { post, request, to }
            }
            Sent::Update { .. } => {
                self.requests = request + 1;
                return Ok(Out::NoSuchNode {
                    request: Some(request),
                });
            }
        };
        self.posted.push_back(Posted { request, sent })?;
        self.posts = post + 1;
        self.requests = request + 1;
        Ok(out)
    }

    fn put_post<K: Sink>(&mut self, alloc: Global, sent: Sent, sink: &mut K) -> Result<(), Halt>
        requires numbers { HasNumbers (world_of self.old) }
        ensures acts { Acts (world_of self.old) (world_of self.new) (Event.Post sent) (K.held sink.old) (K.held sink.new) (K.faults sink.old) (K.faults sink.new) result }
    {
        let out = self.post(sent)?;
        put(alloc, &out, sink)
    }

    // Answers a query at once, from today's document.
    fn audit<K: Sink>(&mut self, alloc: Global, query: &Query, sink: &mut K) -> Result<(), Halt>
        requires numbers { HasNumbers (world_of self.old) }
        ensures acts { Acts (world_of self.old) (world_of self.new) (Event.Audit query.now) (K.held sink.old) (K.held sink.new) (K.faults sink.old) (K.faults sink.new) result }
    {
        let out = self.site.audit(alloc, self.requests, query)?;
        self.requests += 1;
        put(alloc, &out, sink)
    }

    // Tells why a text is no query.
    fn refuse<K: Sink>(&mut self, alloc: Global, why: QueryFault, sink: &mut K) -> Result<(), Halt>
        requires numbers { HasNumbers (world_of self.old) }
        ensures acts { Acts (world_of self.old) (world_of self.new) (Event.BadQuery why) (K.held sink.old) (K.held sink.new) (K.faults sink.old) (K.faults sink.new) result }
    {
        let request = self.requests;
        self.requests += 1;
        put(alloc, &Out::BadQuery { why, request }, sink)
    }

    // Puts the time forward, or tells that it would go back.
    fn advance<K: Sink>(&mut self, alloc: Global, at: u64, sink: &mut K) -> Result<(), Halt>
        ensures acts { Acts (world_of self.old) (world_of self.new) (Event.Now at) (K.held sink.old) (K.held sink.new) (K.faults sink.old) (K.faults sink.new) result }
    {
        if self.site.advance(at) {
            return Ok(());
        }
        let now = self.site.now();
        put(alloc, &Out::BackInTime { now }, sink)
    }

    // Delivers all that is posted, in the order of posting.
    fn settle<K: Sink>(&mut self, alloc: Global, sink: &mut K) -> Result<(), Halt>
        ensures acts { Acts (world_of self.old) (world_of self.new) Event.Settle (K.held sink.old) (K.held sink.new) (K.faults sink.old) (K.faults sink.new) result }
    {
        let settled = self.posted.len() as u64;
        deliver_all(alloc, &mut self.site, &mut self.posted, sink)?;
        put(alloc, &Out::Settled { settled }, sink)
    }

    // Does what a line says.
    fn act<K: Sink>(&mut self, alloc: Global, event: Event, sink: &mut K) -> Result<(), Halt>
        requires numbers { HasNumbers (world_of self.old) }
        ensures acts { Acts (world_of self.old) (world_of self.new) event (K.held sink.old) (K.held sink.new) (K.faults sink.old) (K.faults sink.new) result }
    {
        match event {
            Event::Post { sent } => self.put_post(alloc, sent, sink),
            Event::Audit { query } => self.audit(alloc, &query, sink),
            Event::BadQuery { why } => self.refuse(alloc, why, sink),
            Event::Now { at } => self.advance(alloc, at, sink),
            Event::Settle => self.settle(alloc, sink),
        }
    }

    /// Reads a line after the first and does what it says.
    pub fn run<K: Sink>(&mut self, alloc: Global, line: &[u8], sink: &mut K) -> Result<(), Halt>
        requires numbers { HasNumbers (world_of self.old) }
        ensures stepped { Stepped (world_of self.old) (world_of self.new) line.now (K.held sink.old) (K.held sink.new) result }
        ensures cause { HasCause Halt.WriteFault (K.faults sink.old) (K.faults sink.new) result }
    {
        let event = Event::read(alloc, self.site.kinds(), line)?;
        self.act(alloc, event, sink)
    }
}
