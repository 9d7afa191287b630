//! Posts that arrive.
ghost use Rattle.std.specs.Prelude.{◌≡◌, ◌≤◌, IsSome, IfSome, MatchBool, IfOk, OnErr};
ghost use Rattle.iris_posts.specs.Posts.{post_at};
ghost use Rattle.iris_agent.specs.Outside.{KeptNothing, seen};
ghost use Rattle.iris_state.specs.Agents.{is_here};
ghost use Rattle.iris_state.specs.City.{HaveOwnPlaces, IsSteady};
ghost use Rattle.iris_state.specs.Events.{IsServed, IsUnserved, IsJudged, HasArrivedAt, IsInterrupted};
ghost use Rattle.iris_state.specs.Whole.{world_of};

use crate::agents::place_of;
use crate::state::State;
use iris_json::Out;
use iris_keeper::Keeper;
use iris_migrate::Message;
use iris_tree::Mem;
use std::alloc::AllocError;

impl State {
    // Whether an open gather of some agent is for that request.
    fn serves(&self, request: u64) -> bool
        ensures { MatchBool result (IsServed self.now.agents request) (IsUnserved self.now.agents request) }
    {
        let mut at = 0;
        while at < self.agents.len() {
            if self.agents[at].serves(request) {
                return true;
            }
            at += 1;
        }
        false
    }

    // Whether a message changes nothing: a query whose request has its outcome or an open gather, or an update
    // whose request has its outcome.
    fn is_over(&self, message: &Message) -> bool
        requires { HaveOwnPlaces self.now.agents }
        ensures { IsJudged (world_of self.now) message.now result }
    {
        match message {
            Message::Query { request, .. } => {
                let serving = self.serves(*request);
                self.requests.is_closed(*request) || serving
            }
            Message::Update { request, .. } => self.requests.is_closed(*request),
            Message::Ask { .. } | Message::Reply { .. } | Message::Handover(_) => false,
        }
    }

    // The same of the message of a kept post.
    fn is_post_over(&self, post: u64) -> bool
        requires own { HaveOwnPlaces self.now.agents }
        requires kept { IsSome (post_at self.now.outbox.posts post) }
        ensures { IfSome ((world_of self.now).post post) (λ sent. IsJudged (world_of self.now) sent.message result) }
    {
        let Some(sent) = self.outbox.posts().get(post) else {
            unreachable!();
        };
        self.is_over(&sent.message)
    }

    /// A kept post arrives, for the first time or once more, and its addressee does what the message asks for.
    /// The lines are those of what it posts, and then those of the outcomes. An accepted update is kept by the
    /// keeper and entered into the book before it is told. Where there is no memory all is as before, but that
    /// the addressee may hold some pieces of the message.
    pub fn arrive<P: Keeper>(&mut self, post: u64, keeper: &mut P) -> Mem<Vec<Out>>
        requires steady { IsSteady self.old }
        requires kept { IsSome (post_at self.old.outbox.posts post) }
        ensures arrived { IfOk result (λ lines. HasArrivedAt (world_of self.old) post (world_of self.new) lines.items (seen (P.rows keeper.old) (P.gives keeper.old) (P.faults keeper.old)) (seen (P.rows keeper.new) (P.gives keeper.new) (P.faults keeper.new))) }
        ensures err { OnErr result (IsInterrupted (world_of self.old) post (world_of self.new)) }
        ensures unkept { OnErr result (KeptNothing (seen (P.rows keeper.old) (P.gives keeper.old) (P.faults keeper.old)) (seen (P.rows keeper.new) (P.gives keeper.new) (P.faults keeper.new))) }
        ensures later { P.faults keeper.old ≤ P.faults keeper.new }
        ensures here { is_here self.new.agents ≡ is_here self.old.agents }
        ensures steady { IsSteady self.new }
    {
        if self.is_post_over(post) {
            self.outbox.mark(post);
            return Ok(Vec::new(self.alloc));
        }
        let Some(sent) = self.outbox.posts().get(post) else {
            unreachable!();
        };
        let Some(at) = place_of(&self.agents, sent.to) else {
            unreachable!();
        };
        self.book.reserve(1)?;
        let mut room = self.outbox.preparing();
        let steps = self.agents[at].arrive(
            &sent.message,
            &mut self.turn,
            &mut self.book,
            keeper,
            &mut room,
        )?;
        let ready = room.ready();
        self.outbox.set(ready);
        self.outbox.mark(post);
        Ok(self.follow(steps))
    }
}
