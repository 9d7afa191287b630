//! Deliveries: an arrival, and then the decisions of the gathers that are due.
ghost use Rattle.std.specs.Prelude.{◌≡◌, ℕ, ◌≤◌, true, List, Some, None, IsSome, IfSome, IfOk, OnOk, OnErr};
ghost use Rattle.iris_json.specs.declared.out.Out.{Out};
ghost use Rattle.iris_posts.specs.Posts.{post_at};
ghost use Rattle.iris_agent.specs.Outside.{seen};
ghost use Rattle.iris_protocol.specs.Table.{AgentId};
ghost use Rattle.iris_state.specs.Agents.{is_here};
ghost use Rattle.iris_state.specs.City.{IsSteady};
ghost use Rattle.iris_state.specs.Deliveries.{IsLower, IsLowestDue, IsNextDue, NoneDue, HaveDecided, HasDelivered, IsCutOff};
ghost use Rattle.iris_state.specs.Whole.{world_of};

use crate::agents::place_of;
use crate::state::State;
use iris_agent::Agent;
use iris_json::Out;
use iris_keeper::Keeper;
use iris_tree::{AgentId, Mem};
use std::alloc::AllocError;

// The gather of the lowest number, of that one and those that are due at an agent.
fn lower(next: Option<(AgentId, u64)>, agent: &Agent) -> Option<(AgentId, u64)>
    ensures { IsLower next agent.now result }
{
    let Some(number) = agent.due() else {
        return next;
    };
    let Some(one) = next else {
        return Some((agent.id(), number));
    };
    if one.1 <= number {
        Some(one)
    } else {
        Some((agent.id(), number))
    }
}

impl State {
    /// The gather of the lowest number that is due at any agent, with that agent; none exactly where no gather
    /// is due.
    pub fn next_due(&self) -> Option<(AgentId, u64)>
        requires { IsSteady self.now }
        ensures some { IfSome result (λ next. IsNextDue (world_of self.now) next.0 next.1) }
        ensures none { result ≡ None → (id : AgentId) → NoneDue (world_of self.now) id }
    {
        let mut next = None;
        let mut at = 0;
        while at < self.agents.len() {
            next = lower(next, &self.agents[at]);
            at += 1;
        }
        next
    }

    /// The lowest number of a gather of that agent that is due; none exactly where none is.
    pub fn lowest_due(&self, id: AgentId) -> Option<u64>
        requires { is_here self.now.agents id ≡ true }
        ensures some { IfSome result (IsLowestDue (world_of self.now) id) }
        ensures none { result ≡ None → NoneDue (world_of self.now) id }
    {
        let Some(at) = place_of(&self.agents, id) else {
            unreachable!();
        };
        self.agents[at].due()
    }

    /// The gathers of that agent that are due decide, the lowest first, until none is. The lines are those of
    /// the decisions, in their order. Where there is no memory the city is as the decisions before left it.
    pub fn decide_due(&mut self, id: AgentId) -> Mem<Vec<Out>>
        requires steady { IsSteady self.old }
        requires here { is_here self.old.agents id ≡ true }
        ensures decided { (numbers : List ℕ) × (lines : List Out) × HaveDecided (world_of self.old) id numbers (world_of self.new) lines × IfOk result (λ out. out.items ≡ lines) }
        ensures none { OnOk result (NoneDue (world_of self.new) id) }
        ensures here { is_here self.new.agents ≡ is_here self.old.agents }
        ensures steady { IsSteady self.new }
    {
        let mut lines = Vec::new(self.alloc);
        while let Some(number) = self.lowest_due(id) {
            let mut more = self.decide(id, number)?;
            lines.append(&mut more)?;
        }
        Ok(lines)
    }

    // The addressee of a kept post.
    fn addressee(&self, post: u64) -> AgentId
        requires steady { IsSteady self.now }
        requires kept { IsSome (post_at self.now.outbox.posts post) }
        ensures addressee { IfSome ((world_of self.now).post post) (λ sent. sent.to ≡ result) }
        ensures here { is_here self.now.agents result ≡ true }
    {
        let Some(sent) = self.outbox.posts().get(post) else {
            unreachable!();
        };
        sent.to
    }

    /// A kept post is delivered: it arrives, for the first time or once more, and then the gathers of its
    /// addressee that are due decide, the lowest first. The lines are those of the arrival and of the decisions,
    /// in their order. Where there is no memory the city is as what came back before left it, but that the
    /// addressee may hold some pieces of the message.
    pub fn deliver<P: Keeper>(&mut self, post: u64, keeper: &mut P) -> Mem<Vec<Out>>
        requires steady { IsSteady self.old }
        requires kept { IsSome (post_at self.old.outbox.posts post) }
        ensures delivered { IfOk result (λ lines. HasDelivered (world_of self.old) post (world_of self.new) lines.items (seen (P.rows keeper.old) (P.gives keeper.old) (P.faults keeper.old)) (seen (P.rows keeper.new) (P.gives keeper.new) (P.faults keeper.new))) }
        ensures none { OnOk result (IfSome ((world_of self.old).post post) (λ sent. NoneDue (world_of self.new) sent.to)) }
        ensures err { OnErr result (IsCutOff (world_of self.old) post (world_of self.new) (seen (P.rows keeper.old) (P.gives keeper.old) (P.faults keeper.old)) (seen (P.rows keeper.new) (P.gives keeper.new) (P.faults keeper.new))) }
        ensures later { P.faults keeper.old ≤ P.faults keeper.new }
        ensures here { is_here self.new.agents ≡ is_here self.old.agents }
        ensures steady { IsSteady self.new }
    {
        let to = self.addressee(post);
        let mut lines = self.arrive(post, keeper)?;
        let mut more = self.decide_due(to)?;
        lines.append(&mut more)?;
        Ok(lines)
    }
}
