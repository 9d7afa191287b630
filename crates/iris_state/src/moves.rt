//! Nodes that move.
ghost use Rattle.std.specs.Prelude.{◌≡◌, ◌<◌, ◌≤◌, true, false, [], length, is_some, Some, IsSome, IfOk, IfErr, OnErr};
ghost use Rattle.std.specs.Vec.{vec_len, vec_capacity};
ghost use Rattle.iris_agent.specs.Gives.{HasFailed};
ghost use Rattle.iris_agent.specs.Outside.{KeptNothing, seen};
ghost use Rattle.iris_protocol.specs.Table.{agents};
ghost use Rattle.iris_route.specs.Titles.{title_at};
ghost use Rattle.iris_runs.specs.Happenings.{move_of};
ghost use Rattle.iris_runs.specs.Worlds.{owner_of};
ghost use Rattle.iris_state.specs.Agents.{is_here, place_in};
ghost use Rattle.iris_state.specs.City.{IsSteady};
ghost use Rattle.iris_state.specs.Events.{HasGiven};
ghost use Rattle.iris_state.specs.Whole.{world_of};

use crate::agents::place_of;
use crate::state::State;
use iris_agent::{GiveError, Move, Step};
use iris_json::Out;
use iris_keeper::Keeper;
use iris_tree::{AgentId, Mem, Memory, Name};
use std::alloc::{AllocError, Global};

// No steps, and room for one.
fn room_for_step(alloc: Global) -> Mem<Vec<Step>>
    ensures none { IfOk result (λ steps. steps.items ≡ []) }
    ensures room { IfOk result (λ steps. vec_len steps < vec_capacity steps) }
{
    let steps = Vec::with_capacity(alloc, 1)?;
    Ok(steps)
}

impl State {
    /// Whether the agent of that id owns the node of that name. No agent does from the move of a node until its
    /// handover is taken.
    pub fn owns(&self, id: AgentId, name: &Name) -> bool
        requires { is_here self.now.agents id ≡ true }
        ensures { result ≡ is_some (((world_of self.now).agent id).seat name.now).last }
    {
        let Some(at) = place_of(&self.agents, id) else {
            unreachable!();
        };
        self.agents[at].owns(name)
    }

    // The place of the agent that owns the node of that name by the registry.
    fn place_of_owner(&self, name: &Name) -> usize
        requires steady { IsSteady self.now }
        requires node { IsSome (title_at self.now.registry name.now) }
        ensures place { place_in (owner_of self.now.registry name.now) self.now.agents ≡ Some result }
        ensures within { result < length self.now.agents }
    {
        let Some(title) = self.registry.owner(name) else {
            unreachable!();
        };
        let Some(at) = place_of(&self.agents, title.0) else {
            unreachable!();
        };
        at
    }

    // The next move of a node, to that agent.
    fn next_move(&self, name: &Name, to: AgentId) -> Mem<Move>
        requires { IsSome (title_at self.now.registry name.now) }
        ensures { IfOk result (λ moved. moved ≡ move_of (world_of self.now) name.now to) }
    {
        let Some(title) = self.registry.owner(name) else {
            unreachable!();
        };
        let Some(epoch) = title.1.checked_add(1) else {
            return Err(Memory);
        };
        Ok(Move {
            name: name.copy()?,
            to,
            epoch,
        })
    }

    /// The owner of a node gives it to another agent. The move is kept by the keeper and entered into the book,
    /// and the registry names the new owner from then on; the line is that of the handover. Where the keeper
    /// failed, or where there is no memory, the city is as before.
    pub fn give<P: Keeper>(
        &mut self,
        name: &Name,
        to: AgentId,
        keeper: &mut P,
    ) -> Result<Vec<Out>, GiveError>
        requires steady { IsSteady self.old }
        requires node { IsSome (title_at self.old.registry name.now) }
        requires owned { IsSome (((world_of self.old).agent (owner_of self.old.registry name.now)).seat name.now).last }
        requires here { is_here self.old.agents to ≡ true }
        requires apart { agents.same to (owner_of self.old.registry name.now) ≡ false }
        ensures gave { IfOk result (λ lines. HasGiven (world_of self.old) name.now to (world_of self.new) lines.items (seen (P.rows keeper.old) (P.gives keeper.old) (P.faults keeper.old)) (seen (P.rows keeper.new) (P.gives keeper.new) (P.faults keeper.new))) }
        ensures cause { IfErr result (HasFailed (P.faults keeper.old) (P.faults keeper.new)) }
        ensures err { OnErr result (world_of self.new ≡ world_of self.old) }
        ensures unkept { OnErr result (KeptNothing (seen (P.rows keeper.old) (P.gives keeper.old) (P.faults keeper.old)) (seen (P.rows keeper.new) (P.gives keeper.new) (P.faults keeper.new))) }
        ensures later { P.faults keeper.old ≤ P.faults keeper.new }
        ensures here { is_here self.new.agents ≡ is_here self.old.agents }
        ensures steady { IsSteady self.new }
    {
        let at = self.place_of_owner(name);
        let moved = self.next_move(name, to)?;
        let mut steps = room_for_step(self.alloc)?;
        self.book.reserve(1)?;
        let mut room = self.outbox.preparing();
        let step = self.agents[at].give(&moved, self.turn, &mut self.book, keeper, &mut room)?;
        let ready = room.ready();
        self.outbox.set(ready);
        self.registry.set(name, to, moved.epoch);
        steps.push_reserved(step);
        Ok(self.follow(steps))
    }
}
