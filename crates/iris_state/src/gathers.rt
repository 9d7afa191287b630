//! Gathers that go on.
ghost use Rattle.std.specs.Prelude.{◌≡◌, true, false, Some, IfSome, IfOk, IfErr, OnOk, OnErr};
ghost use Rattle.iris_gather.specs.OpenGathers.{is_due};
ghost use Rattle.iris_gather.specs.Verdicts.{IsVerdict};
ghost use Rattle.iris_agent.specs.Commits.{MayCommit};
ghost use Rattle.iris_runs.specs.Happenings.{lent_there};
ghost use Rattle.iris_state.specs.Agents.{held_by, is_here};
ghost use Rattle.iris_state.specs.City.{IsSteady};
ghost use Rattle.iris_state.specs.Events.{HasDecidedAt, HasRefused, job_at};
ghost use Rattle.iris_state.specs.Whole.{world_of};

use crate::agents::place_of;
use crate::state::State;
use iris_agent::{CommitError, Done, Job};
use iris_json::Out;
use iris_tree::{AgentId, Mem};
use std::alloc::AllocError;

impl State {
    /// The open gather of that number at that agent, which is due, decides: it ends with an answer or a reply,
    /// or it asks for what is missing. The lines are those of what it posts, and then that of the answer. Where
    /// there is no memory the city is as before.
    pub fn decide(&mut self, id: AgentId, gather: u64) -> Mem<Vec<Out>>
        requires steady { IsSteady self.old }
        requires due { is_due (((world_of self.old).agent id).gather gather) ≡ true }
        ensures decided { IfOk result (λ lines. HasDecidedAt (world_of self.old) id gather (world_of self.new) lines.items) }
        ensures err { OnErr result (world_of self.new ≡ world_of self.old) }
        ensures here { is_here self.new.agents ≡ is_here self.old.agents }
        ensures steady { IsSteady self.new }
    {
        let Some(at) = place_of(&self.agents, id) else {
            unreachable!();
        };
        self.book.reserve(1)?;
        let mut room = self.outbox.preparing();
        let steps = self.agents[at].decide(gather, &mut self.turn, &self.registry, &mut room)?;
        let ready = room.ready();
        self.outbox.set(ready);
        Ok(self.follow(steps))
    }

    /// Lends the open gather of that number at that agent, which is due: it decides nothing until it is given
    /// back. Where there is no memory the city is as before.
    pub fn job(&mut self, id: AgentId, gather: u64) -> Mem<Job>
        requires steady { IsSteady self.old }
        requires due { is_due (((world_of self.old).agent id).gather gather) ≡ true }
        ensures job { IfOk result (λ job. job_at (world_of self.old) id gather ≡ Some job) }
        ensures city { OnOk result (world_of self.new ≡ lent_there (world_of self.old) id gather true) }
        ensures err { OnErr result (world_of self.new ≡ world_of self.old) }
        ensures here { is_here self.new.agents ≡ is_here self.old.agents }
        ensures steady { IsSteady self.new }
    {
        let Some(at) = place_of(&self.agents, id) else {
            unreachable!();
        };
        self.agents[at].job(gather, self.turn.now)
    }

    /// Takes an evaluation of a job that this agent lent: its gather decides by it, as `decide` would by an
    /// evaluation now. It does so only where the gather is still lent for the job and what the verdict rests on
    /// is had now as it was in the job's view; else the gather is due again. Nothing is evaluated.
    pub fn commit(&mut self, id: AgentId, done: &Done) -> Result<Vec<Out>, CommitError>
        requires steady { IsSteady self.old }
        requires here { is_here self.old.agents id ≡ true }
        requires verdict { IsVerdict done.now.job.query done.now.job.start done.now.job.view done.now.verdict }
        ensures local { OnOk result (IfSome (held_by id self.old.agents) (λ h. MayCommit h self.old.turn.now done.now)) }
        ensures decided { IfOk result (λ lines. HasDecidedAt (world_of self.old) id done.now.job.gather (world_of self.new) lines.items) }
        ensures err { IfErr result (HasRefused (world_of self.old) (held_by id self.old.agents) id done.now (world_of self.new)) }
        ensures here { is_here self.new.agents ≡ is_here self.old.agents }
        ensures steady { IsSteady self.new }
    {
        let Some(at) = place_of(&self.agents, id) else {
            unreachable!();
        };
        self.book.reserve(1)?;
        let mut room = self.outbox.preparing();
        let steps = self.agents[at].commit(done, &mut self.turn, &self.registry, &mut room)?;
        let ready = room.ready();
        self.outbox.set(ready);
        Ok(self.follow(steps))
    }

    /// The open gather of that number at that agent, if it is lent, is due again; any other stays as it is. It
    /// takes no memory.
    pub fn give_back(&mut self, id: AgentId, gather: u64)
        requires steady { IsSteady self.old }
        requires here { is_here self.old.agents id ≡ true }
        ensures city { world_of self.new ≡ lent_there (world_of self.old) id gather false }
        ensures here { is_here self.new.agents ≡ is_here self.old.agents }
        ensures steady { IsSteady self.new }
    {
        let Some(at) = place_of(&self.agents, id) else {
            unreachable!();
        };
        self.agents[at].give_back(gather);
    }
}
