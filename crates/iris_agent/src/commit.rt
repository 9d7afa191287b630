//! Evaluations that come back.
ghost use Rattle.std.specs.Prelude.{◌≡◌, ◌≢◌, None, IfOk, IfErr, OnOk, OnErr, MatchBool, option_copied};
ghost use Rattle.std.specs.Option.{ForSome};
ghost use Rattle.iris_need.specs.Needs.{missing_of};
ghost use Rattle.iris_gather.specs.declared.entries.OpenGather.{OpenGather};
ghost use Rattle.iris_gather.specs.OpenGathers.{gather_at};
ghost use Rattle.iris_gather.specs.Verdicts.{IsVerdict};
ghost use Rattle.iris_agent.specs.Commits.{IsLentFor, MayCommit, IsValidated, Refuses};
ghost use Rattle.iris_agent.specs.Decisions.{laid_view, AreFreeAsks, AreRouted, HasDecided};

use crate::agent::Agent;
use crate::equality::{same_query, same_start};
use crate::job::Job;
use crate::room::Room;
use crate::step::Step;
use crate::turn::Turn;
use iris_gather::{Basis, Evaluated, Gather, Verdict};
use iris_route::Registry;
use iris_tree::{Mem, Memory, Name};
use thiserror::Error;

/// A job that is done: what was decided over its view.
#[derive(Debug, Drop)]
pub struct Done {
    pub job: Job,
    pub verdict: Verdict,
}

/// Why an evaluation was not taken.
#[derive(Debug, Drop, Error)]
pub enum CommitError {
    /// What it rests on is no more as it was, at first at the node of that name; or the gather is not lent
    /// for it, and that is the name of its start. The gather is due again, if it was lent.
    #[error("what the evaluation rests on has changed")]
    Moved { name: Name },
    /// There was no memory. All is as before, and room may have been made.
    #[error("out of memory")]
    Memory,
}

impl From<Memory> for CommitError {
    ghost use Rattle.std.specs.Prelude.{◌≡◌};
    ghost use Rattle.iris_agent.specs.declared.commit.CommitError.TheVariants.{Memory};

    ghost from_gives = { λ _ e. e ≡ Memory };

    fn from(_error: Memory) -> CommitError {
        CommitError::Memory
    }
}

impl Agent {
    // The gather that is lent for a job, if it is.
    fn lent_for(&self, job: &Job) -> Option<&Gather>
        ensures none { result ≡ None → (one : OpenGather) → IsLentFor self.now job.now one → ⊥ }
        ensures some { ForSome (option_copied result) (λ gather. (one : OpenGather) × IsLentFor self.now job.now one × (one.gather ≡ gather)) }
    {
        let gather = self.gathers.get(job.gather)?;
        let lent = self.gathers.is_lent(job.gather) && !gather.is_waiting();
        if lent
            && same_query(gather.query(), &job.query)
            && same_start(gather.start(), &job.start)
        {
            Some(gather)
        } else {
            None
        }
    }

    // What a verdict rests on now, or the first name at which it does not stand any more.
    fn validate(&self, done: &Done, now: u64) -> Mem<Result<Basis, Name>>
        requires { IsVerdict done.now.job.query done.now.job.start done.now.job.view done.now.verdict }
        ensures { IfOk result (IsValidated self.now now done.now) }
    {
        let job = &done.job;
        let Some(gather) = self.lent_for(job) else {
            return Ok(Err(job.start.name.copy()?));
        };
        let evaluated = Evaluated {
            query: &job.query,
            start: &job.start,
            view: &job.view,
            verdict: &done.verdict,
        };
        let floor = gather.floor();
        Basis::validate(
            self.alloc,
            &evaluated,
            floor,
            gather.view(),
            self.fragment(),
            now,
        )
    }

    /// Takes an evaluation that was made elsewhere, of a job of this agent: its gather decides by it as it
    /// would by an evaluation now. It does so only where the gather is still lent for the job, what the
    /// verdict rests on is had now with the same ids, versions and values, and of what it lacked no more is
    /// had. So nothing is evaluated, and it costs what the verdict looks at.
    pub fn commit<R: Room>(
        &mut self,
        done: &Done,
        turn: &mut Turn,
        registry: &Registry,
        room: &mut R,
    ) -> Result<Vec<Step>, CommitError>
        requires verdict { IsVerdict done.now.job.query done.now.job.start done.now.job.view done.now.verdict }
        requires fresh { AreFreeAsks self.old turn.old.next_ask }
        requires routed { ForSome (gather_at self.old.gathers done.now.job.gather) (λ one. AreRouted registry.now (missing_of one.gather.query one.gather.start (laid_view self.old turn.old.now one.gather))) }
        ensures local { OnOk result (MayCommit self.old turn.old.now done.now) }
        ensures decided { IfOk result (λ made. HasDecided registry.now self.old self.new turn.old turn.new done.now.job.gather made.items) }
        ensures room { IfOk result (λ made. R.has_room room.old room.new made.items) }
        ensures err { IfErr result (Refuses self.old self.new turn.old.now done.now) }
        ensures turn { OnErr result (turn.new ≡ turn.old) }
    {
        let number = done.job.gather;
        match self.validate(done, turn.now)? {
            Ok(basis) => Ok(self.judge(number, basis, turn, registry, room)?),
            Err(name) => {
                self.take_back(number);
                Err(CommitError::Moved { name })
            }
        }
    }
}
