//! Evaluations that are made elsewhere.
ghost use Rattle.std.specs.Prelude.{◌≡◌, true, false, Some, IsSome, IfOk, OnOk, OnErr, option_map};
ghost use Rattle.iris_gather.specs.OpenGathers.{gather_at, is_due, with_lent};
ghost use Rattle.iris_agent.specs.Changes.{HasGather};
ghost use Rattle.iris_agent.specs.Jobs.{job_of, with_lent_at};
ghost use Rattle.iris_agent.specs.Tables.{tables_of};

use crate::agent::Agent;
use iris_gather::lay;
use iris_need::{Start, View};
use iris_tree::Mem;
use iris_xpath::Query;

/// The evaluation of a gather that is lent: whoever has it needs nothing of the agent.
#[derive(Debug, Drop)]
pub struct Job {
    /// The number of the gather.
    pub gather: u64,
    pub query: Query,
    pub start: Start,
    /// What the gather had, and all that the agent might use for the gather's floor, as it was lent.
    pub view: View,
}

impl Agent {
    // The evaluation of the gather of that number.
    fn job_of(&self, number: u64, now: u64) -> Mem<Job>
        requires { IsSome (gather_at self.now.gathers number) }
        ensures { IfOk result (λ job. option_map (λ one. job_of self.now now number one.gather) (gather_at self.now.gathers number) ≡ Some job) }
    {
        let Some(gather) = self.gathers.get(number) else {
            unreachable!();
        };
        Ok(Job {
            gather: number,
            query: gather.query().copy()?,
            start: gather.start().copy()?,
            view: lay(gather.view(), self.cache.fragment(), gather.floor(), now)?,
        })
    }

    // The gather of that number, which is due, is lent. It takes no memory.
    fn lend(&mut self, number: u64)
        requires { is_due (gather_at self.old.gathers number) ≡ true }
        ensures { HasGather self.old self.new number (option_map (with_lent true) (gather_at self.old.gathers number)) }
    {
        self.gathers.lend(number);
    }

    // The gather of that number, if there is one, is lent no more. It takes no memory.
    pub(crate) fn take_back(&mut self, number: u64)
        ensures { HasGather self.old self.new number (option_map (with_lent false) (gather_at self.old.gathers number)) }
    {
        self.gathers.give_back(number);
    }

    /// Lends a gather that is due: it decides nothing until it is given back. `now` is the present moment, in
    /// milliseconds, with which owned values are stamped in the view.
    pub fn job(&mut self, gather: u64, now: u64) -> Mem<Job>
        requires due { is_due (gather_at self.old.gathers gather) ≡ true }
        ensures job { IfOk result (λ job. option_map (λ one. job_of self.old now gather one.gather) (gather_at self.old.gathers gather) ≡ Some job) }
        ensures lent { OnOk result (tables_of self.new ≡ with_lent_at self.old gather true) }
        ensures err { OnErr result (self.new ≡ self.old) }
    {
        let job = self.job_of(gather, now)?;
        self.lend(gather);
        Ok(job)
    }

    /// A gather that is lent is due again; any other stays as it is. It takes no memory.
    pub fn give_back(&mut self, gather: u64)
        ensures { tables_of self.new ≡ with_lent_at self.old gather false }
    {
        self.take_back(gather);
    }
}
