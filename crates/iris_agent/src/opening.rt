//! The gathers that messages open.
ghost use Rattle.std.specs.Prelude.{◌≡◌, OnOk, OnErr, false};
ghost use Rattle.iris_gather.specs.OpenGathers.{NoGather, serves_request, serves_ask};
ghost use Rattle.iris_agent.specs.Events.{AreFree};
ghost use Rattle.iris_agent.specs.Handled.{opened_gather};
ghost use Rattle.iris_agent.specs.Opened.{client_gather, ask_gather};
ghost use Rattle.iris_agent.specs.Tables.{is_among, tables_of, with_asked};

use crate::agent::Agent;
use crate::turn::Turn;
use iris_gather::{Gather, Parent};
use iris_need::Start;
use iris_tree::{AgentId, Mem};
use iris_xpath::Query;

impl Agent {
    // Opens the gather for a client's query.
    pub(crate) fn open_client(
        &mut self,
        request: u64,
        query: &Query,
        floor: u64,
        turn: &mut Turn,
    ) -> Mem<()>
        requires free { AreFree self.old turn.old.next_gather }
        requires alone { NoGather (serves_request request) self.old.gathers }
        ensures tables { OnOk result (tables_of self.new ≡ (opened_gather (tables_of self.old) turn.old (client_gather (tables_of self.old) turn.old request query.now floor)).tables) }
        ensures turn { OnOk result (turn.new ≡ (opened_gather (tables_of self.old) turn.old (client_gather (tables_of self.old) turn.old request query.now floor)).turn) }
        ensures err { OnErr result (self.new ≡ self.old) }
        ensures same { OnErr result (turn.new ≡ turn.old) }
    {
        let after = turn.with_gather()?;
        let start = Start::from_document(self.alloc, self.top)?;
        let parent = Parent::Client { request };
        let gather = Gather::open(
            self.alloc,
            turn.next_gather,
            query.copy()?,
            floor,
            start,
            None,
            parent,
        )?;
        self.open(gather)?;
        *turn = after;
        Ok(())
    }

    // Opens the gather for an agent's ask, which has the asked piece at once.
    pub(crate) fn open_ask(
        &mut self,
        ask: u64,
        from: AgentId,
        query: &Query,
        start: &Start,
        floor: u64,
        turn: &mut Turn,
    ) -> Mem<()>
        requires free { AreFree self.old turn.old.next_gather }
        requires alone { NoGather (serves_ask ask) self.old.gathers }
        ensures tables { OnOk result (tables_of self.new ≡ (opened_gather (tables_of self.old) turn.old (ask_gather (tables_of self.old) turn.old ask from query.now start.now floor)).tables) }
        ensures turn { OnOk result (turn.new ≡ (opened_gather (tables_of self.old) turn.old (ask_gather (tables_of self.old) turn.old ask from query.now start.now floor)).turn) }
        ensures err { OnErr result (self.new ≡ self.old) }
        ensures same { OnErr result (turn.new ≡ turn.old) }
    {
        let after = turn.with_gather()?;
        let first = self.fragment().piece(&start.name, start.level, turn.now)?;
        let parent = Parent::Ask { ask, agent: from };
        let gather = Gather::open(
            self.alloc,
            turn.next_gather,
            query.copy()?,
            floor,
            start.copy()?,
            first,
            parent,
        )?;
        self.open(gather)?;
        *turn = after;
        Ok(())
    }
}
