//! Requests of clients.
ghost use Rattle.std.specs.Prelude.{◌≡◌, ◌≤◌, suc, [], ◌∷◌, IsSome, IfOk, OnOk, OnErr};
ghost use Rattle.iris_route.specs.Titles.{title_at};
ghost use Rattle.iris_outbox.specs.Lines.{post_line};
ghost use Rattle.iris_outbox.specs.Outbox.{IsReadyFor};
ghost use Rattle.iris_agent.specs.declared.step.Step.TheVariants as steps;
ghost use Rattle.iris_migrate.specs.declared.message.Message.TheVariants as messages;
ghost use Rattle.iris_runs.specs.Happenings.{query_posted, update_posted, counted};
ghost use Rattle.iris_runs.specs.Worlds.{owner_of, epoch_of};
ghost use Rattle.iris_state.specs.City.{IsSteady};
ghost use Rattle.iris_state.specs.Whole.{world_of};

use crate::state::State;
use iris_agent::Step;
use iris_json::Out;
use iris_migrate::Message;
use iris_tree::{AgentId, Change, Mem, Name, Sequence};
use iris_xpath::Query;
use std::alloc::{AllocError, AllocFailed};

impl State {
    // The step that posts a message, with room for it.
    fn prepare_post(&mut self, to: AgentId, message: Message) -> Mem<Vec<Step>>
        ensures steps { IfOk result (λ made. made.items ≡ steps.Post to message ∷ []) }
        ensures ready { IfOk result (λ made. IsReadyFor self.new.outbox made.items) }
        ensures city { world_of self.new ≡ world_of self.old }
        ensures made { self.new.outbox.posts.made ≡ self.old.outbox.posts.made }
        ensures rest { self.new ≡ record self.old { outbox = self.new.outbox } }
    {
        let mut steps = Vec::new(self.alloc);
        steps.push(Step::Post { to, message })?;
        self.outbox.prepare(&steps)?;
        Ok(steps)
    }

    /// Posts a client's query to the owner of its route, the node of that name, and returns the line of the
    /// post. The request is open from then on. Where there is no memory the city is as before.
    pub fn post_query(&mut self, query: Query, name: &Name, floor: u64) -> Mem<Vec<Out>>
        requires steady { IsSteady self.old }
        requires node { IsSome (title_at self.old.registry name.now) }
        requires floor { floor ≤ self.old.turn.now }
        ensures city { OnOk result (world_of self.new ≡ query_posted (world_of self.old) query name.now floor) }
        ensures line { IfOk result (λ lines. lines.items ≡ post_line self.old.outbox.posts.made (owner_of self.old.registry name.now) (messages.Query self.old.requests.made query name.now (epoch_of self.old.registry name.now) floor) ∷ []) }
        ensures err { OnErr result (world_of self.new ≡ world_of self.old) }
        ensures agents { self.new.agents ≡ self.old.agents }
        ensures steady { IsSteady self.new }
    {
        let Some(title) = self.registry.owner(name) else {
            unreachable!();
        };
        let message = Message::Query {
            request: self.requests.made(),
            query,
            name: name.copy()?,
            epoch: title.1,
            floor,
        };
        let steps = self.prepare_post(title.0, message)?;
        self.requests.add_query()?;
        Ok(self.follow(steps))
    }

    /// Posts a client's update to the owner of its node, and returns the line of the post. The request is open
    /// from then on. Where there is no memory the city is as before.
    pub fn post_update(
        &mut self,
        name: &Name,
        number: u64,
        changes: Sequence<Change>,
    ) -> Mem<Vec<Out>>
        requires steady { IsSteady self.old }
        requires node { IsSome (title_at self.old.registry name.now) }
        ensures city { OnOk result (world_of self.new ≡ update_posted (world_of self.old) name.now number changes) }
        ensures line { IfOk result (λ lines. lines.items ≡ post_line self.old.outbox.posts.made (owner_of self.old.registry name.now) (messages.Update self.old.requests.made name.now (epoch_of self.old.registry name.now) number changes) ∷ []) }
        ensures err { OnErr result (world_of self.new ≡ world_of self.old) }
        ensures agents { self.new.agents ≡ self.old.agents }
        ensures steady { IsSteady self.new }
    {
        let Some(title) = self.registry.owner(name) else {
            unreachable!();
        };
        let message = Message::Update {
            request: self.requests.made(),
            name: name.copy()?,
            epoch: title.1,
            no: number,
            changes,
        };
        let steps = self.prepare_post(title.0, message)?;
        self.requests.add_update()?;
        Ok(self.follow(steps))
    }

    /// Counts a request that has its outcome at once, and returns its number. Where there is no memory the
    /// city is as before.
    pub fn count_request(&mut self) -> Mem<u64>
        requires steady { IsSteady self.old }
        ensures number { IfOk result (λ number. number ≡ self.old.requests.made) }
        ensures city { OnOk result (world_of self.new ≡ counted (world_of self.old)) }
        ensures err { OnErr result (self.new ≡ self.old) }
        ensures agents { self.new.agents ≡ self.old.agents }
        ensures steady { IsSteady self.new }
    {
        let number = self.requests.made();
        self.requests.count()?;
        Ok(number)
    }
}
