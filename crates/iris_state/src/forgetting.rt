//! What a city forgets.
ghost use Rattle.std.specs.Prelude.{◌≡◌, ◌+◌, length, MatchBool};
ghost use Rattle.std.specs.List.{AllZip};
ghost use Rattle.iris_state.specs.Agents.{is_here};
ghost use Rattle.iris_state.specs.City.{IsSteady};
ghost use Rattle.iris_state.specs.Events.{IsNamed, IsUnnamed, HasForgottenAsks, HasForgotten};
ghost use Rattle.iris_state.specs.Whole.{world_of};

use crate::state::State;
use iris_agent::Agent;

// Whether one of these agents names that ask.
fn is_named(agents: &[Agent], ask: u64) -> bool
    ensures { MatchBool result (IsNamed agents.now ask) (IsUnnamed agents.now ask) }
{
    let mut at = 0;
    while at < agents.len() {
        if agents[at].names(ask) {
            return true;
        }
        at += 1;
    }
    false
}

// Each agent forgets the asks that no agent names. The one that stands first does and goes to the end, so that after
// a round each stands where it stood. It takes no memory.
fn forget_asks(agents: &mut Vec<Agent>)
    ensures { AllZip (HasForgottenAsks agents.old.items) agents.old.items agents.new.items }
{
    let mut left = agents.len();
    while 0 < left {
        let mut first = agents.remove(0);
        let others = agents.as_slice();
        first.forget(|ask| is_named(others, ask));
        agents.push_reserved(first);
        left -= 1;
    }
}

impl State {
    // How many asks were made.
    fn asks_made(&self) -> u64
        ensures { result ≡ self.now.turn.next_ask }
    {
        self.turn.next_ask
    }

    /// Forgets what nothing needs any more, and answers how many posts these were: the posts that were delivered,
    /// the asks that agents met and that none names any more, and the answers in the book. It takes no memory,
    /// and time for each kept post and for each ask at each agent.
    pub fn forget(&mut self) -> u64
        requires steady { IsSteady self.old }
        ensures forgot { HasForgotten self.old.agents (world_of self.old) (world_of self.new) }
        ensures dropped { result + length self.new.outbox.posts.kept ≡ length self.old.outbox.posts.kept }
        ensures here { is_here self.new.agents ≡ is_here self.old.agents }
        ensures steady { IsSteady self.new }
    {
        // The numbers of asks are the machine's: a step of proofs alone.
        self.asks_made();
        forget_asks(&mut self.agents);
        self.book.drop_answers();
        self.outbox.forget()
    }
}
