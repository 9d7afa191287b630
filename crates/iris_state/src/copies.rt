//! Copies that agents hold.
ghost use Rattle.std.specs.Prelude.{◌≡◌, true, OnOk, OnErr};
ghost use Rattle.iris_fragment.specs.Changes.{evict_answer, has_child};
ghost use Rattle.iris_fragment.specs.Contents.{status};
ghost use Rattle.iris_runs.specs.Happenings.{evicted_at};
ghost use Rattle.iris_state.specs.Agents.{is_here};
ghost use Rattle.iris_state.specs.City.{IsSteady};
ghost use Rattle.iris_state.specs.Whole.{world_of};

use crate::agents::place_of;
use crate::state::State;
use iris_fragment::{EvictError, Status};
use iris_tree::{AgentId, Name};

impl State {
    /// The agent of that id evicts its copy of a node before the copy's turn comes; the answer is the status
    /// that the node has then. A node that the agent owns, or of which it holds no copy, is refused. It takes
    /// no memory.
    pub fn evict(&mut self, id: AgentId, name: &Name) -> Result<Status, EvictError>
        requires steady { IsSteady self.old }
        requires here { is_here self.old.agents id ≡ true }
        ensures answer { result ≡ evict_answer (status ((world_of self.old).agent id).cache.contents name.now) (has_child ((world_of self.old).agent id).cache.contents.nodes name.now) }
        ensures city { OnOk result (world_of self.new ≡ evicted_at (world_of self.old) id name.now) }
        ensures err { OnErr result (world_of self.new ≡ world_of self.old) }
        ensures here { is_here self.new.agents ≡ is_here self.old.agents }
        ensures steady { IsSteady self.new }
    {
        let Some(at) = place_of(&self.agents, id) else {
            unreachable!();
        };
        self.agents[at].evict(name)
    }
}
