//! The agents of a city by their ids.
ghost use Rattle.std.specs.Prelude.{◌≡◌, ◌<◌, length, IfSome};
ghost use Rattle.iris_state.specs.Agents.{place_in};

use iris_agent::Agent;
use iris_tree::AgentId;

// The place of the agent of that id, if there is one: the first that has it.
pub(crate) fn place_of(agents: &[Agent], id: AgentId) -> Option<usize>
    ensures place { result ≡ place_in id agents.now }
    ensures within { IfSome result (λ at. at < length agents.now) }
{
    let mut at = 0;
    while at < agents.len() {
        if id == agents[at].id() {
            return Some(at);
        }
        at += 1;
    }
    None
}
