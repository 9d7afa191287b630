//! In a city all that is owned, sent and waited for stays among its agents.
ghost use Rattle.std.specs.Prelude.{◌≡◌, ℕ, Bool, true, List, Option, Some, IsSome};
ghost use Rattle.iris_base.specs.declared.name.Label.{Label};
ghost use Rattle.iris_tree.specs.declared.change.Change.{Change};
ghost use Rattle.iris_xpath.specs.Syntax.{Syntax};
ghost use Rattle.iris_route.specs.Titles.{title_at};
ghost use Rattle.iris_cache.specs.Recency.{Cache};
ghost use Rattle.iris_gather.specs.declared.basis.Basis.{Basis};
ghost use Rattle.iris_gather.specs.declared.entries.OpenGather.{OpenGather};
ghost use Rattle.iris_gather.specs.Laid.{laid};
ghost use Rattle.iris_agent.specs.Decisions.{IsBasis};
ghost use Rattle.iris_protocol.specs.Table.{AgentId};
ghost use Rattle.iris_runs.specs.Alike.{HaveOwnIds};
ghost use Rattle.iris_runs.specs.Among.{AreOwnedAmong, AreAmong};
ghost use Rattle.iris_runs.specs.Entered.{KeptUpdates};
ghost use Rattle.iris_runs.specs.Good.{Past, IsGood};
ghost use Rattle.iris_runs.specs.Happenings.{query_posted, update_posted, delivered, interrupted, decided, lent_there, given, evicted_at, advanced, forgotten};
ghost use Rattle.iris_runs.specs.Starts.{IsStart};
ghost use Rattle.iris_runs.specs.Worlds.{World};

/// `here` tells which agents there are. Where these own all nodes as a city starts, and from then on only
/// these decide over gathers and are given nodes, nothing is ever sent to another, whatever happens: each kept
/// post is for one of these. This call does nothing.
pub fn cities_keep_their_agents()
    ensures begun { (here : AgentId → Bool) (rows : KeptUpdates) (w : World)
        → AreOwnedAmong here w.registry
        → IsStart rows w
        → AreAmong here w }
    ensures query { (here : AgentId → Bool) (w : World) (asked : Syntax) (name : List Label) (floor : ℕ)
        → IsSome (title_at w.registry name)
        → AreAmong here w
        → AreAmong here (query_posted w asked name floor) }
    ensures update { (here : AgentId → Bool) (w : World) (name : List Label) (number : ℕ) (changes : List Change)
        → IsSome (title_at w.registry name)
        → AreAmong here w
        → AreAmong here (update_posted w name number changes) }
    ensures arrival { (here : AgentId → Bool) (w : World) (serving kept : Bool) (waiting : Option ℕ) (k : ℕ)
        → HaveOwnIds w
        → AreAmong here w
        → AreAmong here (delivered w serving kept waiting k (w.post k)) }
    ensures interrupted { (here : AgentId → Bool) (w : World) (a : AgentId) (cache : Cache) → AreAmong here w → AreAmong here (interrupted w a cache) }
    ensures decision { (here : AgentId → Bool) (w : World) (past : Past) (a : AgentId) (number : ℕ) (one : OpenGather) (basis : Basis)
        → here a ≡ true
        → (w.agent a).gather number ≡ Some one
        → IsBasis one.gather.query one.gather.start (laid (w.agent a).cache.contents one.gather.floor w.turn.now one.gather.view) basis
        → IsGood w past
        → AreAmong here w
        → AreAmong here (decided w a number basis (Some one)) }
    ensures lent { (here : AgentId → Bool) (w : World) (a : AgentId) (number : ℕ) (lent : Bool) → AreAmong here w → AreAmong here (lent_there w a number lent) }
    ensures given { (here : AgentId → Bool) (w : World) (name : List Label) (to : AgentId) → here to ≡ true → AreAmong here w → AreAmong here (given w name to) }
    ensures evicted { (here : AgentId → Bool) (w : World) (a : AgentId) (name : List Label) → AreAmong here w → AreAmong here (evicted_at w a name) }
    ensures advanced { (here : AgentId → Bool) (w : World) (moment : ℕ) → AreAmong here w → AreAmong here (advanced w moment) }
    ensures forgotten { (here : AgentId → Bool) (w : World) (stays : AgentId → ℕ → Bool) → AreAmong here w → AreAmong here (forgotten w stays) }
{}
