//! One agent's events are those of the protocol.
ghost use Rattle.std.specs.Prelude.{◌≡◌, ℕ, Bool, true, List, [], map, Option, Some, None, option_map};
ghost use Rattle.iris_base.specs.declared.cite.Cite.{Cite};
ghost use Rattle.iris_base.specs.declared.name.Label.{Label};
ghost use Rattle.iris_fragment.specs.declared.piece.Piece.{Piece};
ghost use Rattle.iris_route.specs.Titles.{Titles};
ghost use Rattle.iris_migrate.specs.declared.message.Message.{Message};
ghost use Rattle.iris_gather.specs.declared.entries.OpenGather.{OpenGather};
ghost use Rattle.iris_gather.specs.declared.verdict.Verdict.{Verdict};
ghost use Rattle.iris_gather.specs.Gathers.{settled};
ghost use Rattle.iris_gather.specs.OpenGathers.{with_lent};
ghost use Rattle.iris_gather.specs.Verdicts.{asks_of};
ghost use Rattle.iris_agent.specs.declared.turn.Turn.{Turn};
ghost use Rattle.iris_agent.specs.declared.give.Move.{Move};
ghost use Rattle.iris_agent.specs.Arrivals.{arrives};
ghost use Rattle.iris_agent.specs.Decisions.{judged};
ghost use Rattle.iris_agent.specs.Gives.{gives};
ghost use Rattle.iris_agent.specs.Tables.{Tables, with_gather};
ghost use Rattle.iris_protocol.specs.Agent.{agent_arrives, agent_judged, agent_gather, agent_gives};
ghost use Rattle.iris_runs.specs.Alike.{AsksForSome, MayBeHandled};
ghost use Rattle.iris_runs.specs.Letters.{agent_of, gather_of, need_of, letter_of, is_kept, arrival_of, decision_of};
ghost use Rattle.iris_runs.specs.Worlds.{owner_of, epoch_of};

/// What an agent does as a message arrives is what the protocol says of its letter. This call does nothing.
pub fn agents_arrive_by_the_protocol()
    ensures { (kept : Bool) (waiting : Option ℕ) (t : Tables) (turn : Turn) (message : Message)
        → MayBeHandled t waiting message
        → arrival_of (arrives kept waiting t turn message) ≡ agent_arrives t.id (agent_of t) (is_kept kept t message) turn.next_gather (letter_of message) }
{}

/// What an agent does as a gather takes a verdict is what the protocol says of what is missing. This call
/// does nothing.
pub fn agents_decide_by_the_protocol()
    ensures { (registry : Titles) (t : Tables) (turn : Turn) (number : ℕ) (one : OpenGather) (cites : List Cite) (pieces : List Piece) (verdict : Verdict)
        → AsksForSome verdict
        → one.gather.pending ≡ []
        → decision_of (judged registry t turn number (settled one.gather verdict pieces turn.next_ask) cites verdict)
        ≡ agent_judged (owner_of registry) (epoch_of registry) t.id (agent_of t) turn.next_ask number (gather_of one) (map need_of (asks_of verdict)) }
{}

/// So it is where an agent gives a node away, and where a gather is lent or is not any more. This call does
/// nothing.
pub fn agents_move_by_the_protocol()
    ensures gives { (t : Tables) (turn : Turn) (m : Move)
        → agent_of (gives t turn m).tables ≡ agent_gives (agent_of t) m.name m.to m.epoch }
    ensures lent { (t : Tables) (number : ℕ) (one : Option OpenGather)
        → agent_of (with_gather t number one) ≡ agent_gather (agent_of t) number (option_map gather_of one) }
{}
