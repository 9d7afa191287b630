//! What agents hold, gather and send stays right in each event.
ghost use Rattle.std.specs.Prelude.{◌≡◌, ℕ, ◌≤◌, Bool, true, List, [], ◌∷◌, All, Option, Some, IsSome, option_map};
ghost use Rattle.iris_base.specs.declared.name.Label.{Label};
ghost use Rattle.iris_fragment.specs.Changes.{version_at};
ghost use Rattle.iris_route.specs.Titles.{Titles};
ghost use Rattle.iris_book.specs.Book.{with_entry, MayBeEntered};
ghost use Rattle.iris_need.specs.declared.need.Need.{Need};
ghost use Rattle.iris_book.specs.Entering.{updates_by, without_answers};
ghost use Rattle.iris_book.specs.declared.entry.Entry.{Entry};
ghost use Rattle.iris_cache.specs.Recency.{is_complete, evicted_from};
ghost use Rattle.iris_migrate.specs.declared.message.Handover.{Handover as Handed};
ghost use Rattle.iris_migrate.specs.declared.message.Message.{Message};
ghost use Rattle.iris_gather.specs.declared.basis.Basis.{Basis};
ghost use Rattle.iris_gather.specs.declared.entries.OpenGather.{OpenGather};
ghost use Rattle.iris_gather.specs.Gathers.{Gathering, settled};
ghost use Rattle.iris_gather.specs.Laid.{laid};
ghost use Rattle.iris_gather.specs.OpenGathers.{with_lent};
ghost use Rattle.iris_gather.specs.Verdicts.{asks_of};
ghost use Rattle.iris_agent.specs.declared.turn.Turn.{Turn};
ghost use Rattle.iris_agent.specs.declared.give.Move.{Move};
ghost use Rattle.iris_agent.specs.Arrivals.{arrives};
ghost use Rattle.iris_agent.specs.Decisions.{judged, IsBasis};
ghost use Rattle.iris_agent.specs.Gives.{gives, handover_of};
ghost use Rattle.iris_agent.specs.Tables.{Tables, with_cache, with_gather};
ghost use Rattle.iris_copies.specs.Copies.{IsPresent, ComesAt, HoldsCopies, IsElsewhere};
ghost use Rattle.iris_runs.specs.Moments.{Moment, with_entries, IsMessageAt, IsHandoverAt, IsAgentAt, IsStepAt, IsLater, MayCome, BringsNewest};
ghost use Rattle.iris_runs.specs.Asking.{asked_by};

/// As a message arrives at an agent, what it has and what it sends stays right, and what is entered into the
/// book is right. This call does nothing.
pub fn arrivals_keep_copies()
    ensures agent { (m : Moment) (kept : Bool) (waiting : Option ℕ) (t : Tables) (turn : Turn) (message : Message)
        → turn.now ≡ m.now
        → IsPresent m.history m.now
        → IsAgentAt m t
        → IsMessageAt m message
        → MayCome m t waiting message
        → IsAgentAt (with_entries m (arrives kept waiting t turn message).entries) (arrives kept waiting t turn message).tables }
    ensures steps { (m : Moment) (kept : Bool) (waiting : Option ℕ) (t : Tables) (turn : Turn) (message : Message)
        → turn.now ≡ m.now
        → IsPresent m.history m.now
        → IsAgentAt m t
        → IsMessageAt m message
        → MayCome m t waiting message
        → All (IsStepAt (with_entries m (arrives kept waiting t turn message).entries)) (arrives kept waiting t turn message).steps }
    ensures entries { (m : Moment) (kept : Bool) (waiting : Option ℕ) (t : Tables) (turn : Turn) (message : Message)
        → turn.now ≡ m.now
        → IsPresent m.history m.now
        → IsAgentAt m t
        → IsMessageAt m message
        → MayCome m t waiting message
        → All (MayBeEntered m.history) (arrives kept waiting t turn message).entries × All (ComesAt m.now) (arrives kept waiting t turn message).entries }
{}

/// As a gather takes a verdict over its view laid over what its agent holds, what the agent has and sends
/// stays right, and an answer is allowed. This call does nothing.
pub fn decisions_keep_copies()
    ensures agent { (m : Moment) (registry : Titles) (t : Tables) (turn : Turn) (number : ℕ) (one : OpenGather) (basis : Basis)
        → turn.now ≡ m.now
        → turn.next_ask ≡ m.asks
        → IsPresent m.history m.now
        → IsAgentAt m t
        → t.gather number ≡ Some one
        → IsBasis one.gather.query one.gather.start (laid t.cache.contents one.gather.floor turn.now one.gather.view) basis
        → IsAgentAt (asked_by m one.gather (asks_of basis.verdict)) (judged registry t turn number (settled one.gather basis.verdict basis.pieces turn.next_ask) basis.cites basis.verdict).tables }
    ensures steps { (m : Moment) (registry : Titles) (t : Tables) (turn : Turn) (number : ℕ) (one : OpenGather) (basis : Basis)
        → turn.now ≡ m.now
        → turn.next_ask ≡ m.asks
        → IsPresent m.history m.now
        → IsAgentAt m t
        → t.gather number ≡ Some one
        → IsBasis one.gather.query one.gather.start (laid t.cache.contents one.gather.floor turn.now one.gather.view) basis
        → All (IsStepAt (asked_by m one.gather (asks_of basis.verdict))) (judged registry t turn number (settled one.gather basis.verdict basis.pieces turn.next_ask) basis.cites basis.verdict).steps }
{}

/// As an agent gives a node away, what it has and sends stays right, and the handover brings the newest value.
/// This call does nothing.
pub fn moves_keep_copies()
    ensures agent { (m : Moment) (t : Tables) (turn : Turn) (move : Move)
        → turn.now ≡ m.now
        → IsPresent m.history m.now
        → IsAgentAt m t
        → IsSome (version_at t.cache.contents move.name)
        → IsAgentAt (with_entries m (gives t turn move).entries) (gives t turn move).tables }
    ensures handover { (m : Moment) (t : Tables) (turn : Turn) (move : Move)
        → turn.now ≡ m.now
        → IsPresent m.history m.now
        → IsAgentAt m t
        → IsSome (version_at t.cache.contents move.name)
        → IsHandoverAt m (handover_of t turn move) × BringsNewest m.history (handover_of t turn move) }
{}

/// What an agent has and what a message tells stays right as a city goes on, where what the agent holds are
/// copies still. So it does as an agent evicts a copy, forgets asks, and as a gather is lent or is not any more.
/// A handover brings the newest value until an update of its node is entered. This call does nothing.
pub fn agents_stay_right()
    ensures agent { (m next : Moment) (t : Tables)
        → IsLater m next
        → HoldsCopies next.history next.now t.cache.contents
        → IsAgentAt m t
        → IsAgentAt next t }
    ensures message { (m next : Moment) (message : Message) → IsLater m next → IsMessageAt m message → IsMessageAt next message }
    ensures handover { (m : Moment) (handed : Handed) (entry : Entry)
        → IsHandoverAt m handed
        → updates_by entry handed.name ≡ 0
        → BringsNewest m.history handed
        → BringsNewest (with_entry m.history entry) handed }
    ensures evicted { (m : Moment) (t : Tables) (name : List Label)
        → is_complete t.cache.contents name ≡ true
        → IsAgentAt m t
        → IsAgentAt m (with_cache t (evicted_from t.cache name)) }
    ensures lent { (m : Moment) (t : Tables) (number : ℕ) (lent : Bool)
        → IsAgentAt m t
        → IsAgentAt m (with_gather t number (option_map (with_lent lent) (t.gather number))) }
    ensures asked { (m : Moment) (t : Tables) (asked : ℕ → Bool) → IsAgentAt m t → IsAgentAt m (record t { asked = asked }) }
{}

/// A city goes on in four ways: time passes, an entry comes at the present moment, a gather asks, and answers
/// are forgotten. What agents hold stays copies, but for a node that an agent owns and that an entry updates.
/// This call does nothing.
pub fn moments_go_on()
    ensures time { (m : Moment) (at : ℕ) → m.now ≤ at → IsLater m (record m { now = at }) }
    ensures entry { (m : Moment) (entry : Entry) → ComesAt m.now entry → IsLater m (with_entries m (entry ∷ [])) }
    ensures asked { (m : Moment) (g : Gathering) (needs : List Need) → IsLater m (asked_by m g needs) }
    ensures forgotten { (m : Moment) → IsLater m (record m { history = without_answers m.history }) }
    ensures agent_time { (m : Moment) (at : ℕ) (t : Tables) → m.now ≤ at → IsAgentAt m t → IsAgentAt (record m { now = at }) t }
    ensures agent_entry { (m : Moment) (entry : Entry) (t : Tables)
        → ComesAt m.now entry
        → IsElsewhere t.cache.contents entry
        → IsAgentAt m t
        → IsAgentAt (with_entries m (entry ∷ [])) t }
    ensures agent_asked { (m : Moment) (g : Gathering) (needs : List Need) (t : Tables) → IsAgentAt m t → IsAgentAt (asked_by m g needs) t }
    ensures agent_forgotten { (m : Moment) (t : Tables) → IsAgentAt m t → IsAgentAt (record m { history = without_answers m.history }) t }
{}
