//! What happens in a city is what the protocol says of it.
ghost use Rattle.std.specs.Prelude.{◌≡◌, ℕ, Bool, true, false, List, map, Option, Some, None, IsSome, IfSome};
ghost use Rattle.iris_base.specs.declared.name.Label.{Label};
ghost use Rattle.iris_tree.specs.declared.change.Change.{Change};
ghost use Rattle.iris_xpath.specs.Syntax.{Syntax};
ghost use Rattle.iris_route.specs.Titles.{title_at};
ghost use Rattle.iris_gather.specs.declared.basis.Basis.{Basis};
ghost use Rattle.iris_gather.specs.declared.entries.OpenGather.{OpenGather};
ghost use Rattle.iris_gather.specs.OpenGathers.{is_due, is_ready};
ghost use Rattle.iris_gather.specs.Verdicts.{asks_of};
ghost use Rattle.iris_protocol.specs.Table.{AgentId, agents};
ghost use Rattle.iris_protocol.specs.World as model;
ghost use Rattle.iris_protocol.specs.Program.{program_happens, TellsEvent, Known, ProgramAllows};
ghost use Rattle.iris_runs.specs.Letters.{need_of};
ghost use Rattle.iris_runs.specs.Worlds.{World, owner_of, program_of};
ghost use Rattle.iris_runs.specs.Happenings.{query_posted, update_posted, counted, delivered, decided, lent_there, given, forgotten, evicted_at, advanced};
ghost use Rattle.iris_runs.specs.Alike.{AsksForSome, MayBeHandled, HaveOwnIds, arrival_at};

/// What happens in a city is what the protocol says of it, event by event: requests, arrivals, decisions of
/// gathers, jobs that are given out, come back and are committed, moves, and what is forgotten. Of evicted
/// copies and of time the protocol sees nothing; for a request that has its outcome at once it has no event,
/// and `cities_stay_known` speaks of it. This call does nothing.
pub fn cities_run_by_the_protocol()
    ensures query { (w : World) (accepted : List model.Entry) (asked : Syntax) (name : List Label) (floor : ℕ)
        → program_of (query_posted w asked name floor) accepted ≡ program_happens (program_of w accepted) false (model.Query name) }
    ensures update { (w : World) (accepted : List model.Entry) (name : List Label) (number : ℕ) (changes : List Change)
        → program_of (update_posted w name number changes) accepted ≡ program_happens (program_of w accepted) false (model.Update name number) }
    ensures arrival { (w : World) (accepted : List model.Entry) (serving kept : Bool) (waiting : Option ℕ) (k : ℕ)
        → HaveOwnIds w
        → IfSome (w.post k) (λ sent. MayBeHandled (w.agent sent.to) waiting sent.message)
        → let told = program_happens (program_of w accepted) serving (arrival_at w kept k) in
        program_of (delivered w serving kept waiting k (w.post k)) told.book ≡ told }
    ensures decision { (w : World) (accepted : List model.Entry) (a : AgentId) (number : ℕ) (one : OpenGather) (basis : Basis)
        → HaveOwnIds w
        → AsksForSome basis.verdict
        → (w.agent a).gather number ≡ Some one
        → is_due (Some one) ≡ true
        → program_of (decided w a number basis (Some one)) accepted ≡ program_happens (program_of w accepted) false (model.Decide a number (map need_of (asks_of basis.verdict))) }
    ensures commit { (w : World) (accepted : List model.Entry) (a : AgentId) (number : ℕ) (one : OpenGather) (basis : Basis)
        → HaveOwnIds w
        → AsksForSome basis.verdict
        → (w.agent a).gather number ≡ Some one
        → is_ready (Some one) ≡ true
        → one.lent ≡ true
        → program_of (decided w a number basis (Some one)) accepted ≡ program_happens (program_of w accepted) false (model.Commit a number (Some (map need_of (asks_of basis.verdict)))) }
    ensures lent { (w : World) (accepted : List model.Entry) (a : AgentId) (number : ℕ) (one : OpenGather)
        → (w.agent a).gather number ≡ Some one
        → is_due (Some one) ≡ true
        → program_of (lent_there w a number true) accepted ≡ program_happens (program_of w accepted) false (model.Lend a number) }
    ensures back { (w : World) (accepted : List model.Entry) (a : AgentId) (number : ℕ) (one : OpenGather)
        → (w.agent a).gather number ≡ Some one
        → one.lent ≡ true
        → program_of (lent_there w a number false) accepted ≡ program_happens (program_of w accepted) false (model.GiveBack a number) }
    ensures outdated { (w : World) (accepted : List model.Entry) (a : AgentId) (number : ℕ) (one : OpenGather)
        → (w.agent a).gather number ≡ Some one
        → one.lent ≡ true
        → program_of (lent_there w a number false) accepted ≡ program_happens (program_of w accepted) false (model.Commit a number None) }
    ensures given { (w : World) (accepted : List model.Entry) (name : List Label) (to : AgentId)
        → IsSome (title_at w.registry name)
        → agents.same to (owner_of w.registry name) ≡ false
        → IsSome ((w.agent (owner_of w.registry name)).seat name).last
        → program_of (given w name to) accepted ≡ program_happens (program_of w accepted) false (model.Give name to) }
    ensures forgotten { (w : World) (accepted : List model.Entry) (stays : AgentId → ℕ → Bool)
        → program_of (forgotten w stays) accepted ≡ program_happens (program_of w accepted) false (model.Forget stays) }
    ensures evicted { (w : World) (accepted : List model.Entry) (a : AgentId) (name : List Label)
        → program_of (evicted_at w a name) accepted ≡ program_of w accepted }
    ensures advanced { (w : World) (accepted : List model.Entry) (moment : ℕ)
        → program_of (advanced w moment) accepted ≡ program_of w accepted }
{}

/// So what is known of a city, that some good history of the protocol leads to what the protocol sees of it,
/// is known after each event, where the event is allowed and the test before an arrival told the truth. This
/// call does nothing.
pub fn cities_stay_known()
    ensures query { (w : World) (accepted : List model.Entry) (asked : Syntax) (name : List Label) (floor : ℕ)
        → Known (program_of w accepted)
        → Known (program_of (query_posted w asked name floor) accepted) }
    ensures update { (w : World) (accepted : List model.Entry) (name : List Label) (number : ℕ) (changes : List Change)
        → Known (program_of w accepted)
        → Known (program_of (update_posted w name number changes) accepted) }
    ensures counted { (w : World) (accepted : List model.Entry)
        → Known (program_of w accepted)
        → Known (program_of (counted w) accepted) }
    ensures arrival { (w : World) (accepted : List model.Entry) (serving kept : Bool) (waiting : Option ℕ) (k : ℕ)
        → Known (program_of w accepted)
        → TellsEvent (program_of w accepted) serving (arrival_at w kept k)
        → HaveOwnIds w
        → IfSome (w.post k) (λ sent. MayBeHandled (w.agent sent.to) waiting sent.message)
        → let told = program_happens (program_of w accepted) serving (arrival_at w kept k) in
        Known (program_of (delivered w serving kept waiting k (w.post k)) told.book) }
    ensures decision { (w : World) (accepted : List model.Entry) (a : AgentId) (number : ℕ) (one : OpenGather) (basis : Basis)
        → Known (program_of w accepted)
        → ProgramAllows (program_of w accepted) (model.Decide a number (map need_of (asks_of basis.verdict)))
        → HaveOwnIds w
        → AsksForSome basis.verdict
        → (w.agent a).gather number ≡ Some one
        → is_due (Some one) ≡ true
        → Known (program_of (decided w a number basis (Some one)) accepted) }
    ensures commit { (w : World) (accepted : List model.Entry) (a : AgentId) (number : ℕ) (one : OpenGather) (basis : Basis)
        → Known (program_of w accepted)
        → ProgramAllows (program_of w accepted) (model.Commit a number (Some (map need_of (asks_of basis.verdict))))
        → HaveOwnIds w
        → AsksForSome basis.verdict
        → (w.agent a).gather number ≡ Some one
        → is_ready (Some one) ≡ true
        → one.lent ≡ true
        → Known (program_of (decided w a number basis (Some one)) accepted) }
    ensures lent { (w : World) (accepted : List model.Entry) (a : AgentId) (number : ℕ) (one : OpenGather)
        → Known (program_of w accepted)
        → (w.agent a).gather number ≡ Some one
        → is_due (Some one) ≡ true
        → Known (program_of (lent_there w a number true) accepted) }
    ensures back { (w : World) (accepted : List model.Entry) (a : AgentId) (number : ℕ) (one : OpenGather)
        → Known (program_of w accepted)
        → (w.agent a).gather number ≡ Some one
        → one.lent ≡ true
        → Known (program_of (lent_there w a number false) accepted) }
    ensures given { (w : World) (accepted : List model.Entry) (name : List Label) (to : AgentId)
        → Known (program_of w accepted)
        → IsSome (title_at w.registry name)
        → agents.same to (owner_of w.registry name) ≡ false
        → IsSome ((w.agent (owner_of w.registry name)).seat name).last
        → Known (program_of (given w name to) accepted) }
    ensures forgotten { (w : World) (accepted : List model.Entry) (stays : AgentId → ℕ → Bool)
        → Known (program_of w accepted)
        → ProgramAllows (program_of w accepted) (model.Forget stays)
        → Known (program_of (forgotten w stays) accepted) }
    ensures evicted { (w : World) (accepted : List model.Entry) (a : AgentId) (name : List Label)
        → Known (program_of w accepted)
        → Known (program_of (evicted_at w a name) accepted) }
    ensures advanced { (w : World) (accepted : List model.Entry) (moment : ℕ)
        → Known (program_of w accepted)
        → Known (program_of (advanced w moment) accepted) }
{}
