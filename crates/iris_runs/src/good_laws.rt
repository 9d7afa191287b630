//! A good city stays one, and what its agents' calls ask for is so.
ghost use Rattle.std.specs.Prelude.{◌≡◌, ℕ, ◌<◌, ◌≤◌, Bool, true, false, List, Option, Some, None, IsSome, IfSome, map};
ghost use Rattle.iris_base.specs.declared.name.Label.{Label};
ghost use Rattle.iris_tree.specs.Universe.{node_at};
ghost use Rattle.iris_tree.specs.declared.change.Change.{Change};
ghost use Rattle.iris_xpath.specs.Syntax.{Syntax};
ghost use Rattle.iris_fragment.specs.Changes.{version_at};
ghost use Rattle.iris_fragment.specs.Contents.{status};
ghost use Rattle.iris_fragment.specs.declared.status.Status.TheVariants.{Owned};
ghost use Rattle.iris_need.specs.Needs.{missing_of};
ghost use Rattle.iris_tree.specs.declared.item.Item.{Item};
ghost use Rattle.iris_need.specs.declared.need.Need.{Need};
ghost use Rattle.iris_book.specs.Book.{latest, value_at, last_number_at, with_entry};
ghost use Rattle.iris_book.specs.declared.entry.Entry.TheVariants as entries;
ghost use Rattle.iris_gather.specs.declared.parent.Parent.TheVariants as parents;
ghost use Rattle.iris_gather.specs.declared.verdict.Verdict.TheVariants.{Done};
ghost use Rattle.iris_cache.specs.Recency.{Cache, TookFirst, is_complete};
ghost use Rattle.iris_migrate.specs.declared.key.Key.TheVariants as keys;
ghost use Rattle.iris_migrate.specs.declared.message.Handover.{Handover as Handed};
ghost use Rattle.iris_migrate.specs.declared.message.Message.TheVariants.{Handover};
ghost use Rattle.iris_migrate.specs.Messages.{key_of};
ghost use Rattle.iris_migrate.specs.Titles.{is_parked};
ghost use Rattle.iris_gather.specs.declared.basis.Basis.{Basis};
ghost use Rattle.iris_gather.specs.declared.entries.OpenGather.{OpenGather};
ghost use Rattle.iris_gather.specs.Laid.{laid};
ghost use Rattle.iris_gather.specs.OpenGathers.{is_due, is_ready, awaits, serves_ask};
ghost use Rattle.iris_agent.specs.Decisions.{AreRouted, MayStart, IsBasis};
ghost use Rattle.iris_agent.specs.Events.{offered};
ghost use Rattle.iris_agent.specs.Updates.{value_owned};
ghost use Rattle.iris_protocol.specs.Good.{Fits};
ghost use Rattle.iris_protocol.specs.Program.{Tells};
ghost use Rattle.iris_protocol.specs.Table.{agents};
ghost use Rattle.iris_protocol.specs.World as model;
ghost use Rattle.iris_runs.specs.Acting.{FitsAt};
ghost use Rattle.iris_runs.specs.Answers.{AnswersRightly};
ghost use Rattle.iris_runs.specs.Alike.{MayBeHandled, IsWaitedFor, WaitsOnce};
ghost use Rattle.iris_runs.specs.Entered.{KeptUpdates};
ghost use Rattle.iris_runs.specs.Good.{Past, IsGood};
ghost use Rattle.iris_runs.specs.Happenings.{query_posted, update_posted, counted, delivered, interrupted, decided, lent_there, given, evicted_at, advanced, forgotten};
ghost use Rattle.iris_runs.specs.Rest.{IsStill, IsAtRest};
ghost use Rattle.iris_runs.specs.Starts.{IsStart};
ghost use Rattle.iris_runs.specs.Letters.{rank_of, need_of, letter_of, agent_of};
ghost use Rattle.iris_runs.specs.Worlds.{Sent, World, owner_of};

/// In a good city each agent may do what its calls ask for: numbers are free, each request of a post or of an
/// open gather was made, one of an open gather has no outcome, an ask is pending at one gather of its agent,
/// the book's newest values and last numbers are those of the owners, a handover fits, and what an evaluation
/// lacks is in the registry, lies below its start, and is missing once. This call does nothing.
pub fn agents_may_act()
    ensures free { (w : World) (past : Past) → IsGood w past → (a : List ℕ) (number : ℕ) → w.turn.next_gather ≤ number → (w.agent a).gather number ≡ None }
    ensures free_asks { (w : World) (past : Past) → IsGood w past → (a : List ℕ) (ask number : ℕ) → w.turn.next_ask ≤ ask → awaits ask ((w.agent a).gather number) ≡ false }
    ensures posted { (w : World) (past : Past) → IsGood w past → (k : ℕ) (sent : Sent) (request : ℕ) → w.post k ≡ Some sent → key_of sent.message ≡ Some (keys.Request request) → request < w.requests }
    ensures clients { (w : World) (past : Past) → IsGood w past → (a : List ℕ) (number : ℕ) (one : OpenGather) (request : ℕ) → (w.agent a).gather number ≡ Some one → one.gather.parent ≡ parents.Client request → request < w.requests }
    ensures undecided { (w : World) (past : Past) → IsGood w past → (a : List ℕ) (number : ℕ) (one : OpenGather) (request : ℕ) → (w.agent a).gather number ≡ Some one → one.gather.parent ≡ parents.Client request → w.closed request ≡ false }
    ensures awaited { (w : World) (past : Past) → IsGood w past → (a : List ℕ) (ask number : ℕ) → awaits ask ((w.agent a).gather number) ≡ true → IsWaitedFor (w.agent a).gather ask (Some number) }
    ensures once { (w : World) (past : Past) → IsGood w past → (a : List ℕ) (number : ℕ) → IfSome ((w.agent a).gather number) WaitsOnce }
    ensures ask { (w : World) (past : Past) → IsGood w past → (a : List ℕ) (ask number : ℕ) → (w.agent a).asked ask ≡ false → serves_ask ask ((w.agent a).gather number) ≡ false }
    ensures handover { (w : World) (past : Past) → IsGood w past → (k : ℕ) (to : List ℕ) (handed : Handed) → w.post k ≡ Some (record { to = to; message = Handover handed }) → FitsAt (w.agent to) handed }
    ensures handled { (w : World) (past : Past) → IsGood w past → (k : ℕ) (sent : Sent) (waiting : Option ℕ) → w.post k ≡ Some sent
        → ((ask : ℕ) → letter_of sent.message ≡ model.reply ask → IsWaitedFor (w.agent sent.to).gather ask waiting)
        → MayBeHandled (w.agent sent.to) waiting sent.message }
    ensures book { (w : World) (past : Past) → IsGood w past → (a : List ℕ) (name : List Label) (version : ℕ)
        → version_at (w.agent a).cache.contents name ≡ Some version
        → (latest w.history name ≡ Some version) × (value_at w.history name version ≡ value_owned (w.agent a).cache.contents name) }
    ensures numbered { (w : World) (past : Past) → IsGood w past → (a : List ℕ) (name : List Label) (number : ℕ) → ((w.agent a).seat name).last ≡ Some number → number ≡ last_number_at w.history name }
    ensures owned { (w : World) (past : Past) → IsGood w past → (a : List ℕ) (name : List Label)
        → IsSome (node_at w.history.start name)
        → IsSome ((w.agent a).seat name).last
        → status (w.agent a).cache.contents name ≡ Some Owned }
    ensures starts { (w : World) (past : Past) → IsGood w past → (a : List ℕ) (number : ℕ) → IfSome ((w.agent a).gather number) (λ one. MayStart one.gather.start) }
    ensures routed { (w : World) (past : Past) → IsGood w past → (a : List ℕ) (number : ℕ) (one : OpenGather) → (w.agent a).gather number ≡ Some one
        → AreRouted w.registry (missing_of one.gather.query one.gather.start (laid (w.agent a).cache.contents one.gather.floor w.turn.now one.gather.view)) }
    ensures fits { (w : World) (past : Past) → IsGood w past → (a : List ℕ) (number : ℕ) (one : OpenGather) → (w.agent a).gather number ≡ Some one
        → Fits (rank_of one.gather.start) (map need_of (missing_of one.gather.query one.gather.start (laid (w.agent a).cache.contents one.gather.floor w.turn.now one.gather.view))) }
{}

/// A city as it starts is good, with rows that were kept before or without: they are the updates of its book,
/// and its owners have the last numbers that they tell. No answer in its book is wrong, since there is none.
/// This call does nothing.
pub fn cities_begin_good()
    ensures good { (rows : KeptUpdates) (w : World) → IsStart rows w → (past : Past) × IsGood w past }
    ensures answers { (rows : KeptUpdates) (w : World) → IsStart rows w → AnswersRightly w }
{}

/// A good city stays one, whatever happens in it, also where an arrival ends early for want of memory. This
/// call does nothing.
pub fn cities_stay_good()
    ensures query { (w : World) (past : Past) (asked : Syntax) (name : List Label) (floor : ℕ)
        → IsSome (node_at w.history.start name)
        → floor ≤ w.turn.now
        → IsGood w past
        → (after : Past) × IsGood (query_posted w asked name floor) after }
    ensures update { (w : World) (past : Past) (name : List Label) (number : ℕ) (changes : List Change)
        → IsSome (node_at w.history.start name)
        → IsGood w past
        → (after : Past) × IsGood (update_posted w name number changes) after }
    ensures counted { (w : World) (past : Past) → IsGood w past → IsGood (counted w) past }
    ensures arrival { (w : World) (past : Past) (serving kept : Bool) (waiting : Option ℕ) (k : ℕ)
        → IfSome (w.post k) (λ sent. Tells (λ a. agent_of (w.agent a)) serving (letter_of sent.message))
        → IfSome (w.post k) (λ sent. (ask : ℕ) → letter_of sent.message ≡ model.reply ask → IsWaitedFor (w.agent sent.to).gather ask waiting)
        → IsGood w past
        → (after : Past) × IsGood (delivered w serving kept waiting k (w.post k)) after }
    ensures interrupted { (w : World) (past : Past) (k : ℕ) (sent : Sent) (cache : Cache)
        → w.post k ≡ Some sent
        → TookFirst (w.agent sent.to).cache (offered sent.message) cache
        → IsGood w past
        → IsGood (interrupted w sent.to cache) past }
    ensures decision { (w : World) (past : Past) (a : List ℕ) (number : ℕ) (one : OpenGather) (basis : Basis)
        → (w.agent a).gather number ≡ Some one
        → is_ready (Some one) ≡ true
        → IsBasis one.gather.query one.gather.start (laid (w.agent a).cache.contents one.gather.floor w.turn.now one.gather.view) basis
        → IsGood w past
        → (after : Past) × IsGood (decided w a number basis (Some one)) after }
    ensures lent { (w : World) (past : Past) (a : List ℕ) (number : ℕ)
        → is_due ((w.agent a).gather number) ≡ true
        → IsGood w past
        → (after : Past) × IsGood (lent_there w a number true) after }
    ensures back { (w : World) (past : Past) (a : List ℕ) (number : ℕ) → IsGood w past → (after : Past) × IsGood (lent_there w a number false) after }
    ensures given { (w : World) (past : Past) (name : List Label) (to : List ℕ)
        → agents.same to (owner_of w.registry name) ≡ false
        → IsSome (node_at w.history.start name)
        → IsSome ((w.agent (owner_of w.registry name)).seat name).last
        → IsGood w past
        → (after : Past) × IsGood (given w name to) after }
    ensures evicted { (w : World) (past : Past) (a : List ℕ) (name : List Label)
        → is_complete (w.agent a).cache.contents name ≡ true
        → IsGood w past
        → IsGood (evicted_at w a name) past }
    ensures advanced { (w : World) (past : Past) (moment : ℕ) → w.turn.now ≤ moment → IsGood w past → IsGood (advanced w moment) past }
    ensures forgotten { (w : World) (past : Past) (stays : List ℕ → ℕ → Bool)
        → ((a b : List ℕ) (ask number : ℕ) → awaits ask ((w.agent b).gather number) ≡ true → stays a ask ≡ true)
        → ((a : List ℕ) (ask number : ℕ) → serves_ask ask ((w.agent a).gather number) ≡ true → stays a ask ≡ true)
        → ((a : List ℕ) (name : List Label) (ask : ℕ) → is_parked ((w.agent a).seat name) (Some (keys.Ask ask)) ≡ true → stays a ask ≡ true)
        → IsGood w past
        → (after : Past) × IsGood (forgotten w stays) after }
{}

/// In a good city each answer is allowed by what was entered before it: its cites tell of a document, and its
/// items are what the query selects there. So it stays, whatever happens. Each answer to a client is entered,
/// and its request has its outcome then. This call does nothing.
pub fn cities_answer_rightly()
    ensures arrival { (w : World) (past : Past) (serving kept : Bool) (waiting : Option ℕ) (k : ℕ)
        → IsGood w past
        → AnswersRightly w
        → AnswersRightly (delivered w serving kept waiting k (w.post k)) }
    ensures interrupted { (w : World) (a : List ℕ) (cache : Cache) → AnswersRightly w → AnswersRightly (interrupted w a cache) }
    ensures decision { (w : World) (past : Past) (a : List ℕ) (number : ℕ) (one : OpenGather) (basis : Basis)
        → (w.agent a).gather number ≡ Some one
        → IsBasis one.gather.query one.gather.start (laid (w.agent a).cache.contents one.gather.floor w.turn.now one.gather.view) basis
        → IsGood w past
        → AnswersRightly w
        → AnswersRightly (decided w a number basis (Some one)) }
    ensures entered { (w : World) (a : List ℕ) (number : ℕ) (one : OpenGather) (basis : Basis) (request : ℕ) (support : List Need) (items : List Item)
        → one.gather.parent ≡ parents.Client request
        → basis.verdict ≡ Done support items
        → ((decided w a number basis (Some one)).history ≡ with_entry w.history (entries.Answered request one.gather.query one.gather.floor basis.cites))
        × ((decided w a number basis (Some one)).closed request ≡ true) }
    ensures given { (w : World) (name : List Label) (to : List ℕ) → AnswersRightly w → AnswersRightly (given w name to) }
    ensures advanced { (w : World) (moment : ℕ) → w.turn.now ≤ moment → AnswersRightly w → AnswersRightly (advanced w moment) }
    ensures forgotten { (w : World) (stays : List ℕ → ℕ → Bool) → AnswersRightly (forgotten w stays) }
{}

/// Where every kept post was delivered and no gather is due or lent, a good city is at rest: each node is with
/// the agent that the registry names, no gather is open, nothing is parked, and each request has its outcome.
/// So nothing that was asked is left unanswered. This call does nothing.
pub fn still_cities_are_at_rest()
    ensures { (w : World) (past : Past) → IsGood w past → IsStill w → IsAtRest w }
{}
