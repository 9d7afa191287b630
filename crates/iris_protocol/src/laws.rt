//! What holds after every list of events.
ghost use Rattle.std.specs.Prelude.{◌≡◌, ℕ, Bool, List, [], None};
ghost use Rattle.iris_protocol.specs.Table.{Name, AgentId};
ghost use Rattle.iris_protocol.specs.World.{Event, start, run};
ghost use Rattle.iris_protocol.specs.Good.{AllAllowed, Good};
ghost use Rattle.iris_protocol.specs.Settle.{Choices, FitsAll, delivers, lowest, settles, NoneDue, NoneLent, AllWait, Still, Quiet};
ghost use Rattle.iris_protocol.specs.Clauses.{Clauses};
ghost use Rattle.iris_protocol.specs.Program.{Program, program_happens, TellsEvent, Known, ProgramAllows};
ghost use Rattle.iris_protocol.specs.ProgramSettle.{Outside, Fair, program_lowest, Places, program_settles, ProgramNoneLent, ProgramQuiet};

/// After every list of events, from any start, the world is good: each node has one title, what is parked
/// waits for a handover that is under way, each pending ask and each request without an outcome is carried
/// by a message or a gather, and numbers are fresh. This call does nothing.
pub fn every_run_is_good()
    ensures { (owner : Name → AgentId) (epoch : Name → ℕ) (rows : List (Name × ℕ)) (events : List Event) → AllAllowed (start owner epoch rows) events → Good (run events (start owner epoch rows)) [] [] }
{}

/// The same in plain words, of single nodes, gathers, asks and requests. This call does nothing.
pub fn every_run_keeps_its_promises()
    ensures { (owner : Name → AgentId) (epoch : Name → ℕ) (rows : List (Name × ℕ)) (events : List Event) → AllAllowed (start owner epoch rows) events → Clauses (run events (start owner epoch rows)) }
{}

/// A delivery, which is an arrival and then the decision of each gather of that agent that is due, leaves no
/// gather due where none was due before, and each open gather waits for an ask to which no reply was
/// delivered. This call does nothing.
pub fn deliveries_leave_none_due()
    ensures { (owner : Name → AgentId) (epoch : Name → ℕ) (rows : List (Name × ℕ)) (events : List Event) → AllAllowed (start owner epoch rows) events → (choices : Choices) → FitsAll choices → (post : ℕ) →
        NoneDue (run events (start owner epoch rows)) → NoneDue (delivers choices (run events (start owner epoch rows)) post) × AllWait (delivers choices (run events (start owner epoch rows)) post) }
{}

/// Where no post is undelivered and no gather is due or lent, no gather is open, nothing is parked, each node
/// is held by its owner, and each request has its outcome. This call does nothing.
pub fn nothing_under_way_is_quiet()
    ensures { (owner : Name → AgentId) (epoch : Name → ℕ) (rows : List (Name × ℕ)) (events : List Event) → AllAllowed (start owner epoch rows) events →
        Still (run events (start owner epoch rows)) → NoneDue (run events (start owner epoch rows)) → NoneLent (run events (start owner epoch rows)) → Quiet (run events (start owner epoch rows)) }
{}

/// So it is after a settle that left no post undelivered, whatever was done before it, where no gather was
/// lent as it began. This call does nothing.
pub fn settles_are_quiet()
    ensures { (owner : Name → AgentId) (epoch : Name → ℕ) (rows : List (Name × ℕ)) (events : List Event) → AllAllowed (start owner epoch rows) events → (choices : Choices) → FitsAll choices → (most : ℕ) →
        NoneLent (run events (start owner epoch rows)) → lowest (settles choices most (run events (start owner epoch rows))) ≡ None → Quiet (settles choices most (run events (start owner epoch rows))) }
{}

/// A program keeps less than the model: one agent's own seats, gathers and asks at each agent, and of each
/// request whether it has its outcome. Its events, one agent's step and then the steps that follow, keep it
/// so that it is what some good world comes to. This call does nothing.
pub fn program_events_stay_known()
    ensures { (program : Program) (serving : Bool) (event : Event) → ProgramAllows program event → TellsEvent program serving event → Known program → Known (program_happens program serving event) }
{}

/// After a settle of such a program that left no post undelivered it is quiet, where no gather was lent as it
/// began. This call does nothing.
pub fn program_settles_are_quiet()
    ensures { (outside : Outside) → Fair outside → (program : Program) (place : ℕ → AgentId) (most : ℕ) → Places program place → ProgramNoneLent program → Known program →
        program_lowest (program_settles outside place most program) ≡ None → ProgramQuiet (program_settles outside place most program) }
{}
