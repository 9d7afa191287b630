//! The lines of a script after the first.
ghost use Rattle.std.specs.Prelude.{◌≡◌, codes, Some, IfOk, IfErr};
ghost use Rattle.serde_json.specs.Data.{object, string};
ghost use Rattle.serde_json.specs.Find.{get_member};
ghost use Rattle.serde_json.specs.View.{members_view};
ghost use Rattle.iris_json.specs.declared.line.Line.{Line};
ghost use Rattle.iris_json.specs.Lines.{Does, IsLine, ReadsLine, GivesLine, RefusesValue, RefusesLine};

use crate::find::Find;
use crate::keys::{Members, ValueError, read_value, text_at};
use crate::part::Slot::{Has, May};
use crate::part::{
    JsonType, agent_of, bound_of, changes_of, has_slots, id_of, name_of, text_of, whole_of,
};
use iris_tree::{
    AgentId, Change, MAX_ARRIVAL, MAX_NUMBER, MAX_OFFERS, MAX_STAY, Memory, Name, NameError,
    Sequence, Text,
};
use std::alloc::{AllocError, AllocFailed, Global};
use thiserror::Error;

/// A line of a script after the first.
#[derive(Debug, Drop)]
pub enum Line {
    /// A query is posted.
    Query {
        query: Text,
        /// How old a copy may be that the answer rests on, in milliseconds, at most `MAX_NUMBER`; none
        /// where any age will do.
        bound: Option<u64>,
    },
    /// A question for parking is posted.
    Find(Find),
    /// An update of a node is posted.
    Update {
        /// The node's name, of 1 to `MAX_LABELS` labels.
        name: Name,
        /// The update's number, 1 to `MAX_NUMBER`.
        no: u64,
        /// What is changed, 1 to `MAX_CHANGES` changes in their order. A name of an
        /// attribute may be `id`. An element that is put is in canonical form.
        changes: Sequence<Change>,
    },
    /// A node gets another owner.
    Give {
        /// The node's name, of 1 to `MAX_LABELS` labels.
        name: Name,
        /// The agent that gets it.
        to: AgentId,
    },
    /// An agent drops what it holds of a node.
    Evict {
        agent: AgentId,
        /// The node's name, of 1 to `MAX_LABELS` labels.
        name: Name,
    },
    /// A query is answered from the document as it is.
    Audit {
        query: Text,
    },
    /// The time is put forward.
    Now {
        /// In milliseconds, at most `MAX_NUMBER`.
        at: u64,
    },
    /// One post is delivered.
    Deliver {
        /// Its number, from 0, at most `MAX_NUMBER`.
        post: u64,
    },
    /// All that is posted is delivered.
    Settle,
    /// What is delivered for good is forgotten.
    Forget,
    /// The owner of a node is told.
    Owner {
        /// The node's name, of 1 to `MAX_LABELS` labels.
        name: Name,
    },
    /// The counts of the world are told.
    Summary,
}

/// What is wrong with a line. Of several faults the first in this order is told.
#[derive(Clone, Copy, Debug, PartialEq, Eq, Error)]
pub enum LineWhy {
    /// It is no object, its `do` is unknown, a key is missing or unknown, or a value is of another
    /// JSON type.
    #[error("the line is no line of a script")]
    Shape,
    /// The text of a name is not that of a name of 1 to `MAX_LABELS` labels, or that of a hood or of an
    /// agent is no id of one.
    #[error("a name in the line is not well formed")]
    Name,
    /// A number is not whole or out of its range.
    #[error("a number in the line is not whole or not in its range")]
    Number,
    /// The list of changes has none or more than `MAX_CHANGES`, or an item of it is no change: another
    /// list than `["attr",name,value]`, `["drop",name]` or `["put",element]`, or a name or a tag is not of
    /// the form of a tag, or a plain element of another form, or one with both kids and a text.
    #[error("the changes in the line are not well formed")]
    Change,
}

/// Why no line was read.
#[derive(Clone, Copy, Debug, PartialEq, Eq, Error)]
pub enum LineError {
    /// The bytes are no JSON text.
    #[error("the line is no JSON")]
    NotJson,
    /// The line is none of the forms.
    #[error("{why}")]
    BadLine { why: LineWhy },
    /// There was no memory.
    #[error("out of memory")]
    Memory,
}

// The line is of no row.
const SHAPE: LineError = LineError::BadLine {
    why: LineWhy::Shape,
};

/// A name in the line is not well formed.
pub const NAME: LineError = LineError::BadLine { why: LineWhy::Name };

/// A number in the line is not in its range.
pub const NUMBER: LineError = LineError::BadLine {
    why: LineWhy::Number,
};

impl From<ValueError> for LineError {
    ghost use Rattle.std.specs.Prelude.{◌≡◌};
    ghost use Rattle.iris_json.specs.Errors.{line_error};

    ghost from_gives = { λ error e. e ≡ line_error error };

    fn from(error: ValueError) -> LineError {
        match error {
            ValueError::NotJson => LineError::NotJson,
            ValueError::Memory => LineError::Memory,
        }
    }
}

impl From<Memory> for LineError {
    ghost use Rattle.std.specs.Prelude.{◌≡◌};
    ghost use Rattle.iris_json.specs.declared.line.LineError.TheVariants.{Memory};

    ghost from_gives = { λ _ e. e ≡ Memory };

    fn from(_error: Memory) -> LineError {
        LineError::Memory
    }
}

impl From<AllocError> for LineError {
    ghost use Rattle.std.specs.Prelude.{◌≡◌};
    ghost use Rattle.iris_json.specs.declared.line.LineError.TheVariants.{Memory};

    ghost from_gives = { λ _ e. e ≡ Memory };

    fn from(_error: AllocError) -> LineError {
        LineError::Memory
    }
}

impl<T: Drop> From<AllocFailed<T>> for LineError {
    ghost use Rattle.std.specs.Prelude.{◌≡◌};
    ghost use Rattle.iris_json.specs.declared.line.LineError.TheVariants.{Memory};

    ghost from_gives = { λ _ e. e ≡ Memory };

    fn from(_error: AllocFailed<T>) -> LineError {
        LineError::Memory
    }
}

impl From<NameError> for LineError {
    ghost use Rattle.std.specs.Prelude.{◌≡◌};
    ghost use Rattle.iris_json.specs.Errors.{name_error};

    ghost from_gives = { λ error e. e ≡ name_error error };

    fn from(error: NameError) -> LineError {
        match error {
            NameError::BadName { .. } => NAME,
            NameError::Memory => LineError::Memory,
        }
    }
}

// The line of a query.
fn query_of(alloc: Global, members: &Members) -> Result<Line, LineError>
    requires does { Does (codes "query") (object (members_view members.now.entries)) }
    ensures found { IfOk result (IsLine (object (members_view members.now.entries))) }
    ensures refused { IfErr result (RefusesValue (object (members_view members.now.entries))) }
{
    if !has_slots(
        members,
        &[Has("query", JsonType::Text), May("bound", JsonType::Number)],
    ) {
        return Err(SHAPE);
    }
    let bound = bound_of(members)?;
    let query = Text::of(alloc, text_of(members, "query"))?;
    Ok(Line::Query { query, bound })
}

// The line of a question for parking.
fn find_of(members: &Members) -> Result<Line, LineError>
    requires does { Does (codes "find") (object (members_view members.now.entries)) }
    ensures found { IfOk result (IsLine (object (members_view members.now.entries))) }
    ensures refused { IfErr result (RefusesValue (object (members_view members.now.entries))) }
{
    if !has_slots(
        members,
        &[
            Has("hood", JsonType::Text),
            Has("arrive", JsonType::Number),
            Has("stay", JsonType::Number),
            Has("top", JsonType::Number),
            May("bound", JsonType::Number),
        ],
    ) {
        return Err(SHAPE);
    }
    let hood = id_of(members, "hood")?;
    let arrive = whole_of(members, "arrive", 0, MAX_ARRIVAL)?;
    let stay = whole_of(members, "stay", 1, MAX_STAY as u64)?;
    let top = whole_of(members, "top", 1, MAX_OFFERS as u64)?;
    let bound = bound_of(members)?;
    Ok(Line::Find(Find {
        hood,
        arrive,
        stay: stay as u32,
        top: top as u32,
        bound,
    }))
}

// The line of an update.
fn update_of(alloc: Global, members: &Members) -> Result<Line, LineError>
    requires does { Does (codes "update") (object (members_view members.now.entries)) }
    ensures found { IfOk result (IsLine (object (members_view members.now.entries))) }
    ensures refused { IfErr result (RefusesValue (object (members_view members.now.entries))) }
{
    if !has_slots(
        members,
        &[
            Has("name", JsonType::Text),
            Has("no", JsonType::Number),
            Has("change", JsonType::Array),
        ],
    ) {
        return Err(SHAPE);
    }
    let name = name_of(alloc, members)?;
    let no = whole_of(members, "no", 1, MAX_NUMBER)?;
    let changes = changes_of(alloc, members)?;
    Ok(Line::Update { name, no, changes })
}

// The line of a move.
fn give_of(alloc: Global, members: &Members) -> Result<Line, LineError>
    requires does { Does (codes "give") (object (members_view members.now.entries)) }
    ensures found { IfOk result (IsLine (object (members_view members.now.entries))) }
    ensures refused { IfErr result (RefusesValue (object (members_view members.now.entries))) }
{
    if !has_slots(
        members,
        &[Has("name", JsonType::Text), Has("to", JsonType::Text)],
    ) {
        return Err(SHAPE);
    }
    let name = name_of(alloc, members)?;
    let to = agent_of(members, "to")?;
    Ok(Line::Give { name, to })
}

// The line of an eviction.
fn evict_of(alloc: Global, members: &Members) -> Result<Line, LineError>
    requires does { Does (codes "evict") (object (members_view members.now.entries)) }
    ensures found { IfOk result (IsLine (object (members_view members.now.entries))) }
    ensures refused { IfErr result (RefusesValue (object (members_view members.now.entries))) }
{
    if !has_slots(
        members,
        &[Has("agent", JsonType::Text), Has("name", JsonType::Text)],
    ) {
        return Err(SHAPE);
    }
    let agent = agent_of(members, "agent")?;
    let name = name_of(alloc, members)?;
    Ok(Line::Evict { agent, name })
}

// The line of an audit.
fn audit_of(alloc: Global, members: &Members) -> Result<Line, LineError>
    requires does { Does (codes "audit") (object (members_view members.now.entries)) }
    ensures found { IfOk result (IsLine (object (members_view members.now.entries))) }
    ensures refused { IfErr result (RefusesValue (object (members_view members.now.entries))) }
{
    if !has_slots(members, &[Has("query", JsonType::Text)]) {
        return Err(SHAPE);
    }
    let query = Text::of(alloc, text_of(members, "query"))?;
    Ok(Line::Audit { query })
}

// The line of a moment.
fn now_of(members: &Members) -> Result<Line, LineError>
    requires does { Does (codes "now") (object (members_view members.now.entries)) }
    ensures found { IfOk result (IsLine (object (members_view members.now.entries))) }
    ensures refused { IfErr result (RefusesValue (object (members_view members.now.entries))) }
{
    if !has_slots(members, &[Has("at", JsonType::Number)]) {
        return Err(SHAPE);
    }
    let at = whole_of(members, "at", 0, MAX_NUMBER)?;
    Ok(Line::Now { at })
}

// The line of a delivery.
fn deliver_of(members: &Members) -> Result<Line, LineError>
    requires does { Does (codes "deliver") (object (members_view members.now.entries)) }
    ensures found { IfOk result (IsLine (object (members_view members.now.entries))) }
    ensures refused { IfErr result (RefusesValue (object (members_view members.now.entries))) }
{
    if !has_slots(members, &[Has("post", JsonType::Number)]) {
        return Err(SHAPE);
    }
    let post = whole_of(members, "post", 0, MAX_NUMBER)?;
    Ok(Line::Deliver { post })
}

// The line of a question for an owner.
fn owner_of(alloc: Global, members: &Members) -> Result<Line, LineError>
    requires does { Does (codes "owner") (object (members_view members.now.entries)) }
    ensures found { IfOk result (IsLine (object (members_view members.now.entries))) }
    ensures refused { IfErr result (RefusesValue (object (members_view members.now.entries))) }
{
    if !has_slots(members, &[Has("name", JsonType::Text)]) {
        return Err(SHAPE);
    }
    let name = name_of(alloc, members)?;
    Ok(Line::Owner { name })
}

// The line of a settle.
fn settle_of(members: &Members) -> Result<Line, LineError>
    requires does { Does (codes "settle") (object (members_view members.now.entries)) }
    ensures found { IfOk result (IsLine (object (members_view members.now.entries))) }
    ensures refused { IfErr result (RefusesValue (object (members_view members.now.entries))) }
{
    if !has_slots(members, &[]) {
        return Err(SHAPE);
    }
    Ok(Line::Settle)
}

// The line of a forget.
fn forget_of(members: &Members) -> Result<Line, LineError>
    requires does { Does (codes "forget") (object (members_view members.now.entries)) }
    ensures found { IfOk result (IsLine (object (members_view members.now.entries))) }
    ensures refused { IfErr result (RefusesValue (object (members_view members.now.entries))) }
{
    if !has_slots(members, &[]) {
        return Err(SHAPE);
    }
    Ok(Line::Forget)
}

// The line of a question for the counts.
fn summary_of(members: &Members) -> Result<Line, LineError>
    requires does { Does (codes "summary") (object (members_view members.now.entries)) }
    ensures found { IfOk result (IsLine (object (members_view members.now.entries))) }
    ensures refused { IfErr result (RefusesValue (object (members_view members.now.entries))) }
{
    if !has_slots(members, &[]) {
        return Err(SHAPE);
    }
    Ok(Line::Summary)
}

// The line that an object is.
fn line_of(alloc: Global, members: &Members) -> Result<Line, LineError>
    ensures found { IfOk result (IsLine (object (members_view members.now.entries))) }
    ensures refused { IfErr result (RefusesValue (object (members_view members.now.entries))) }
{
    match text_at(members, "do") {
        Some("query") => query_of(alloc, members),
        Some("find") => find_of(members),
        Some("update") => update_of(alloc, members),
        Some("give") => give_of(alloc, members),
        Some("evict") => evict_of(alloc, members),
        Some("audit") => audit_of(alloc, members),
        Some("now") => now_of(members),
        Some("deliver") => deliver_of(members),
        Some("settle") => settle_of(members),
        Some("forget") => forget_of(members),
        Some("owner") => owner_of(alloc, members),
        Some("summary") => summary_of(members),
        _ => Err(SHAPE),
    }
}

/// Reads a line of a script after the first, without its LF. It is an object with the key `do` and the
/// keys of its row, and no others; those in brackets may be absent:
///
/// | `do` | Keys |
/// |---|---|
/// | `query` | `query`, a text; [`bound`, 0 to `MAX_NUMBER`] |
/// | `find` | `hood`, an id; `arrive`, 0 to `MAX_ARRIVAL`; `stay`, 1 to `MAX_STAY`; `top`, 1 to `MAX_OFFERS`; [`bound`] |
/// | `update` | `name`, the text of a node's name; `no`, 1 to `MAX_NUMBER`; `change`, a list of 1 to `MAX_CHANGES` changes |
/// | `give` | `name`; `to`, an agent's id |
/// | `evict` | `agent`, an agent's id; `name` |
/// | `audit` | `query` |
/// | `now` | `at`, 0 to `MAX_NUMBER` |
/// | `deliver` | `post`, 0 to `MAX_NUMBER` |
/// | `settle`, `forget`, `summary` | |
/// | `owner` | `name` |
///
/// A change is `["attr",name,value]`, `["drop",name]` or `["put",element]`, where the element is an
/// object with the key `tag` and the optional keys `attrs`, `text` and `kids`, a list of such; the order
/// of kids does not matter. `NotJson` comes where the bytes are no JSON
/// text, and else `BadLine` with the first of the faults of `LineWhy` that the line has.
pub fn read_line(alloc: Global, bytes: &[u8]) -> Result<Line, LineError>
    ensures found { IfOk result (ReadsLine bytes.now) }
    ensures only { (line : Line) → ReadsLine bytes.now line → GivesLine result line }
    ensures refused { IfErr result (RefusesLine bytes.now) }
{
    let value = read_value(alloc, bytes)?;
    match value.as_object() {
        Some(members) => line_of(alloc, members),
        None => Err(SHAPE),
    }
}
