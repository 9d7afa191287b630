//! What the lines of a script after the first say.
ghost use Rattle.std.specs.Prelude.{◌≡◌, ℕ, List, IfOk, IfErr, Some};
ghost use Rattle.iris_json.specs.declared.line.Line.TheVariants as lines;
ghost use Rattle.iris_json.specs.Lines.{ReadsLine};
ghost use Rattle.iris_xpath.specs.declared.error.QueryError.TheVariants as errors;
ghost use Rattle.iris_cli.specs.LineSays.{fault_of, PostsQuery, LineSays, RefusesEvent};

use crate::halt::Halt;
use iris_json::{Line, QueryFault, Why, Word, read_line};
use iris_tree::{Change, Kind, Mem, Memory, Name, Sequence};
use iris_xpath::{Query, QueryError, parse};
use std::alloc::Global;

/// An update of a node, as a line asks for it.
#[derive(Debug, Drop)]
pub struct SentUpdate {
    pub name: Name,
    /// Greater than that of each update of the node before it, or it is old.
    pub no: u64,
    /// What is changed, in this order.
    pub changes: Sequence<Change>,
}

/// What is posted to an agent.
#[derive(Debug, Drop)]
pub enum Sent {
    Query { query: Query },
    Update { update: SentUpdate },
}

/// What a line after the first says.
#[derive(Debug, Drop)]
pub enum Event {
    /// This is posted to the agent.
    Post { sent: Sent },
    /// A query is answered at once.
    Audit { query: Query },
    /// The text of a query or of an audit is no query, for this reason.
    BadQuery { why: QueryFault },
    /// The present moment is that one, in milliseconds.
    Now { at: u64 },
    /// All that is posted is delivered.
    Settle,
}

// Why a text is no query, as a line tells it.
fn fault_of(error: QueryError) -> Mem<QueryFault>
    ensures told { IfOk result (λ fault. fault_of error ≡ Some fault) }
    ensures memory { IfErr result (λ _. error ≡ errors.Memory) }
{
    match error {
        QueryError::Syntax { at } => Ok(QueryFault::Syntax { at: at as u64 }),
        QueryError::Outside { at, what } => Ok(QueryFault::Outside {
            at: at as u64,
            what: Word::new(what.word()),
        }),
        QueryError::TooLarge { which } => Ok(QueryFault::TooLarge {
            which: Word::new(which.word()),
        }),
        QueryError::Memory => Err(Memory),
    }
}

impl Event {
    // What a line says that posts what this text asks.
    fn of_query(alloc: Global, kinds: &[Kind], text: &str) -> Mem<Event>
        ensures { IfOk result (λ event. (line : List ℕ) → PostsQuery line text.now → LineSays kinds.now line event) }
    {
        match parse(alloc, text, kinds) {
            Ok(query) => Ok(Event::Post {
                sent: Sent::Query { query },
            }),
            Err(error) => Ok(Event::BadQuery {
                why: fault_of(error)?,
            }),
        }
    }

    // What a line says that answers what this text asks at once.
    fn of_audit(alloc: Global, kinds: &[Kind], text: &str) -> Mem<Event>
        ensures { IfOk result (λ event. (line : List ℕ) → ReadsLine line (lines.Audit text.now) → LineSays kinds.now line event) }
    {
        match parse(alloc, text, kinds) {
            Ok(query) => Ok(Event::Audit { query }),
            Err(error) => Ok(Event::BadQuery {
                why: fault_of(error)?,
            }),
        }
    }

    /// What a line says, in a city with nodes of these kinds. A line that asks something of several agents
    /// is not served yet, and refused as one that is of no form.
    pub fn read(alloc: Global, kinds: &[Kind], line: &[u8]) -> Result<Event, Halt>
        ensures says { IfOk result (λ event. LineSays kinds.now line.now event) }
        ensures refused { IfErr result (RefusesEvent kinds.now line.now) }
    {
        Ok(match read_line(alloc, line)? {
            Line::Query { query, .. } => Event::of_query(alloc, kinds, query.as_str())?,
            Line::Update { name, no, changes } => {
                let update = SentUpdate { name, no, changes };
                Event::Post {
                    sent: Sent::Update { update },
                }
            }
            Line::Audit { query } => Event::of_audit(alloc, kinds, query.as_str())?,
            Line::Now { at } => Event::Now { at },
            Line::Settle => Event::Settle,
            Line::Find(_)
            | Line::Give { .. }
            | Line::Evict { .. }
            | Line::Deliver { .. }
            | Line::Forget
            | Line::Owner { .. }
            | Line::Summary => return Err(Halt::bad_line(Why::Shape)),
        })
    }
}
