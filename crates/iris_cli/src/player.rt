//! The play of a script.
ghost use Rattle.std.specs.Prelude.{◌≡◌, ◌↔◌, ◌<◌, ◌≤◌, ◌⊎◌, IsTrue};
ghost use Rattle.iris_base.specs.declared.limits.TheConstants.{MAX_SCRIPT_BYTES};
ghost use Rattle.iris_base.specs.Outside.{HasCause};
ghost use Rattle.iris_cli.specs.Halt.{IsPlay};
ghost use Rattle.iris_cli.specs.Played.{PlaysOn};
ghost use Rattle.iris_cli.specs.Stepped.{RanTo, status_of, Closes};

use crate::halt::Halt;
use crate::script::Script;
use crate::session::{Session, put};
use crate::sink::Sink;
use crate::source::Source;
use crate::status::Status;
use iris_tree::Text;
use std::alloc::Global;

// Whether the words ask to play a script without a store.
fn asks_to_play(words: &[Text]) -> bool
    ensures { IsTrue result ↔ IsPlay words.now }
{
    match words {
        [word] => word.as_str() == "play",
        _ => false,
    }
}

// Reads the city and then each further line, and does what it says.
fn run<S: Source, K: Sink>(
    alloc: Global,
    script: &mut Script,
    source: &mut S,
    sink: &mut K,
) -> Result<(), Halt>
    requires unread { script.old.number ≡ 0 }
    requires whole { script.old.room ≡ MAX_SCRIPT_BYTES }
    ensures ran { RanTo (S.left source.old) (S.left source.new) (K.held sink.old) (K.held sink.new) script.new.number result }
    ensures read { HasCause Halt.ReadFault (S.faults source.old) (S.faults source.new) result }
    ensures write { HasCause Halt.WriteFault (K.faults sink.old) (K.faults sink.new) result }
{
    script.next(source)?;
    let mut session = Session::start(alloc, script.line())?;
    'lines: while script.next(source)? {
        session.run(alloc, script.line(), sink)?;
    }
    Ok(())
}

// The status of a run that ended so, at the line of that number.
fn status_of(ran: Result<(), Halt>, number: u64) -> Status
    ensures { result ≡ status_of number ran }
{
    match ran {
        Ok(()) => Status::Done,
        Err(Halt::ReadFault) => Status::ReadFault,
        Err(Halt::WriteFault) => Status::WriteFault,
        Err(Halt::BadLine { why, node }) => Status::BadScript {
            line: number,
            why,
            node,
        },
        Err(Halt::Limit { which, count }) => Status::Limit { which, count },
        Err(Halt::Memory) => Status::Memory,
    }
}

// Writes the last line where the status has one, and answers the status, or why that line was not
// written.
fn end<K: Sink>(alloc: Global, told: Status, sink: &mut K) -> Status
    ensures closes { Closes (K.held sink.old) (K.held sink.new) told result }
    ensures later { K.faults sink.old ≤ K.faults sink.new }
    ensures cause { result ≡ Status.WriteFault → (told ≡ Status.WriteFault) ⊎ (K.faults sink.old < K.faults sink.new) }
{
    let Some(out) = told.last_out() else {
        return told;
    };
    match put(alloc, &out, sink) {
        Ok(()) => told,
        Err(Halt::WriteFault) => Status::WriteFault,
        Err(_) => Status::Memory,
    }
}

/// Plays the script of the source and writes the lines of its run into the sink, each ended by an LF, as
/// they come.
///
/// The script is a city line and lines after it, each ended by an LF. A query makes its post line, and a
/// settle answers the queries that are posted, in the order of posting, and makes its own line. Of
/// several faults the first in the script counts; in a line `ReadFault` stands before `Limit`, and that
/// before `BadScript`. `BadScript` and `Limit` are told by a last line; where that can't be written,
/// `WriteFault` or `Memory` comes in their place.
pub fn play<S: Source, K: Sink>(
    alloc: Global,
    words: &[Text],
    source: &mut S,
    sink: &mut K,
) -> Status
    ensures usage { (result ≡ Status.Usage) ↔ (IsPlay words.now → ⊥) }
    ensures untouched { result ≡ Status.Usage → (source.new ≡ source.old) × (sink.new ≡ sink.old) }
    ensures played { IsPlay words.now → PlaysOn (S.left source.old) (S.left source.new) (K.held sink.old) (K.held sink.new) result }
    ensures read { result ≡ Status.ReadFault → S.faults source.old < S.faults source.new }
    ensures write { result ≡ Status.WriteFault → K.faults sink.old < K.faults sink.new }
{
    if !asks_to_play(words) {
        return Status::Usage;
    }
    let mut script = Script::new(alloc);
    let ran = run(alloc, &mut script, source, sink);
    end(alloc, status_of(ran, script.number()), sink)
}
