//! Sources of bytes that count their faults: one in memory, and one over a reader of the standard
//! library.

ghost use Rattle.std.specs.Prelude.{◌≡◌, ℕ, List, Some, None, true, false, take, drop, ◌+◌, ◌≤◌, ◌<◌, length, [], Ok, IfOk, IfErr, OnErr};
ghost use Rattle.std.specs.Io.{ReadsAtMost};
ghost use Rattle.std.specs.Io.KnownBytes.{Keeps, ReadConsumes};
ghost use Rattle.std.specs.IoError.{error_kind};
ghost use Rattle.std.specs.declared.option.Option.{Option};
ghost use Rattle.iris_base.specs.Outside.{HasCause};
ghost use Rattle.iris_cli.specs.Lines.{TakesPart, NoLf, ended};

use iris_tree::{Fault, MAX_TRIES, count_fault};
use memchr::memchr;
use std::alloc::Global;
use std::io;
use std::io::{BufRead, BufReader, ErrorKind, Read};

/// What was taken of a line.
#[derive(Clone, Copy, Debug, PartialEq, Eq)]
pub enum LinePart {
    /// Some of it, and not its LF.
    More,
    /// The rest of it, with its LF.
    Last,
    /// Nothing: the text is at its end.
    End,
}

/// Where bytes come from. Only `take` has to be written; a source behind a buffer writes
/// `take_until_lf` too, since that takes one byte a call else.
pub trait Source {
    /// What is left to take, where the source tells it.
    ghost left: { Self → Option (List ℕ) };

    /// How many calls have failed so far. It never falls.
    ghost faults: { Self → ℕ };

    /// Takes bytes from the front of what is left into the front of `room`, and answers how many,
    /// at most the room's length; 0 into a room that is not empty is the end. After an error what
    /// is left is as before.
    fn take(&mut self, room: &mut [u8]) -> Result<usize, Fault>
        ensures bound { ReadsAtMost result room.new }
        ensures bytes { ReadConsumes (left self.old) (left self.new) result room.new }
        ensures cause { HasCause Fault.Failed (faults self.old) (faults self.new) result };

    /// Takes bytes of a line, at least one and at most `most`, and puts them behind those of `line`.
    /// They end before an LF, which is taken and not put there. After `Failed` nothing was taken.
    fn take_until_lf(&mut self, line: &mut Vec<u8>, most: usize) -> Result<LinePart, Fault>
        requires { 0 < most }
        ensures took { TakesPart most (left self.old) (left self.new) line.old.items line.new.items result }
        ensures cause { HasCause Fault.Failed (faults self.old) (faults self.new) result }
    {
        let mut room = [0u8; 1];
        if self.take(&mut room)? == 0 {
            return Ok(LinePart::End);
        }
        let [byte] = room;
        if byte == b'\n' {
            return Ok(LinePart::Last);
        }
        if line.push(byte).is_err() {
            return Err(Fault::Memory);
        }
        Ok(LinePart::More)
    }
}

/// Bytes in memory, of which each call gives at most `step`.
#[derive(Debug, Drop)]
pub struct MemorySource {
    bytes: Vec<u8>,
    position: usize,
    step: usize,
    fails: Vec<u64>,
    calls: u64,
    faults: u64,
    ghost within: { position ≤ length bytes.items },
    ghost moves: { 0 < step },
}

impl MemorySource {
    /// A source of `bytes`. The calls whose numbers, from 0, stand in `fails` answer `Failed`.
    pub fn new(bytes: Vec<u8>, step: usize, fails: Vec<u64>) -> MemorySource
        requires { 0 < step }
        ensures left { ⟦<MemorySource as Source>⟧.left result ≡ Some bytes.items }
        ensures faults { ⟦<MemorySource as Source>⟧.faults result ≡ 0 }
    {
        MemorySource {
            bytes,
            position: 0,
            step,
            fails,
            calls: 0,
            faults: 0,
        }
    }
}

impl Source for MemorySource {
    ghost left = { λ s. Some (drop s.position s.bytes.items) };

    ghost faults = { λ s. s.faults };

    fn take(&mut self, room: &mut [u8]) -> Result<usize, Fault> {
        let fails = self.fails.contains(&self.calls);
        self.calls = self.calls.saturating_add(1);
        if fails {
            return Err(count_fault(&mut self.faults));
        }
        let rest = self.bytes.len() - self.position;
        let count = rest.min(room.len()).min(self.step);
        let end = self.position + count;
        room[..count].copy_from_slice(&self.bytes[self.position..end]);
        self.position = end;
        Ok(count)
    }
}

/// A reader of the standard library behind a buffer. It tells what is left where the reader does, as one over
/// a slice; standard input doesn't. A read that is interrupted is made again, up to `MAX_TRIES` times in all.
#[derive(Drop)]
pub struct StdSource<R: Read + Drop> {
    reader: BufReader<R>,
    faults: u64,
}

// How many of these bytes are before the first LF, and whether there is one.
fn before_lf(bytes: &[u8]) -> (usize, bool)
    ensures within { result.0 ≤ length bytes.now }
    ensures lf { result.1 ≡ true → (result.0 < length bytes.now) × (take (result.0 + 1) bytes.now ≡ ended (take result.0 bytes.now)) }
    ensures no_lf { NoLf (take result.0 bytes.now) }
    ensures some { 0 < length bytes.now → result.1 ≡ false → 0 < result.0 }
{
    match memchr(b'\n', bytes) {
        Some(count) => (count, true),
        None => (bytes.len(), false),
    }
}

// Takes bytes of a line from those that the reader has at hand, at most `most`, and an LF that is right
// behind them. After an error nothing was taken.
fn take_part<B: BufRead>(reader: &mut B, line: &mut Vec<u8>, most: usize) -> io::Result<LinePart>
    requires { 0 < most }
    ensures ok { IfOk result (λ part. TakesPart most (B.remaining reader.old) (B.remaining reader.new) line.old.items line.new.items (Ok part)) }
    ensures err { OnErr result ((line.new.items ≡ line.old.items) × Keeps (B.remaining reader.old) (B.remaining reader.new)) }
{
    let bytes = reader.fill_buf()?;
    if bytes.is_empty() {
        return Ok(LinePart::End);
    }
    let (count, has_lf) = before_lf(&bytes[..bytes.len().min(most)]);
    line.extend_from_slice(&bytes[..count])?;
    if has_lf {
        reader.consume(count + 1);
        return Ok(LinePart::Last);
    }
    reader.consume(count);
    Ok(LinePart::More)
}

impl<R: Read + Drop> StdSource<R> {
    /// A source of what `reader` gives. Where there is no memory for the buffer, the reader is
    /// dropped.
    pub fn new(alloc: Global, reader: R) -> io::Result<StdSource<R>>
        ensures left { IfOk result (λ source. ⟦<StdSource<R> as Source>⟧.left source ≡ R.remaining reader) }
        ensures faults { IfOk result (λ source. ⟦<StdSource<R> as Source>⟧.faults source ≡ 0) }
        ensures memory { IfErr result (λ e. error_kind e ≡ ErrorKind.OutOfMemory) }
    {
        let reader = BufReader::new(alloc, reader)?;
        Ok(StdSource { reader, faults: 0 })
    }
}

impl<R: Read + Drop> Source for StdSource<R> {
    ghost left = { λ s. ⟦<BufReader<R> as Read>⟧.remaining s.reader };

    ghost faults = { λ s. s.faults };

    fn take(&mut self, room: &mut [u8]) -> Result<usize, Fault> {
        for _ in 0..MAX_TRIES {
            match self.reader.read(room) {
                Ok(count) => return Ok(count),
                Err(error) if error.kind() == ErrorKind::Interrupted => {}
                Err(error) if error.kind() == ErrorKind::OutOfMemory => {
                    return Err(Fault::Memory);
                }
                Err(_) => return Err(count_fault(&mut self.faults)),
            }
        }
        Err(count_fault(&mut self.faults))
    }

    fn take_until_lf(&mut self, line: &mut Vec<u8>, most: usize) -> Result<LinePart, Fault> {
        for _ in 0..MAX_TRIES {
            match take_part(&mut self.reader, line, most) {
                Ok(part) => return Ok(part),
                Err(error) if error.kind() == ErrorKind::Interrupted => {}
                Err(error) if error.kind() == ErrorKind::OutOfMemory => {
                    return Err(Fault::Memory);
                }
                Err(_) => return Err(count_fault(&mut self.faults)),
            }
        }
        Err(count_fault(&mut self.faults))
    }
}
