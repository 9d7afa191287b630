//! Sinks of bytes that count their faults: one in memory, and one over a writer of the standard
//! library.

ghost use Rattle.std.specs.Prelude.{◌≡◌, ℕ, List, Some, ◌≤◌, ◌<◌, length, [], IfOk};
ghost use Rattle.std.specs.Io.KnownBytes.{WriteAppends};
ghost use Rattle.std.specs.declared.option.Option.{Option};
ghost use Rattle.iris_base.specs.Outside.{HasCause, Puts};

use iris_tree::{Fault, MAX_TRIES, count_fault};
use std::alloc::Global;
use std::io::{ErrorKind, Write};

/// Where bytes go to.
pub trait Sink {
    /// What it holds, where the sink tells it.
    ghost held: { Self → Option (List ℕ) };

    /// How many calls have failed so far. It never falls.
    ghost faults: { Self → ℕ };

    /// Adds `bytes` at the end of what it holds; at an error, a part of them from the front.
    fn put(&mut self, bytes: &[u8]) -> Result<(), Fault>
        ensures bytes { Puts (held self.old) (held self.new) result bytes.now }
        ensures cause { HasCause Fault.Failed (faults self.old) (faults self.new) result };
}

/// Bytes that are kept in memory.
#[derive(Debug, Drop)]
pub struct MemorySink {
    bytes: Vec<u8>,
    fails: Vec<u64>,
    calls: u64,
    faults: u64,
}

impl MemorySink {
    /// A sink that holds nothing. The calls whose numbers, from 0, stand in `fails` add half of
    /// their bytes, rounded down, and answer `Failed`.
    pub fn new(alloc: Global, fails: Vec<u64>) -> MemorySink
        ensures held { ⟦<MemorySink as Sink>⟧.held result ≡ Some [] }
        ensures faults { ⟦<MemorySink as Sink>⟧.faults result ≡ 0 }
    {
        MemorySink {
            bytes: Vec::new(alloc),
            fails,
            calls: 0,
            faults: 0,
        }
    }

    /// What it holds.
    pub fn bytes(&self) -> &[u8]
        ensures { ⟦<MemorySink as Sink>⟧.held self.now ≡ Some result.now }
    {
        &self.bytes
    }
}

impl Sink for MemorySink {
    ghost held = { λ s. Some s.bytes.items };

    ghost faults = { λ s. s.faults };

    fn put(&mut self, bytes: &[u8]) -> Result<(), Fault> {
        let fails = self.fails.contains(&self.calls);
        self.calls = self.calls.saturating_add(1);
        let count = if fails { bytes.len() / 2 } else { bytes.len() };
        if self.bytes.extend_from_slice(&bytes[..count]).is_err() {
            return Err(Fault::Memory);
        }
        if fails {
            return Err(count_fault(&mut self.faults));
        }
        Ok(())
    }
}

/// A writer of the standard library, with no buffer before it. It holds what the writer holds,
/// where that is known. A write that is interrupted is made again, up to `MAX_TRIES` times in all, and
/// one that takes none of the bytes is a fault.
#[derive(Drop)]
pub struct StdSink<W: Write + Drop> {
    writer: W,
    faults: u64,
}

impl<W: Write + Drop> StdSink<W> {
    /// A sink that writes to `writer`.
    pub fn new(writer: W) -> StdSink<W>
        ensures held { ⟦<StdSink<W> as Sink>⟧.held result ≡ W.contents writer }
        ensures faults { ⟦<StdSink<W> as Sink>⟧.faults result ≡ 0 }
    {
        StdSink { writer, faults: 0 }
    }

    // Writes some of `bytes`, at least one, from the front, and answers how many.
    fn write_some(&mut self, bytes: &[u8]) -> Result<usize, Fault>
        ensures some { IfOk result (λ count. 0 < count) }
        ensures bound { IfOk result (λ count. count ≤ length bytes.now) }
        ensures bytes { WriteAppends (W.contents self.old.writer) (W.contents self.new.writer) result bytes.now }
        ensures cause { HasCause Fault.Failed self.old.faults self.new.faults result }
    {
        for _ in 0..MAX_TRIES {
            match self.writer.write(bytes) {
                Ok(0) => return Err(count_fault(&mut self.faults)),
                Ok(count) => return Ok(count),
                Err(error) if error.kind() == ErrorKind::Interrupted => {}
                Err(error) if error.kind() == ErrorKind::OutOfMemory => {
                    return Err(Fault::Memory);
                }
                Err(_) => return Err(count_fault(&mut self.faults)),
            }
        }
        Err(count_fault(&mut self.faults))
    }
}

impl<W: Write + Drop> Sink for StdSink<W> {
    ghost held = { λ s. W.contents s.writer };

    ghost faults = { λ s. s.faults };

    fn put(&mut self, bytes: &[u8]) -> Result<(), Fault> {
        let mut written = 0;
        while written < bytes.len() {
            written += self.write_some(&bytes[written..])?;
        }
        Ok(())
    }
}
