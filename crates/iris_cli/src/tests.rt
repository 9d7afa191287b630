//! Sources and sinks, each once with its faults, and scripts over them.
ghost use Rattle.std.specs.Prelude.{◌≤◌, IfOk};

use crate::line::{NextLine, take_line};
use crate::player::play;
use crate::sink::{MemorySink, Sink, StdSink};
use crate::source::{MemorySource, Source, StdSource};
use crate::status::Status;
use iris_tree::{Fault, Text};
use std::alloc::{AllocError, Global};
use std::io;
use std::io::{ErrorKind, Read, Write};
use std::test::*;

#[test]
fn memory_source(rt: HostRuntime) -> Result<(), Fail> {
    let bytes = Vec::from_slice(rt.alloc(), b"ab\nc\n")?;
    let fails = Vec::from_slice(rt.alloc(), &[1u64])?;
    let mut source = MemorySource::new(bytes, 2, fails);
    let mut room = [0u8; 8];
    assert_eq!(rt; source.take(&mut room), Ok(2));
    assert_eq!(rt; source.take(&mut room), Err(Fault::Failed));
    let mut line = Vec::new(rt.alloc());
    assert_eq!(rt; take_line(&mut source, &mut line, 3), Ok(NextLine::Whole));
    assert_eq!(rt; take_line(&mut source, &mut line, 3), Ok(NextLine::Whole));
    assert_eq!(rt; line.as_slice(), b"c".as_slice());
    assert_eq!(rt; take_line(&mut source, &mut line, 3), Ok(NextLine::End));
    Ok(())
}

#[test]
fn memory_sink(rt: HostRuntime) -> Result<(), Fail> {
    let mut sink = MemorySink::new(rt.alloc(), Vec::from_slice(rt.alloc(), &[1u64])?);
    assert_eq!(rt; sink.put(b"ab"), Ok(()));
    assert_eq!(rt; sink.put(b"cdefg"), Err(Fault::Failed));
    assert_eq!(rt; sink.put(b"h"), Ok(()));
    assert_eq!(rt; sink.bytes(), b"abcdh".as_slice());
    Ok(())
}

// A reader and a writer of which each call does what the next of these says: so many bytes at most are
// given, each an LF, or taken, or it fails so. At the end of the list it gives and takes nothing.
#[derive(Drop)]
struct Calls {
    calls: Vec<Result<usize, ErrorKind>>,
    next: usize,
}

impl Calls {
    fn new(alloc: Global, calls: &[Result<usize, ErrorKind>]) -> Result<Calls, AllocError> {
        let calls = Vec::from_slice(alloc, calls)?;
        Ok(Calls { calls, next: 0 })
    }

    fn call(&mut self, most: usize) -> io::Result<usize>
        ensures { IfOk result (λ count. count ≤ most) }
    {
        let call = self.calls.get(self.next);
        match call {
            None => Ok(0),
            Some(Ok(count)) => {
                self.next = self.next.saturating_add(1);
                Ok(most.min(*count))
            }
            Some(Err(kind)) => {
                self.next = self.next.saturating_add(1);
                Err(io::Error::from(*kind))
            }
        }
    }
}

impl Read for Calls {
    fn read(&mut self, buf: &mut [u8]) -> io::Result<usize> {
        let count = self.call(buf.len())?;
        buf.fill(b'\n');
        Ok(count)
    }
}

impl Write for Calls {
    fn write(&mut self, buf: &[u8]) -> io::Result<usize> {
        self.call(buf.len())
    }

    fn flush(&mut self) -> io::Result<()> {
        Ok(())
    }
}

#[test]
fn std_source(rt: HostRuntime) -> Result<(), Fail> {
    let calls = [
        Err(ErrorKind::Interrupted),
        Ok(1),
        Err(ErrorKind::Interrupted),
        Ok(1),
        Err(ErrorKind::NotFound),
        Err(ErrorKind::OutOfMemory),
    ];
    let mut source = StdSource::new(rt.alloc(), Calls::new(rt.alloc(), &calls)?)?;
    let mut line = Vec::new(rt.alloc());
    assert_eq!(rt; take_line(&mut source, &mut line, 3), Ok(NextLine::Whole));
    assert_eq!(rt; source.take(&mut [0u8; 4]), Ok(1));
    assert_eq!(rt; source.take(&mut [0u8; 4]), Err(Fault::Failed));
    assert_eq!(rt; take_line(&mut source, &mut line, 3), Err(Fault::Memory));
    assert_eq!(rt; take_line(&mut source, &mut line, 3), Ok(NextLine::End));
    Ok(())
}

#[test]
fn std_sink(rt: HostRuntime) -> Result<(), Fail> {
    let calls = [
        Err(ErrorKind::Interrupted),
        Ok(2),
        Ok(2),
        Err(ErrorKind::NotFound),
        Err(ErrorKind::OutOfMemory),
    ];
    let mut sink = StdSink::new(Calls::new(rt.alloc(), &calls)?);
    assert_eq!(rt; sink.put(b"abc"), Ok(()));
    assert_eq!(rt; sink.put(b"d"), Err(Fault::Failed));
    assert_eq!(rt; sink.put(b"d"), Err(Fault::Memory));
    assert_eq!(rt; sink.put(b"d"), Err(Fault::Failed));
    Ok(())
}

const SCRIPT: &str =
    "{\"kinds\":[\"city\"],\"agents\":[\"a\"],\"place\":[[\"city-o\",\"a\"]],\"tree\":{\"kind\":\"city\",\"id\":\"o\"}}\n{\"do\":\"query\",\"query\":\"/city[@id='o']\"}\n{\"do\":\"settle\"}\n";

const POSTED: &str = "{\"kind\":\"query\",\"post\":0,\"request\":0,\"to\":\"a\"}\n";

const ANSWERED: &str =
    "{\"answer\":[{\"at\":\"city-o\",\"is\":{\"attrs\":{},\"id\":\"o\",\"kind\":\"city\",\"nodes\":[],\"plain\":[]}}],\"cites\":[[\"city-o\",0,0]],\"newest\":true,\"request\":0}\n{\"settled\":1}\n";

// The status of that script, and what it writes, where these calls of the source and of the sink fail.
fn played(alloc: Global, reads: &[u64], writes: &[u64]) -> Result<(Status, Vec<u8>), Fail> {
    let script = Vec::from_slice(alloc, SCRIPT.as_bytes())?;
    let mut words = Vec::new(alloc);
    words.push(Text::of(alloc, "play")?)?;
    let mut source = MemorySource::new(script, 1, Vec::from_slice(alloc, reads)?);
    let mut sink = MemorySink::new(alloc, Vec::from_slice(alloc, writes)?);
    let status = play(alloc, &words, &mut source, &mut sink);
    Ok((status, Vec::from_slice(alloc, sink.bytes())?))
}

#[test]
fn a_script_and_its_faults(rt: HostRuntime) -> Result<(), Fail> {
    let (status, written) = played(rt.alloc(), &[], &[])?;
    assert_eq!(rt; status, Status::Done);
    assert!(rt; written.starts_with(POSTED.as_bytes()));
    assert!(rt; written.ends_with(ANSWERED.as_bytes()));
    let (status, written) = played(rt.alloc(), &[140], &[])?;
    assert_eq!(rt; status, Status::ReadFault);
    assert_eq!(rt; written.as_slice(), POSTED.as_bytes());
    let (status, written) = played(rt.alloc(), &[], &[1])?;
    assert_eq!(rt; status, Status::WriteFault);
    assert!(rt; written.starts_with(POSTED.as_bytes()));
    Ok(())
}
