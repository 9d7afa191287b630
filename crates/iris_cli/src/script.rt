//! A script, line by line.
ghost use Rattle.std.specs.Prelude.{◌≡◌, ◌+◌, ◌≤◌};
ghost use Rattle.iris_base.specs.declared.limits.TheConstants.{MAX_LINES, MAX_SCRIPT_BYTES};
ghost use Rattle.iris_base.specs.Outside.{HasCause};
ghost use Rattle.iris_cli.specs.Taken.{max_line_bytes, TakesNext};

use crate::halt::Halt;
use crate::line::{NextLine, take_line};
use crate::source::Source;
use iris_json::{Which, Why};
use iris_tree::{MAX_CITY_BYTES, MAX_LINE_BYTES, MAX_LINES, MAX_SCRIPT_BYTES};
use std::alloc::Global;
use std::marker::Model;

/// A script that is read line by line.
#[derive(Debug, Drop)]
pub struct Script {
    line: Vec<u8>,
    number: u64,
    // How many bytes it may still have.
    room: usize,
}

impl Model for Script {
    ghost use Rattle.std.specs.Prelude.{◌≤◌};
    ghost use Rattle.iris_base.specs.declared.limits.TheConstants.{MAX_LINES, MAX_SCRIPT_BYTES};
    ghost use Rattle.iris_cli.specs.Taken.{ScriptState};

    ghost Value = { ScriptState };

    ghost view = { λ s. record { line = s.line.items; number = s.number; room = s.room } };

    ghost invariant = { λ s. (s.number ≤ MAX_LINES) × (s.room ≤ MAX_SCRIPT_BYTES) };
}

// That the limit of that number is passed by one.
fn past(which: Which, most: u64) -> Halt
    requires { most ≤ MAX_SCRIPT_BYTES }
    ensures { result ≡ Halt.Limit which (most + 1) }
{
    Halt::Limit {
        which,
        count: most + 1,
    }
}

// The greatest number of bytes of the line after so many, without its LF.
fn max_line_bytes(number: u64) -> usize
    ensures { result ≡ max_line_bytes number }
{
    if number == 0 {
        MAX_CITY_BYTES
    } else {
        MAX_LINE_BYTES
    }
}

impl Script {
    /// A script of which nothing is read.
    pub fn new(alloc: Global) -> Script
        ensures number { result.number ≡ 0 }
        ensures room { result.room ≡ MAX_SCRIPT_BYTES }
    {
        Script {
            line: Vec::new(alloc),
            number: 0,
            room: MAX_SCRIPT_BYTES,
        }
    }

    /// The present line, without its LF.
    pub fn line(&self) -> &[u8]
        ensures { result.now ≡ self.now.line }
    {
        self.line.as_slice()
    }

    /// The number of the present line, from 1.
    pub fn number(&self) -> u64
        ensures { result ≡ self.now.number }
    {
        self.number
    }

    // Takes the one byte after which the script has too many lines.
    fn next_past<S: Source>(&mut self, source: &mut S) -> Result<bool, Halt>
        requires full { self.old.number ≡ MAX_LINES }
        ensures took { TakesNext self.old (S.left source.old) (S.left source.new) self.new result }
        ensures cause { HasCause Halt.ReadFault (S.faults source.old) (S.faults source.new) result }
    {
        let next = match take_line(source, &mut self.line, 0) {
            Ok(next) => next,
            Err(fault) => return Err(Halt::of_source(fault)),
        };
        if next == NextLine::End {
            return Ok(false);
        }
        if self.room == 0 {
            return Err(past(Which::Script, MAX_SCRIPT_BYTES as u64));
        }
        Err(past(Which::Lines, MAX_LINES))
    }

    /// Takes the next line, and answers whether there is one.
    pub fn next<S: Source>(&mut self, source: &mut S) -> Result<bool, Halt>
        ensures took { TakesNext self.old (S.left source.old) (S.left source.new) self.new result }
        ensures cause { HasCause Halt.ReadFault (S.faults source.old) (S.faults source.new) result }
    {
        if self.number == MAX_LINES {
            return self.next_past(source);
        }
        let first = self.number == 0;
        let most = max_line_bytes(self.number);
        self.number += 1;
        match take_line(source, &mut self.line, most.min(self.room)) {
            Ok(NextLine::Whole) if self.line.len() < self.room => {
                self.room -= self.line.len() + 1;
                Ok(true)
            }
            Ok(NextLine::Whole) => Err(past(Which::Script, MAX_SCRIPT_BYTES as u64)),
            Ok(NextLine::End) if first => Err(Halt::bad_line(Why::Empty)),
            Ok(NextLine::End) => Ok(false),
            Ok(NextLine::Cut) => Err(Halt::bad_line(Why::Truncated)),
            Ok(NextLine::Long) if most <= self.room => Err(past(Which::Line, most as u64)),
            Ok(NextLine::Long) => Err(past(Which::Script, MAX_SCRIPT_BYTES as u64)),
            Err(fault) => Err(Halt::of_source(fault)),
        }
    }
}
