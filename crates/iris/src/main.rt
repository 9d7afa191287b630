//! The program `iris`: plays the script of its standard input.
#![tactic(auto)]

use iris_cli::{Status, StdSink, StdSource, play};
use iris_tree::Text;
use std::alloc::{AllocError, Global};
use std::process::ExitCode;
use std::{env, io};

// The words after the program's name.
fn words(rt: &HostRuntime) -> io::Result<Vec<Text>> {
    let mut words = Vec::new(rt.alloc());
    for word in env::args(rt)?.skip(1) {
        words.push(Text::from_string(word))?;
    }
    Ok(words)
}

// Plays the script, and says on standard error where the words are wrong.
fn run(rt: &HostRuntime) -> io::Result<Status> {
    let words = words(rt)?;
    let mut source = StdSource::new(rt.alloc(), rt.reader())?;
    let mut sink = StdSink::new(io::writer(rt));
    let status = play(rt.alloc(), &words, &mut source, &mut sink);
    if status == Status::Usage {
        eprintln!(rt; "iris: usage")?;
    }
    Ok(status)
}

fn main(rt: HostRuntime) -> ExitCode {
    match run(&rt) {
        Ok(status) => ExitCode::from(status.number()),
        Err(_) => ExitCode::from(Status::Memory.number()),
    }
}
