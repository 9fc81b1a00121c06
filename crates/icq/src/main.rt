//! The program: the words, standard input and standard output handed to `icq_top`. Nothing else is here.
#![tactic(auto)]

use ic_edge::{StdSink, StdSource};
use icq_top::{Report, Stop, refuse, sim_command};
use std::process::ExitCode;
use std::{env, io};

/// The arguments after the program's name.
fn words(rt: &HostRuntime) -> io::Result<Vec<String>> {
    let mut words = Vec::new(rt.alloc());
    for word in env::args(rt)?.skip(1) {
        words.push(word)?;
    }
    Ok(words)
}

/// The answer to words that can't be had. Words that aren't text are none of the command's.
fn without_words(rt: &HostRuntime, error: &io::Error) -> Report {
    let mut sink = StdSink::new(io::writer(rt));
    match error.kind() {
        io::ErrorKind::OutOfMemory => refuse(rt.alloc(), &mut sink, &Stop::Memory),
        _ => refuse(rt.alloc(), &mut sink, &Stop::Usage),
    }
}

/// The answer to the words.
fn with_words(rt: &HostRuntime, words: &[String]) -> Report {
    let mut source = StdSource::new(rt.reader());
    let mut sink = StdSink::new(io::writer(rt));
    sim_command(rt.alloc(), words, &mut source, &mut sink)
}

fn main(rt: HostRuntime) -> ExitCode {
    let report = match words(&rt) {
        Ok(words) => with_words(&rt, words.as_slice()),
        Err(error) => without_words(&rt, &error),
    };
    ExitCode::from(report.status)
}
