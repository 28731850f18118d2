//! Bounds for discounted zero-sum one-sided partially observable stochastic games: the words of the command line, the
//! top call, and the program.
#![tactic(auto)]

mod answer;
mod check;
mod close;
#[cfg(test)]
mod close_tests;
mod command;
#[cfg(test)]
mod end_tests;
mod floor;
#[cfg(test)]
mod gen_tests;
mod generate;
mod inputs;
#[cfg(test)]
mod lenient_tests;
mod plays;
mod refusals;
#[cfg(test)]
mod round_tests;
mod show;
mod solve;
#[cfg(test)]
mod solve_tests;
#[cfg(test)]
mod start_tests;
mod status;
mod summary;
#[cfg(test)]
mod tests;
#[cfg(test)]
mod word_tests;
mod words;

pub use command::run;
use hsvi_io::{StdSink, StdSource};
pub use status::Status;
use std::env;
use std::io::{self, ErrorKind};
use std::process::ExitCode;

/// The exit code where the system does not give the words as texts.
const WORDS_UNREADABLE: u8 = 11;

/// Runs the command that the program's words name, over standard input and output. The exit code is the status.
fn main(rt: HostRuntime) -> ExitCode {
    let mut words = Vec::new(rt.alloc());
    let given = match env::args(&rt) {
        Ok(given) => given,
        Err(fault) => return ExitCode::from(unread_words(fault.kind())),
    };
    for word in given.skip(1) {
        if words.push(word).is_err() {
            return ExitCode::from(Status::OutOfMemory.code());
        }
    }
    let mut input = StdSource::new(rt.stdin());
    let mut output = StdSink::new(rt.stdout());
    ExitCode::from(run(rt.alloc(), &words, &mut input, &mut output).code())
}

/// The exit code where the words could not be taken.
fn unread_words(kind: ErrorKind) -> u8 {
    match kind {
        ErrorKind::OutOfMemory => Status::OutOfMemory.code(),
        _ => WORDS_UNREADABLE,
    }
}
