//! Reads a formula in the DIMACS format from standard input and writes what the solver says of it.
#![tactic(auto)]

use kb_dimacs_text::run;
use kb_outside::{OutSink, Watched, command_words, read_whole};
use std::process::ExitCode;
use std::{env, io};

/// Calls `run` on the words of the command line and the standard input, over the standard output. Where there are no words
/// nothing is written.
fn main(rt: HostRuntime) -> ExitCode {
    let words = match command_words(rt.alloc(), env::args(&rt)) {
        Ok(words) => words,
        Err(stop) => return ExitCode::from(stop.code()),
    };
    let input = read_whole(rt.alloc(), &mut Watched::new(rt.reader()));
    let mut out = OutSink::new(io::writer(&rt));
    ExitCode::from(run(rt.alloc(), words.as_slice(), input, &mut out).number())
}
