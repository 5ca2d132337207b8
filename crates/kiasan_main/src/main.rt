//! The program: the top call over the files and the standard output of the system.
#![tactic(auto)]

mod program;

use kb_outside::{FileShelf, OutSink, command_words};
use program::run;
use std::process::ExitCode;
use std::{env, io};

/// Runs the program on the words of the command line.
fn main(rt: HostRuntime) -> ExitCode {
    let words = command_words(rt.alloc(), env::args(&rt));
    let mut shelf = FileShelf::new(&rt);
    let mut out = OutSink::new(io::writer(&rt));
    run(&rt, words, &mut shelf, &mut out)
}
