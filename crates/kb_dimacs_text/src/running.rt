//! The program, over the words of its command line, what came of reading its input, and any sink.
ghost use Rattle.std.specs.Prelude.{map, string_bytes};
ghost use Rattle.kb_dimacs_text.specs.Answers.{Owes, Says, SaysOf, SaysOfStop, Sends};

use crate::NoMemory;
use crate::answering::dimacs;
use crate::status::Status;
use kb_outside::{ShelfStop, Sink, send_all};
use std::alloc::Global;

/// Writes the whole answer, and says how the program ends. The input is what was read, or why there is nothing of it.
pub fn run<K: Sink>(
    alloc: Global,
    words: &[String],
    input: Result<Vec<u8>, ShelfStop>,
    out: &mut K,
) -> Status
    ensures { Owes (Says (map string_bytes words.now) input) (K.written out.old, K.written out.new) (K.faults out.old, K.faults out.new) result }
{
    match input {
        Ok(input) => answer(alloc, words, input.as_slice(), out),
        Err(stop) => tell(stop, out),
    }
}

/// Writes what there is to say where nothing was read.
#[tactic(auto, using(crate::proofs::AnswerLaws::owes_fault, crate::proofs::AnswerLaws::owes_no_room))]
fn tell<K: Sink>(stop: ShelfStop, out: &mut K) -> Status
    ensures { Owes (SaysOfStop stop) (K.written out.old, K.written out.new) (K.faults out.old, K.faults out.new) result }
{
    match stop {
        ShelfStop::Failed => send(out, Status::ReadFault, "c the input could not be read\n"),
        ShelfStop::NoMemory => send(out, Status::Memory, "c out of memory\n"),
    }
}

/// Writes what there is to say of an input that was read.
#[tactic(auto, using(crate::proofs::AnswerLaws::owes_want))]
fn answer<K: Sink>(alloc: Global, words: &[String], input: &[u8], out: &mut K) -> Status
    ensures { Owes (SaysOf (map string_bytes words.now) input.now) (K.written out.old, K.written out.new) (K.faults out.old, K.faults out.new) result }
{
    match dimacs(alloc, words, input) {
        Ok(answer) => send(out, answer.status, answer.text.as_str()),
        Err(NoMemory) => send(out, Status::Memory, "c out of memory\n"),
    }
}

/// Writes the whole text, and gives its status, or that of a failed write.
fn send<K: Sink>(out: &mut K, status: Status, text: &str) -> Status
    ensures { Sends status text.now (K.written out.old, K.written out.new) (K.faults out.old, K.faults out.new) result }
{
    match send_all(out, text.as_bytes()) {
        Ok(()) => status,
        Err(_) => Status::WriteFault,
    }
}
