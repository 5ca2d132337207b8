//! What a text of tests comes to.

ghost use Rattle.kb_test.specs.Tests.{AreTests};

use crate::heaps::append_numbers;
use crate::texts::append_text;
use kb_table::{RowResult, RowStop, append};
use kb_test::{Test, TestRefusal, read_tests, write_run, write_test};
use std::alloc::Global;

/// Appends the answer to a question about the text, in a world of so many literals:
///
/// - `read`: how many tests there are, or the first bad line, and whether they are written as they were;
/// - `cut`: the same of each front of the text, said once for each run of fronts of one answer, which begins with that many bytes;
/// - `run`: how the run of each test ends, as text;
/// - `numbers`: the objects of each test by their numbers in the heap.
pub fn append_answer(
    alloc: Global,
    question: &str,
    literals: u32,
    text: &[u8],
    into: &mut Vec<u8>,
) -> RowResult<()> {
    match question {
        "read" => append_read(alloc, literals, text, into),
        "cut" => append_cuts(alloc, literals, text, into),
        "run" => append_runs(alloc, literals, text, into),
        "numbers" => append_all_numbers(alloc, literals, text, into),
        _ => Err(RowStop::Malformed),
    }
}

fn append_read(alloc: Global, literals: u32, text: &[u8], into: &mut Vec<u8>) -> RowResult<()> {
    append_verdict(alloc, verdict(alloc, literals, text), into)?;
    append_again(alloc, literals, text, into)
}

/// How many tests are read.
fn verdict(alloc: Global, literals: u32, text: &[u8]) -> Result<usize, TestRefusal> {
    match read_tests(alloc, text, literals) {
        Ok(tests) => Ok(tests.as_slice().len()),
        Err(refusal) => Err(refusal),
    }
}

fn append_verdict(
    alloc: Global,
    verdict: Result<usize, TestRefusal>,
    into: &mut Vec<u8>,
) -> RowResult<()> {
    match verdict {
        Ok(tests) => append_count(alloc, "tests ", tests, "\n", into),
        Err(TestRefusal::TestLine(line)) => append_count(alloc, "bad line ", line, "\n", into),
        Err(TestRefusal::NoMemory) => append("no memory\n", into),
    }
}

/// Appends a number with what stands before and behind it.
fn append_count(
    alloc: Global,
    before: &str,
    count: usize,
    behind: &str,
    into: &mut Vec<u8>,
) -> RowResult<()> {
    let piece = format!(in alloc; "{before}{count}{behind}")?;
    append(piece.as_str(), into)
}

/// Says where the tests are written otherwise than they were.
fn append_again(alloc: Global, literals: u32, text: &[u8], into: &mut Vec<u8>) -> RowResult<()> {
    let Ok(tests) = read_tests(alloc, text, literals) else {
        return Ok(());
    };
    let again = written(alloc, tests.as_slice(), literals)?;
    if again.as_slice() == text {
        return Ok(());
    }
    append("written otherwise: ", into)?;
    append_text(again.as_slice(), into)
}

fn written(alloc: Global, tests: &[Test], literals: u32) -> RowResult<Vec<u8>>
    requires { AreTests literals tests.now }
{
    let mut text = Vec::new(alloc);
    let mut rest = tests;
    while let [test, others @ ..] = rest {
        let Ok(()) = write_test(alloc, test, literals, &mut text) else {
            return Err(RowStop::Malformed);
        };
        rest = others;
    }
    Ok(text)
}

/// A line for the first of each run of fronts that have one answer.
fn append_cuts(alloc: Global, literals: u32, text: &[u8], into: &mut Vec<u8>) -> RowResult<()> {
    let mut last = None;
    for (end, _) in text.iter().enumerate() {
        let now = verdict(alloc, literals, &text[..end]);
        if last != Some(now) {
            append_count(alloc, "from ", end, ": ", into)?;
            append_verdict(alloc, now, into)?;
            last = Some(now);
        }
    }
    Ok(())
}

fn append_runs(alloc: Global, literals: u32, text: &[u8], into: &mut Vec<u8>) -> RowResult<()> {
    let Ok(tests) = read_tests(alloc, text, literals) else {
        return Err(RowStop::Malformed);
    };
    for test in tests.as_slice() {
        append_run(alloc, literals, test, into)?;
    }
    Ok(())
}

fn append_run(alloc: Global, literals: u32, test: &Test, into: &mut Vec<u8>) -> RowResult<()> {
    let Ok(inputs) = u32::try_from(test.input.heap.objects.as_slice().len()) else {
        return Err(RowStop::Malformed);
    };
    let mut run = Vec::new(alloc);
    match write_run(alloc, &test.ending, &test.heap, inputs, literals, &mut run) {
        Ok(()) => append_text(run.as_slice(), into),
        Err(_) => Err(RowStop::Malformed),
    }
}

fn append_all_numbers(
    alloc: Global,
    literals: u32,
    text: &[u8],
    into: &mut Vec<u8>,
) -> RowResult<()> {
    let Ok(tests) = read_tests(alloc, text, literals) else {
        return Err(RowStop::Malformed);
    };
    for test in tests.as_slice() {
        append_numbers(alloc, test, into)?;
    }
    Ok(())
}
