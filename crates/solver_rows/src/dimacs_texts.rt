//! Questions about texts in the DIMACS format, and about what is written of them.

use crate::formulas::read_log;
use crate::log_lines::{append_line, append_lines};
use kb_chain::{Formula, Log, Verdict, check_fresh, check_refutation};
use kb_dimacs_text::{Answer, answer_solved, read_dimacs, read_request, run};
use kb_outside::{OutSink, ShelfStop, Sink};
use kb_questions::append_place;
use kb_sat::Solved;
use kb_table::{RowResult, RowStop, kept, read_number};
use std::alloc::Global;

/// A text that is written on one line: `\n`, `\t` and `\r` stand for bytes that end lines or are white, and `\e` for nothing.
pub(crate) fn unescaped(alloc: Global, text: &str) -> RowResult<String> {
    let mut pieces = text.split('\\');
    let mut whole = String::new(alloc);
    if let Some(first) = pieces.next() {
        whole.push_str(first)?;
    }
    for piece in pieces {
        push_escaped(&mut whole, piece)?;
    }
    Ok(whole)
}

fn push_escaped(whole: &mut String, piece: &str) -> RowResult<()> {
    for (name, byte) in [("n", "\n"), ("t", "\t"), ("r", "\r"), ("e", "")] {
        if let Some(others) = piece.strip_prefix(name) {
            whole.push_str(byte)?;
            return Ok(whole.push_str(others)?);
        }
    }
    Err(RowStop::Malformed)
}

/// The words of a command line.
fn command_words(alloc: Global, line: &str) -> RowResult<Vec<String>> {
    let mut words = Vec::new(alloc);
    if line.is_empty() {
        return Ok(words);
    }
    for word in line.split(' ') {
        words.push(unescaped(alloc, word)?)?;
    }
    Ok(words)
}

/// Appends the formula that a text spells.
pub fn append_cnf(alloc: Global, text: &str, into: &mut String) -> RowResult<()> {
    let text = unescaped(alloc, text)?;
    match read_dimacs(alloc, text.as_bytes()) {
        Ok(formula) => append_formula(&formula, into),
        Err(_) => Err(RowStop::NoMemory),
    }
}

fn append_formula(formula: &Formula, into: &mut String) -> RowResult<()> {
    let (variables, clauses) = (formula.vars(), formula.clauses().len());
    write!(into, "{variables} variables, {clauses} clauses ")?;
    for clause in formula.clauses() {
        append_place(Some(clause), into)?;
    }
    Ok(())
}

/// Appends the budget that words ask for, and whether the log is to be checked.
pub fn append_words(alloc: Global, line: &str, into: &mut String) -> RowResult<()> {
    let words = command_words(alloc, line)?;
    match read_request(words.as_slice()) {
        Some(request) => Ok(write!(into, "{} {}", request.budget, request.check)?),
        None => Ok(into.push_str("none")?),
    }
}

/// Appends the status with which the program ends, and the last lines that it writes, `/` for the end of each: how many lines,
/// the words of the command line, and then the input, `unread` where it cannot be read.
pub fn append_run(alloc: Global, text: &str, into: &mut String) -> RowResult<()> {
    let Some((lines, asked)) = text.split_once(' ') else {
        return Err(RowStop::Malformed);
    };
    let lines = read_number(lines)? as usize;
    let mut out = Vec::new(alloc);
    let code = run_into(alloc, asked, &mut out)?;
    write!(into, "{code} ")?;
    append_written(out, lines, into)
}

fn append_written(written: Vec<u8>, lines: usize, into: &mut String) -> RowResult<()> {
    let text = kept(String::from_utf8(written))?;
    append_last_lines(text.as_str(), lines, into)
}

fn append_last_lines(text: &str, lines: usize, into: &mut String) -> RowResult<()> {
    let before = text.lines().count().saturating_sub(lines);
    for line in text.lines().skip(before) {
        append_line(line, into)?;
    }
    Ok(())
}

/// Runs the program on words and an input, and appends what it writes.
fn run_into(alloc: Global, asked: &str, text: &mut Vec<u8>) -> RowResult<u8> {
    let mut out = OutSink::new(text);
    run_on(alloc, asked, &mut out)
}

/// Runs the program on words and an input, and gives its exit status.
fn run_on<K: Sink>(alloc: Global, asked: &str, out: &mut K) -> RowResult<u8> {
    let Some((line, input)) = asked.split_once(", ") else {
        return Err(RowStop::Malformed);
    };
    let words = command_words(alloc, line)?;
    let input = read_input(alloc, input)?;
    Ok(run(alloc, words.as_slice(), input, out).number())
}

fn read_input(alloc: Global, input: &str) -> RowResult<Result<Vec<u8>, ShelfStop>> {
    if input == "unread" {
        return Ok(Err(ShelfStop::Failed));
    }
    Ok(Ok(unescaped(alloc, input)?.into_bytes()))
}

/// Appends the status with which the program ends where its output has room for so many bytes alone.
pub fn append_full(alloc: Global, text: &str, into: &mut String) -> RowResult<()> {
    let Some((room, asked)) = text.split_once(' ') else {
        return Err(RowStop::Malformed);
    };
    let room = read_number(room)? as usize;
    let code = run_within(alloc, room, asked)?;
    Ok(write!(into, "{code}")?)
}

fn run_within(alloc: Global, room: usize, asked: &str) -> RowResult<u8> {
    let mut room = vec![in alloc; 0u8; room]?;
    let mut out = OutSink::new(room.as_mut_slice());
    run_on(alloc, asked, &mut out)
}

/// Appends what is said of a formula with a good log: `refuted` or `open`, then `check` where the log is checked or `plain`, and
/// the log.
pub fn append_said(
    alloc: Global,
    formula: &Formula,
    text: &str,
    into: &mut String,
) -> RowResult<()> {
    let Some((outcome, others)) = text.split_once(' ') else {
        return Err(RowStop::Malformed);
    };
    let Some((check, log)) = others.split_once(' ') else {
        return Err(RowStop::Malformed);
    };
    let log = read_log(alloc, log)?;
    let answer = answer_to(alloc, formula, outcome, log, check == "check")?;
    append_said_of(&answer, into)
}

fn append_said_of(answer: &Answer, into: &mut String) -> RowResult<()> {
    let status = answer.status.number();
    write!(into, "{status} ")?;
    append_lines(answer.text.as_str(), into)
}

fn answer_to(
    alloc: Global,
    formula: &Formula,
    outcome: &str,
    log: Log,
    check: bool,
) -> RowResult<Answer> {
    match outcome {
        "refuted" => refuted_answer(alloc, formula, log, check),
        "open" => open_answer(alloc, formula, log, check),
        _ => Err(RowStop::Malformed),
    }
}

fn refuted_answer(alloc: Global, formula: &Formula, log: Log, check: bool) -> RowResult<Answer> {
    let Ok(Verdict::Good) = check_refutation(alloc, formula, &log) else {
        return Err(RowStop::Malformed);
    };
    kept(answer_solved(alloc, formula, &Solved::Unsat(log), check))
}

fn open_answer(alloc: Global, formula: &Formula, log: Log, check: bool) -> RowResult<Answer> {
    let Ok(Verdict::Good) = check_fresh(alloc, formula, &log) else {
        return Err(RowStop::Malformed);
    };
    kept(answer_solved(alloc, formula, &Solved::Undecided(log), check))
}
