//! What an oracle is told.

use kb_chain::Log;
use kb_log_text::{LineRefusal, read_log};
use kb_oracle::Told;
use kb_table::{RowResult, RowStop, read_number};
use std::alloc::Global;

/// What the oracle of a row is told: each word behind the target that has no `=`.
pub fn read_all_told(alloc: Global, line: &str) -> RowResult<Vec<(u64, Told)>> {
    let mut told = Vec::new(alloc);
    for word in line.split(' ').skip(1) {
        if word.split_once('=').is_none() {
            told.push(read_told(alloc, word)?)?;
        }
    }
    Ok(told)
}

/// What is told for which call, as in `0:bad7`, `1:memory` and `1:log:225,36,232`.
fn read_told(alloc: Global, word: &str) -> RowResult<(u64, Told)> {
    let Some((call, what)) = word.split_once(':') else {
        return Err(RowStop::Malformed);
    };
    let call = u64::from(read_number(call)?);
    if what == "memory" {
        return Ok((call, Told::NoMemory));
    }
    if let Some(number) = what.strip_prefix("bad") {
        return Ok((call, Told::Bad(read_number(number)?)));
    }
    match what.strip_prefix("log:") {
        Some(log) => Ok((call, Told::Undecided(log_of(alloc, log)?))),
        None => Err(RowStop::Malformed),
    }
}

/// A log: chains, with `/` between two, each the numbers of a line `learn` with `,` between two.
fn log_of(alloc: Global, text: &str) -> RowResult<Log> {
    let mut lines = String::new(alloc);
    for chain in text.split('/') {
        add_line(chain, &mut lines)?;
    }
    match read_log(alloc, lines.as_bytes()) {
        Ok(log) => Ok(log),
        Err(LineRefusal::BadLine(_)) => Err(RowStop::Malformed),
        Err(LineRefusal::Stopped(_)) => Err(RowStop::NoMemory),
    }
}

fn add_line(chain: &str, lines: &mut String) -> RowResult<()> {
    lines.push_str("learn")?;
    for number in chain.split(',') {
        write!(lines, " {number}")?;
    }
    Ok(lines.push_str("\n")?)
}
