//! Logs are written.
ghost use Rattle.std.specs.Prelude.{◌≡◌, ◌∷◌, [], ◌++◌, length, map, take, string_bytes, IfOk, OnOk, OnErr};
ghost use Rattle.std.specs.List.{flat_map};
ghost use Rattle.kb_grammar.specs.Lines.{lines_text};
ghost use Rattle.kb_log_text.specs.Lines.{step_text, learn_line, learn_lines};

use crate::NoMemory;
use kb_chain::{Chain, Log};
use std::alloc::{AllocError, Global};

/// Appends the lines of a log.
pub fn write_log(alloc: Global, log: &Log, into: &mut Vec<u8>) -> Result<(), NoMemory>
    ensures ok { OnOk result (into.new.items ≡ into.old.items ++ lines_text (learn_lines log.now)) }
    ensures err { OnErr result (into.new.items ≡ into.old.items) }
{
    let start = into.len();
    let written = append_entries(alloc, log.entries.as_slice(), into);
    if written.is_err() {
        into.truncate(start);
    }
    written
}

// After an `Err` it leaves a part of what it writes.
fn append_entries(alloc: Global, entries: &[Chain], into: &mut Vec<u8>) -> Result<(), NoMemory>
    ensures ok { OnOk result (into.new.items ≡ into.old.items ++ lines_text (map learn_line entries.now)) }
    ensures kept { take (length into.old.items) into.new.items ≡ into.old.items }
{
    let mut rest = entries;
    while let [entry, others @ ..] = rest {
        let line = entry_line(alloc, entry)?;
        into.extend_from_slice(line.as_bytes())?;
        rest = others;
    }
    Ok(())
}

#[tactic(auto, unfolding(crate::specs::Lines::learn_line))]
fn entry_line(alloc: Global, entry: &Chain) -> Result<String, AllocError>
    ensures { IfOk result (λ line. string_bytes line ≡ learn_line entry.now ++ 10 ∷ []) }
{
    let mut line = String::new(alloc);
    let start = entry.start;
    write!(line, "learn {start}")?;
    write_steps(&mut line, entry.steps.as_slice())?;
    writeln!(line)?;
    Ok(line)
}

#[tactic(auto, unfolding(crate::specs::Lines::step_text))]
fn write_steps(line: &mut String, steps: &[(u32, u32)]) -> Result<(), AllocError>
    ensures { OnOk result (string_bytes line.new ≡ string_bytes line.old ++ flat_map step_text steps.now) }
{
    for (pivot, clause) in steps {
        write!(line, " {pivot} {clause}")?;
    }
    Ok(())
}
