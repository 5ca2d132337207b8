//! Logs are read.
ghost use Rattle.std.specs.Prelude.{◌≡◌, ℕ, List, ◌++◌, IfOk, IfErr, MatchOption};
ghost use Rattle.kb_chain.specs.declared.log.Log.{Log};
ghost use Rattle.kb_grammar.specs.Lines.{IsRead, IsTail};
ghost use Rattle.kb_grammar.specs.LineFormats.{SpellsByLines, ReadsByLines, RefusesLines};
ghost use Rattle.kb_log_text.specs.Lines.{step_text, IsStep, SpellsSteps, SpellsChain, SpellsLog};

use crate::NoMemory;
use kb_chain::{Chain, Log, Row};
use kb_grammar::{LineFormat, LineRefusal, number_before, read_lines};
use std::alloc::Global;

/// The log that the text spells: each of its lines is that of an entry.
pub fn read_log(alloc: Global, text: &[u8]) -> Result<Log, LineRefusal<NoMemory>>
    ensures found { IfOk result (λ log. SpellsByLines SpellsLog log text.now) }
    ensures only { (log : Log) → SpellsByLines SpellsLog log text.now → ReadsByLines result log }
    ensures bad { IfErr result (RefusesLines SpellsLog text.now) }
{
    read_lines(&LogFormat { alloc }, text)
}

// The texts of logs. Each front of one is a log too.
#[derive(Drop)]
struct LogFormat {
    alloc: Global,
}

impl LineFormat for LogFormat {
    type Front = Log;

    type Whole = Log;

    type Stop = NoMemory;

    ghost spells = { λ format. SpellsLog };

    ghost stands_behind = { λ format. SpellsLog };

    fn start(&self) -> Log {
        Log {
            entries: Row::new(self.alloc),
        }
    }

    fn read_line(&self, front: Log, line: &[u8]) -> Result<Option<Log>, NoMemory> {
        let Some(entry) = read_chain(self.alloc, line)? else {
            return Ok(None);
        };
        Ok(Some(Log {
            entries: front.entries.with(entry)?,
        }))
    }

    fn end(&self, front: Log) -> Option<Log> {
        Some(front)
    }
}

/// The chain that the line spells.
#[tactic(auto, unfolding(crate::specs::Lines::learn_line))]
pub fn read_chain(alloc: Global, line: &[u8]) -> Result<Option<Chain>, NoMemory>
    ensures { IfOk result (IsRead SpellsChain line.now) }
{
    let Some((start, rest)) = number_before(line, b"learn ", b' ') else {
        return Ok(None);
    };
    match read_steps(alloc, rest)? {
        Some(steps) => Ok(Some(Chain { start, steps })),
        None => Ok(None),
    }
}

// The steps that the text spells.
fn read_steps(alloc: Global, text: &[u8]) -> Result<Option<Row<(u32, u32)>>, NoMemory>
    ensures { IfOk result (IsRead SpellsSteps text.now) }
{
    let mut steps = Row::new(alloc);
    let mut rest = text;
    while let Some((step, others)) = next_step(rest) {
        steps.push(step)?;
        rest = others;
    }
    if !rest.is_empty() {
        return Ok(None);
    }
    Ok(Some(steps))
}

// The step with which the text begins, and what stands behind it.
#[tactic(auto, unfolding(crate::specs::Lines::step_text))]
fn next_step(text: &[u8]) -> Option<((u32, u32), &[u8])>
    ensures { MatchOption result
        ((step : ℕ × ℕ) (rest : List ℕ) → IsStep step → IsTail 32 rest → text.now ≡ step_text step ++ rest → ⊥)
        (λ parts. IsStep parts.0 × IsTail 32 parts.1.now × (text.now ≡ step_text parts.0 ++ parts.1.now)) }
{
    let (pivot, others) = number_before(text, b" ", b' ')?;
    let (clause, rest) = number_before(others, b" ", b' ')?;
    Some(((pivot, clause), rest))
}
