//! How a run ends, as the text of a test writes it.
ghost use Rattle.std.specs.Prelude.{◌≡◌, IfOk, MatchOption};
ghost use Rattle.kb_grammar.specs.Lines.{IsRead};
ghost use Rattle.kb_test_lines.specs.Words.{SpellsReferenceBehind};
ghost use Rattle.kb_test_lines.specs.Lines.{bound_of, SpellsOutcome, SpellsPlainOutcome, SpellsPlaceLine, SpellsPastLine, outcome_below};
ghost use Rattle.kb_test_lines.specs.declared.outcomes.RunBound.{RunBound};

use crate::NoMemory;
use crate::words::{Limits, Reference, Word, read_reference, word_behind};
use kb_grammar::{behind, is_line};
use kb_heap::{Bound, Place};
use kb_heap_words::{read_bound, read_place};
use kb_rows::Held;
use std::alloc::Global;

/// A bound of a run.
#[derive(Clone, Copy)]
pub enum RunBound {
    Alloc,
    Loops,
    Depth,
    Steps,
}

/// How a run ends.
#[derive(Drop)]
pub enum Outcome {
    Returns(Option<Word>),
    Throws(Reference),
    IllTyped(Held<Place>),
    Past(RunBound),
}

impl Limits {
    /// Whether the object that it names, if it names one, is below its limit.
    pub fn has_outcome(self, outcome: &Outcome) -> bool
        ensures { result ≡ outcome_below self outcome.now }
    {
        match outcome {
            Outcome::Returns(Some(word)) => self.has_word(*word),
            Outcome::Throws(reference) => self.has_reference(*reference),
            Outcome::Returns(None) | Outcome::IllTyped(_) | Outcome::Past(_) => true,
        }
    }
}

fn read_place_line(alloc: Global, line: &[u8]) -> Result<Option<Held<Place>>, NoMemory>
    ensures { IfOk result (IsRead SpellsPlaceLine line.now) }
{
    match behind(line, b"illtyped ") {
        Some(text) => read_place(alloc, text),
        None => Ok(None),
    }
}

// The bound, if one of runs.
fn run_bound(bound: Bound) -> Option<RunBound>
    ensures { MatchOption result ((run : RunBound) → bound ≡ bound_of run → ⊥) (λ run. bound ≡ bound_of run) }
{
    match bound {
        Bound::K | Bound::Array => None,
        Bound::Alloc => Some(RunBound::Alloc),
        Bound::Loops => Some(RunBound::Loops),
        Bound::Depth => Some(RunBound::Depth),
        Bound::Steps => Some(RunBound::Steps),
    }
}

fn read_past_line(line: &[u8]) -> Option<RunBound>
    ensures { IsRead SpellsPastLine line.now result }
{
    let rest = behind(line, b"past ")?;
    let bound = read_bound(rest)?;
    run_bound(bound)
}

// An object behind that front.
fn reference_behind(line: &[u8], front: &[u8]) -> Option<Reference>
    ensures { IsRead (SpellsReferenceBehind front.now) line.now result }
{
    read_reference(behind(line, front)?)
}

// An ending that names no method.
#[tactic(auto, unfolding(crate::specs::Lines::outcome_text))]
fn read_plain_outcome(line: &[u8]) -> Option<Outcome>
    ensures { IsRead SpellsPlainOutcome line.now result }
{
    if is_line(line, b"returns") {
        return Some(Outcome::Returns(None));
    }
    if let Some(word) = word_behind(line, b"returns ") {
        return Some(Outcome::Returns(Some(word)));
    }
    if let Some(reference) = reference_behind(line, b"throws ") {
        return Some(Outcome::Throws(reference));
    }
    Some(Outcome::Past(read_past_line(line)?))
}

#[tactic(auto, unfolding(crate::specs::Lines::outcome_text))]
pub(crate) fn read_outcome(alloc: Global, line: &[u8]) -> Result<Option<Outcome>, NoMemory>
    ensures { IfOk result (IsRead SpellsOutcome line.now) }
{
    if let Some(place) = read_place_line(alloc, line)? {
        return Ok(Some(Outcome::IllTyped(place)));
    }
    Ok(read_plain_outcome(line))
}
