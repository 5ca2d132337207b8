//! The decisions of a path, and the first line of its leaf, are read.
ghost use Rattle.std.specs.Prelude.{◌≡◌, ℕ, List, ◌∷◌, IfOk, MatchOption};
ghost use Rattle.kb_grammar.specs.Lines.{IsRead};
ghost use Rattle.kb_path_words.specs.Spelled.{SpellsFurther, SpellsDecisions, SpellsOutBehind, SpellsPlainEnding, SpellsEndingPlace, SpellsEnding, SpellsCut};

use crate::NoMemory;
use crate::reading::read_out;
use kb_grammar::{behind, is_line, number_before};
use kb_heap::{Bound, Place};
use kb_heap_words::{read_bound, read_place};
use kb_picture::{Out, Row, SymEnding};
use kb_rows::Held;
use std::alloc::Global;

/// The decisions, joined by dots.
#[tactic(auto, unfolding(crate::specs::Lines::decisions_text))]
pub fn read_decisions(alloc: Global, word: &[u8]) -> Result<Option<Row<u32>>, NoMemory>
    ensures { IfOk result (IsRead SpellsDecisions word.now) }
{
    if is_line(word, b"-") {
        return Ok(Some(Row::new(alloc)));
    }
    match number_before(word, b"", b'.') {
        Some((first, rest)) => read_further(alloc, first, rest),
        None => Ok(None),
    }
}

// The decision, and behind it those that the text spells.
fn read_further(alloc: Global, first: u32, text: &[u8]) -> Result<Option<Row<u32>>, NoMemory>
    ensures { IfOk result (λ read. MatchOption read
        ((others : List ℕ) → SpellsFurther others text.now → ⊥)
        (λ decisions. (others : List ℕ) × (decisions ≡ first ∷ others) × SpellsFurther others text.now)) }
{
    let mut decisions = Row::new(alloc);
    decisions.push(first)?;
    let mut rest = text;
    while let Some((decision, others)) = number_before(rest, b".", b'.') {
        decisions.push(decision)?;
        rest = others;
    }
    if !rest.is_empty() {
        return Ok(None);
    }
    Ok(Some(decisions))
}

// A value behind that front.
fn out_behind(line: &[u8], front: &[u8]) -> Option<Out>
    ensures { IsRead (SpellsOutBehind front.now) line.now result }
{
    read_out(behind(line, front)?)
}

// An ending that names no method.
#[tactic(auto, unfolding(crate::specs::Lines::ending_line))]
fn read_plain_ending(line: &[u8]) -> Option<SymEnding>
    ensures { IsRead SpellsPlainEnding line.now result }
{
    if is_line(line, b"returns") {
        return Some(SymEnding::Returned(None));
    }
    if let Some(value) = out_behind(line, b"returns ") {
        return Some(SymEnding::Returned(Some(value)));
    }
    Some(SymEnding::Threw(out_behind(line, b"throws ")?))
}

fn read_ending_place(alloc: Global, line: &[u8]) -> Result<Option<Held<Place>>, NoMemory>
    ensures { IfOk result (IsRead SpellsEndingPlace line.now) }
{
    match behind(line, b"illtyped ") {
        Some(text) => read_place(alloc, text),
        None => Ok(None),
    }
}

/// How a run ends.
#[tactic(auto, unfolding(crate::specs::Lines::ending_line))]
pub fn read_ending(alloc: Global, line: &[u8]) -> Result<Option<SymEnding>, NoMemory>
    ensures { IfOk result (IsRead SpellsEnding line.now) }
{
    if let Some(place) = read_ending_place(alloc, line)? {
        return Ok(Some(SymEnding::IllTyped(place.into_inner())));
    }
    Ok(read_plain_ending(line))
}

/// The bound at which a path is cut.
pub fn read_cut(line: &[u8]) -> Option<Bound>
    ensures { IsRead SpellsCut line.now result }
{
    read_bound(behind(line, b"cut ")?)
}
