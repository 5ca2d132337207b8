//! The lines of a test are read, one by one.
ghost use Rattle.std.specs.Prelude.{◌≡◌, ◌↔◌, IsTrue, IfOk};
ghost use Rattle.std.specs.List.{list_all};
ghost use Rattle.kb_grammar.specs.Lines.{IsRead};
ghost use Rattle.kb_test_lines.specs.Lines.{listed_below, SpellsListed, SpellsBounds, SpellsLine, SpellsMethodLine, SpellsArgLine, SpellsObjectLine, SpellsOutLine, SpellsHeapLine, IsRunBounds, SpellsAnyBounds};

use crate::NoMemory;
use crate::outcomes::{Outcome, read_outcome};
use crate::words::{Limits, Word, read_words, word_behind};
use kb_grammar::{behind, first_part, is_line, last_number, number_behind, read_number};
use kb_heap::{Row, RunBounds};
use kb_heap_words::read_exact;
use kb_names::{ExactType, Target, TargetRefusal, read_target};
use kb_rows::Held;
use std::alloc::Global;

/// An object as a line lists it: what it is, and the value of each slot or element.
#[derive(Drop)]
pub struct Listed {
    pub kind: ExactType,
    pub values: Row<Word>,
}

/// What a line of a test says.
#[derive(Drop)]
pub enum Line {
    Method(Held<Target>),
    Limit(RunBounds),
    Arg(Word),
    /// An input object, by its number.
    In(u32, Held<Listed>),
    Ends(Outcome),
    /// The last values of an input object.
    Out(u32, Row<Word>),
    /// An object that the run has made.
    New(u32, Held<Listed>),
    End,
}

impl Limits {
    /// Whether each object that these objects name is below the limit of its kind.
    pub fn has_listed(self, objects: &[Listed]) -> bool
        ensures { result ≡ list_all (listed_below self) objects.now }
    {
        let mut rest = objects;
        while let [first, others @ ..] = rest {
            if !self.has_words(first.values.as_slice()) {
                return false;
            }
            rest = others;
        }
        true
    }
}

// An object: its exact type and its values.
fn read_listed(alloc: Global, text: &[u8]) -> Result<Option<Held<Listed>>, NoMemory>
    ensures { IfOk result (IsRead SpellsListed text.now) }
{
    let (word, rest) = first_part(text, b' ');
    let Some(kind) = read_exact(alloc, word)? else {
        return Ok(None);
    };
    match read_words(alloc, rest)? {
        Some(values) => Ok(Some(Held::new(alloc, Listed { kind, values })?)),
        None => Ok(None),
    }
}

#[tactic(auto, unfolding(crate::specs::Lines::line_text))]
fn read_method_line(alloc: Global, line: &[u8]) -> Result<Option<Held<Target>>, NoMemory>
    ensures { IfOk result (IsRead SpellsMethodLine line.now) }
{
    let Some(word) = behind(line, b"test ") else {
        return Ok(None);
    };
    match read_target(alloc, word) {
        Ok(target) => Ok(Some(Held::new(alloc, target)?)),
        Err(TargetRefusal::BadTarget(_)) => Ok(None),
        Err(TargetRefusal::NoMemory) => Err(NoMemory),
    }
}

// Whether a test may have these bounds.
fn are_in_range(bounds: RunBounds) -> bool
    ensures { IsTrue result ↔ IsRunBounds bounds }
{
    bounds.alloc <= 1024
        && bounds.loops <= 1000
        && 1 <= bounds.depth
        && bounds.depth <= 256
        && 1 <= bounds.steps
        && bounds.steps <= 100_000
}

// The bounds, in whatever ranges.
fn read_any_bounds(line: &[u8]) -> Option<RunBounds>
    ensures { IsRead SpellsAnyBounds line.now result }
{
    let (alloc, rest) = number_behind(line, b"bounds alloc ")?;
    let (loops, rest) = number_behind(rest, b"loops ")?;
    let (depth, rest) = number_behind(rest, b"depth ")?;
    let steps = last_number(rest, b"steps ")?;
    Some(RunBounds {
        alloc,
        loops,
        depth,
        steps,
    })
}

fn read_bounds(line: &[u8]) -> Option<RunBounds>
    ensures { IsRead SpellsBounds line.now result }
{
    let bounds = read_any_bounds(line)?;
    if !are_in_range(bounds) {
        return None;
    }
    Some(bounds)
}

#[tactic(auto, unfolding(crate::specs::Lines::line_text))]
fn read_arg_line(line: &[u8]) -> Option<Word>
    ensures { IsRead SpellsArgLine line.now result }
{
    word_behind(line, b"arg ")
}

// A number behind that front, and an object behind the number.
fn read_object_line(
    alloc: Global,
    line: &[u8],
    front: &[u8],
) -> Result<Option<(u32, Held<Listed>)>, NoMemory>
    ensures { IfOk result (IsRead (SpellsObjectLine front.now) line.now) }
{
    let Some((number, text)) = number_behind(line, front) else {
        return Ok(None);
    };
    match read_listed(alloc, text)? {
        Some(listed) => Ok(Some((number, listed))),
        None => Ok(None),
    }
}

// The number of an input object and its last values.
#[tactic(auto, unfolding(crate::specs::Lines::line_text))]
fn read_out_line(alloc: Global, line: &[u8]) -> Result<Option<(u32, Row<Word>)>, NoMemory>
    ensures { IfOk result (IsRead SpellsOutLine line.now) }
{
    let Some(text) = behind(line, b"out i") else {
        return Ok(None);
    };
    let (digits, rest) = first_part(text, b' ');
    let Some(number) = read_number(digits) else {
        return Ok(None);
    };
    match read_words(alloc, rest)? {
        Some(words) => Ok(Some((number, words))),
        None => Ok(None),
    }
}

// A line that lists an object or its last values.
#[tactic(auto, unfolding(crate::specs::Lines::line_text))]
fn read_heap_line(alloc: Global, line: &[u8]) -> Result<Option<Line>, NoMemory>
    ensures { IfOk result (IsRead SpellsHeapLine line.now) }
{
    if let Some((number, listed)) = read_object_line(alloc, line, b"in i")? {
        return Ok(Some(Line::In(number, listed)));
    }
    if let Some((number, words)) = read_out_line(alloc, line)? {
        return Ok(Some(Line::Out(number, words)));
    }
    match read_object_line(alloc, line, b"new n")? {
        Some((number, listed)) => Ok(Some(Line::New(number, listed))),
        None => Ok(None),
    }
}

/// What the line says, wherever it stands.
#[tactic(auto, unfolding(crate::specs::Lines::line_text))]
pub fn read_line(alloc: Global, line: &[u8]) -> Result<Option<Line>, NoMemory>
    ensures { IfOk result (IsRead SpellsLine line.now) }
{
    if is_line(line, b"end") {
        return Ok(Some(Line::End));
    }
    if let Some(target) = read_method_line(alloc, line)? {
        return Ok(Some(Line::Method(target)));
    }
    if let Some(bounds) = read_bounds(line) {
        return Ok(Some(Line::Limit(bounds)));
    }
    if let Some(word) = read_arg_line(line) {
        return Ok(Some(Line::Arg(word)));
    }
    if let Some(outcome) = read_outcome(alloc, line)? {
        return Ok(Some(Line::Ends(outcome)));
    }
    read_heap_line(alloc, line)
}
