//! How many lines of a class keep the limits that do not depend on later lines.

ghost use Rattle.std.specs.Prelude.{◌≡◌, ◌≤◌, length, IsTrue, IfOk, OnOk};
ghost use Rattle.kb_asm_pool.specs.Says.{all_added};
ghost use Rattle.kb_asm_check.specs.Limits.{nothing, ldc_says, labelled, is_new, has_few_words, is_sound, are_few, has_room, with_line, fits_behind, kept};
ghost use Rattle.kb_asm_check.specs.Walking.{standing_of, IsTaken};

use crate::NoMemory;
use crate::counts::Counts;
use crate::short::is_line_short;
use kb_asm_body::argument_words;
use kb_asm_pool::{Items, Texts, add_alone, add_needs};
use kb_asm_text::{BodyLine, Line, Operand};
use kb_code::{INVOKEINTERFACE, LDC};
use std::alloc::Global;

/// The most entries of a pool, and the most constants of ldc lines.
const MOST_ENTRIES: usize = 65_534;

const MOST_CONSTANTS: usize = 255;

/// What the lines that were looked at need.
#[derive(Drop)]
pub(crate) struct Limits {
    pool: Items,
    constants: Items,
    counts: Counts,
    /// Those of the body that is open.
    labels: Texts,
}

/// Adds the constant of an ldc line.
fn note_constant(constants: &mut Items, alloc: Global, line: &Line) -> Result<(), NoMemory>
    ensures { OnOk result (constants.new.says ≡ all_added constants.old.says (ldc_says line.now)) }
{
    if let Line::Body(BodyLine::Instr(op, Operand::Constant(of))) = line {
        if *op == LDC {
            add_alone(constants, alloc, of)?;
        }
    }
    Ok(())
}

/// Notes the label of a line; a method has labels of its own.
fn note_label(labels: &mut Texts, alloc: Global, line: &Line) -> Result<(), NoMemory>
    ensures { OnOk result (labels.new ≡ labelled labels.old line.now) }
{
    match line {
        Line::Method(_) => *labels = Texts::new(alloc),
        Line::Body(BodyLine::Label(label)) => {
            labels.place(alloc, label.as_slice())?;
        }
        _ => {}
    }
    Ok(())
}

/// Whether no label has the name of a line that is a label.
fn is_new(labels: &Texts, line: &Line) -> bool
    ensures { result ≡ is_new labels.now line.now }
{
    match line {
        Line::Body(BodyLine::Label(label)) => !labels.has(label.as_slice()),
        _ => true,
    }
}

/// Whether the arguments of an invokeinterface take 255 words at most.
fn has_few_words(line: &Line) -> bool
    ensures { result ≡ has_few_words line.now }
{
    match line {
        Line::Body(BodyLine::Instr(op, Operand::Method(target))) => {
            if *op != INVOKEINTERFACE {
                return true;
            }
            argument_words(&target.kind).is_some()
        }
        _ => true,
    }
}

impl Limits {
    fn new(alloc: Global) -> Limits
        ensures { standing_of result ≡ nothing }
    {
        Limits {
            pool: Items::new(alloc),
            constants: Items::new(alloc),
            counts: Counts::none(),
            labels: Texts::new(alloc),
        }
    }

    /// Whether the pool has room.
    fn has_room(&self) -> bool
        ensures { result ≡ has_room (standing_of self.now) }
    {
        let entries = self.pool.count();
        let constants = self.constants.count();
        entries <= MOST_ENTRIES && constants <= MOST_CONSTANTS
    }

    /// Notes one line more.
    fn note(&mut self, alloc: Global, line: &Line) -> Result<(), NoMemory>
        requires { IsTrue (are_few self.old.counts) }
        ensures { OnOk result (standing_of self.new ≡ with_line (standing_of self.old) line.now) }
    {
        add_needs(&mut self.pool, alloc, line)?;
        note_constant(&mut self.constants, alloc, line)?;
        note_label(&mut self.labels, alloc, line)?;
        self.counts = self.counts.with(line);
        Ok(())
    }

    /// Whether a line keeps the limits by itself and by the labels before it.
    fn is_sound(&self, alloc: Global, line: &Line) -> Result<bool, NoMemory>
        ensures { IfOk result (λ sound. sound ≡ is_sound self.now.labels line.now) }
    {
        if !is_line_short(alloc, line)? {
            return Ok(false);
        }
        if !has_few_words(line) {
            return Ok(false);
        }
        Ok(is_new(&self.labels, line))
    }

    /// Notes one line more, and says whether it keeps the limits. Where it does not, what was noted is only dropped.
    fn takes(&mut self, alloc: Global, line: &Line) -> Result<bool, NoMemory>
        requires { IsTrue (are_few self.old.counts) }
        ensures { IfOk result (λ fits. IsTaken fits (standing_of self.old) line.now (standing_of self.new)) }
    {
        if !self.is_sound(alloc, line)? {
            return Ok(false);
        }
        self.note(alloc, line)?;
        if !self.counts.are_few() {
            return Ok(false);
        }
        Ok(self.has_room())
    }
}

/// How many lines keep the limits, up to the first that does not.
fn kept_from(limits: &mut Limits, alloc: Global, lines: &[Line]) -> Result<usize, NoMemory>
    requires { standing_of limits.old ≡ nothing }
    ensures count { IfOk result (λ count. count ≡ kept lines.now) }
    ensures within { IfOk result (λ count. count ≤ length lines.now) }
{
    let mut count = 0;
    let mut rest = lines;
    while let [line, others @ ..] = rest {
        if !limits.takes(alloc, line)? {
            return Ok(count);
        }
        count += 1;
        rest = others;
    }
    Ok(count)
}

/// How many lines keep the limits, up to the first that does not.
pub(crate) fn kept(alloc: Global, lines: &[Line]) -> Result<usize, NoMemory>
    ensures count { IfOk result (λ count. count ≡ kept lines.now) }
    ensures within { IfOk result (λ count. count ≤ length lines.now) }
{
    let mut limits = Limits::new(alloc);
    kept_from(&mut limits, alloc, lines)
}
