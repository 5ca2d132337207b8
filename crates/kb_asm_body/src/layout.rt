//! Where the instructions of a body stand, and where its labels lead.

ghost use Rattle.std.specs.Prelude.{◌≡◌, ◌≤◌, ◌<◌, ◌^◌, ◌+◌, ◌*◌, ℕ, List, Option, None, Some, false, MatchOption, IfOk, OnOk, if◌then◌else◌};
ghost use Rattle.std.specs.Option.{option_or};
ghost use Rattle.std.specs.Str.{bytes_eq};
ghost use Rattle.kb_asm_body.specs.Layout.{instr_size, line_size, offset_behind, label_of, is_label, offset_at, HasLabels};

use crate::NoMemory;
use crate::memory::key_of;
use kb_asm_text::{BodyLine, Line, Operand};
use kb_code::{GOTO_W, INVOKEINTERFACE, LDC};
use kb_names::Name;
use kb_writer::padding_behind;
use std::alloc::Global;
use std::collections::HashMap;

/// The bytes of code from which on a body counts as out of memory: all distances in what is shorter have four bytes.
const TOO_LONG: usize = 0x4000_0000;

/// Where the labels of a body lead, and how long its code is.
#[derive(Drop)]
pub struct Layout {
    pub(crate) labels: HashMap<Vec<u8>, u32>,
    pub(crate) size: u32,
}

/// So many bytes, and so many more for each of a list.
fn switch_size(head: usize, width: usize, count: usize) -> Result<usize, NoMemory>
    requires { (head ≤ 16) × (width ≤ 8) }
    ensures { IfOk result (λ size. size ≡ head + width * count) }
{
    if count > TOO_LONG {
        return Err(NoMemory);
    }
    Ok(head + width * count)
}

/// How many bytes the instruction has at the offset `at`.
fn instr_size(op: u8, operand: &Operand, at: u32) -> Result<usize, NoMemory>
    ensures { IfOk result (λ size. size ≡ instr_size op operand.now at) }
{
    match operand {
        Operand::Alone => Ok(1),
        Operand::Byte(_) | Operand::Primitive(_) => Ok(2),
        Operand::Constant(_) => Ok(if op == LDC { 2 } else { 3 }),
        Operand::Local(local) => Ok(if *local < 256 { 2 } else { 4 }),
        Operand::Method(_) => Ok(if op == INVOKEINTERFACE { 5 } else { 3 }),
        Operand::Target(_) => Ok(if op == GOTO_W { 5 } else { 3 }),
        Operand::Table(_, _, targets) => {
            switch_size(13 + padding_behind(at), 4, targets.as_slice().len())
        }
        Operand::Lookup(_, cases) => {
            switch_size(9 + padding_behind(at), 8, cases.as_slice().len())
        }
        Operand::Short(_)
        | Operand::Increment(..)
        | Operand::Field(_)
        | Operand::New(_)
        | Operand::Type(_) => Ok(3),
    }
}

/// How many bytes of code the line has at the offset `at`.
#[tactic(auto, unfolding(crate::specs::Layout::line_size))]
fn line_size(line: &Line, at: u32) -> Result<usize, NoMemory>
    ensures { IfOk result (λ size. size ≡ line_size line.now at) }
{
    match line {
        Line::Body(BodyLine::Instr(op, operand)) => instr_size(*op, operand, at),
        Line::Body(BodyLine::Raw(_)) => Ok(1),
        _ => Ok(0),
    }
}

/// The offset behind a line at the offset `at`.
pub(crate) fn behind(line: &Line, at: u32) -> Result<u32, NoMemory>
    requires { at < 2 ^ 30 }
    ensures value { IfOk result (λ next. next ≡ at + line_size line.now at) }
    ensures short { IfOk result (λ next. next < 2 ^ 30) }
{
    let size = line_size(line, at)?;
    if size >= TOO_LONG - at as usize {
        return Err(NoMemory);
    }
    Ok(at + size as u32)
}

/// The label, if the line is one.
fn label_in(line: &Line) -> Option<&Name>
    ensures { MatchOption result ((name : List ℕ) → is_label line.now name ≡ false) (λ label. (name : List ℕ) → is_label line.now name ≡ bytes_eq label.now name) }
{
    match line {
        Line::Body(BodyLine::Label(label)) => Some(label),
        _ => None,
    }
}

/// Notes the offset of a label, if the line is one and the first of that name.
fn note(
    alloc: Global,
    labels: &mut HashMap<Vec<u8>, u32>,
    line: &Line,
    at: u32,
) -> Result<(), NoMemory>
    ensures { OnOk result ((name : List ℕ) → offset_at labels.new name ≡ option_or (offset_at labels.old name) (if is_label line.now name then Some at else None)) }
{
    let Some(label) = label_in(line) else {
        return Ok(());
    };
    if labels.contains_key(label.as_slice()) {
        return Ok(());
    }
    let key = key_of(alloc, label.as_slice())?;
    labels.insert(key, at)?;
    Ok(())
}

/// Notes the offsets of the labels of a body, behind those that were noted before, and gives the length of its code.
fn note_all(
    alloc: Global,
    labels: &mut HashMap<Vec<u8>, u32>,
    body: &[Line],
) -> Result<u32, NoMemory>
    ensures labels { OnOk result ((name : List ℕ) → offset_at labels.new name ≡ option_or (offset_at labels.old name) (label_of body.now name)) }
    ensures size { IfOk result (λ size. size ≡ offset_behind 0 body.now) }
{
    let mut size = 0;
    let mut rest = body;
    while let [line, others @ ..] = rest {
        note(alloc, labels, line, size)?;
        size = behind(line, size)?;
        rest = others;
    }
    Ok(size)
}

/// The layout of a body.
pub fn layout_of(alloc: Global, body: &[Line]) -> Result<Layout, NoMemory>
    ensures labels { IfOk result (λ layout. HasLabels layout.labels body.now) }
    ensures size { IfOk result (λ layout. layout.size ≡ offset_behind 0 body.now) }
{
    let mut labels = HashMap::new(alloc);
    let size = note_all(alloc, &mut labels, body)?;
    Ok(Layout { labels, size })
}

impl Layout {
    /// Where the label leads, if it is there.
    pub fn offset(&self, label: &[u8]) -> Option<u32>
        ensures { result ≡ offset_at self.now.labels label.now }
    {
        match self.labels.get(label) {
            Some(offset) => Some(*offset),
            None => None,
        }
    }
}
