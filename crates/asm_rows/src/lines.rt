//! Questions to the lines of a text.

use kb_asm_text::{BodyLine, Constant, Line, Operand, read_front, read_line};
use kb_rows::Held;
use kb_table::{RowResult, RowStop};
use std::alloc::Global;

/// Appends whether the text spells a line.
pub fn append_line_answer(alloc: Global, text: &[u8], into: &mut String) -> RowResult<()> {
    let line = line_of(alloc, text)?;
    let told = if line.get().is_some() {
        "a line"
    } else {
        "no line"
    };
    Ok(into.push_str(told)?)
}

/// Appends the opcode and the int of a line that pushes a constant.
pub fn append_int_answer(alloc: Global, text: &[u8], into: &mut String) -> RowResult<()> {
    let line = line_of(alloc, text)?;
    match int_of(line.get()) {
        Some((op, number)) => Ok(write!(into, "{op:02x} {number}")?),
        None => Err(RowStop::Malformed),
    }
}

/// The line that the text spells, if it spells one.
fn line_of(alloc: Global, text: &[u8]) -> RowResult<Held<Option<Line>>> {
    match read_line(alloc, text) {
        Ok(line) => Ok(Held::new(alloc, line)?),
        Err(_) => Err(RowStop::NoMemory),
    }
}

// The opcode and the int of the line, if it pushes one.

fn int_of(line: &Option<Line>) -> Option<(u8, i32)> {
    match line {
        Some(Line::Body(body)) => int_in(body),
        _ => None,
    }
}

fn int_in(body: &BodyLine) -> Option<(u8, i32)> {
    match body {
        BodyLine::Instr(op, Operand::Constant(constant)) => Some((*op, int_at(constant)?)),
        _ => None,
    }
}

fn int_at(constant: &Constant) -> Option<i32> {
    match constant {
        Constant::Int(number) => Some(*number),
        _ => None,
    }
}

/// Appends how many lines of the text fit, where they lead, and whether nothing stands behind them.
pub fn append_front_answer(alloc: Global, text: &[u8], into: &mut String) -> RowResult<()> {
    let front = read_front(alloc, text)?;
    let told = (front.lines.as_slice().len(), front.place, front.ended);
    Ok(write!(into, "{told:?}")?)
}
