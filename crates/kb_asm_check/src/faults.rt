//! The first line of a class whose fault is known only at a later one.

ghost use Rattle.std.specs.Prelude.{◌≡◌, ◌≤◌, length, IfOk, IfSome};
ghost use Rattle.kb_asm_body.specs.Faults.{fault_of};
ghost use Rattle.kb_asm_check.specs.Faults.{is_body, body_of, is_ended, fault_at, fault_from};

use crate::NoMemory;
use kb_asm_body::body_fault;
use kb_asm_text::Line;
use std::alloc::Global;

/// Whether the line is one of a body.
fn is_body(line: &Line) -> bool
    ensures { result ≡ is_body line.now }
{
    matches!(line, Line::Body(_))
}

/// The body that begins the lines.
pub fn body_of(lines: &[Line]) -> &[Line]
    ensures { result.now ≡ body_of lines.now }
{
    let mut count = 0;
    let mut rest = lines;
    while let [line, others @ ..] = rest {
        if !is_body(line) {
            return &lines[..count];
        }
        count += 1;
        rest = others;
    }
    lines
}

/// The place, from 0, of the first faulty line of the body that begins the lines.
fn fault_behind(alloc: Global, lines: &[Line]) -> Result<Option<usize>, NoMemory>
    ensures fault { IfOk result (λ fault. fault ≡ fault_of (is_ended lines.now) (body_of lines.now)) }
    ensures within { IfOk result (λ fault. IfSome fault (λ place. place ≤ length lines.now)) }
{
    let body = body_of(lines);
    let is_ended = body.len() < lines.len();
    body_fault(alloc, body, is_ended)
}

/// The place, behind this line, of the first faulty line of the body that it begins, if it begins one.
fn fault_at(alloc: Global, line: &Line, others: &[Line]) -> Result<Option<usize>, NoMemory>
    ensures fault { IfOk result (λ fault. fault ≡ fault_at line.now others.now) }
    ensures within { IfOk result (λ fault. IfSome fault (λ place. place ≤ length others.now)) }
{
    let Line::Method(head) = line else {
        return Ok(None);
    };
    match head.sizes {
        Some(_) => fault_behind(alloc, others),
        None => Ok(None),
    }
}

/// The place of the first line, from 0, that names a label that is missing or out of reach, or ends a body with too little
/// or too much code.
pub(crate) fn first_fault(alloc: Global, lines: &[Line]) -> Result<Option<usize>, NoMemory>
    ensures fault { IfOk result (λ fault. fault ≡ fault_from 0 lines.now) }
    ensures within { IfOk result (λ fault. IfSome fault (λ place. place ≤ length lines.now)) }
{
    let mut place = 0;
    let mut rest = lines;
    while let [line, others @ ..] = rest {
        if let Some(fault) = fault_at(alloc, line, others)? {
            return Ok(Some(place + 1 + fault));
        }
        place += 1;
        rest = others;
    }
    Ok(None)
}
