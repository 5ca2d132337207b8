//! The lines of a body whose faults are known only at a later line.

ghost use Rattle.std.specs.Prelude.{◌≡◌, ◌≤◌, ◌||◌, length, IfOk, IfSome};
ghost use Rattle.std.specs.List.{list_any};
ghost use Rattle.kb_asm_body.specs.Layout.{offset_at};
ghost use Rattle.kb_asm_body.specs.Faults.{is_missing, is_out, is_faulty_instr, is_faulty, fault_from, fault_of};

use crate::NoMemory;
use crate::layout::{Layout, behind, layout_of};
use kb_asm_text::{BodyLine, Case, Catch, Line, Operand};
use kb_code::{GOTO_W, MOST_CODE};
use kb_names::Name;
use kb_writer::Written;
use std::alloc::Global;

/// A body, or as much of it as there is.
#[derive(Clone, Copy)]
struct Body<'a> {
    layout: &'a Layout,
    /// Whether its last line is there.
    is_whole: bool,
}

impl Body<'_> {
    /// Whether a label is missing.
    fn lacks(&self, label: &Name) -> bool
        ensures { result ≡ is_missing (offset_at self.now.layout.now.labels) self.now.is_whole label.now }
    {
        match self.layout.offset(label.as_slice()) {
            Some(_) => false,
            None => self.is_whole,
        }
    }

    fn lacks_any(&self, labels: &[Name]) -> bool
        ensures { result ≡ list_any (is_missing (offset_at self.now.layout.now.labels) self.now.is_whole) labels.now }
    {
        let mut rest = labels;
        while let [label, others @ ..] = rest {
            if self.lacks(label) {
                return true;
            }
            rest = others;
        }
        false
    }

    fn lacks_a_target(&self, cases: &[Case]) -> bool
        ensures { result ≡ list_any (λ case. is_missing (offset_at self.now.layout.now.labels) self.now.is_whole case.target) cases.now }
    {
        let mut rest = cases;
        while let [case, others @ ..] = rest {
            if self.lacks(&case.target) {
                return true;
            }
            rest = others;
        }
        false
    }

    /// Whether the target of a branch at `at` is missing or out of reach.
    fn is_out(&self, op: u8, label: &Name, at: u32) -> bool
        ensures { result ≡ is_out (offset_at self.now.layout.now.labels) self.now.is_whole op (offset_at self.now.layout.now.labels label.now) at }
    {
        match self.layout.offset(label.as_slice()) {
            None => self.is_whole,
            Some(to) => op != GOTO_W && !Written::Near(op, to).reaches(at),
        }
    }

    fn is_faulty_instr(&self, op: u8, operand: &Operand, at: u32) -> bool
        ensures { result ≡ is_faulty_instr (offset_at self.now.layout.now.labels) self.now.is_whole op operand.now at }
    {
        match operand {
            Operand::Target(label) => self.is_out(op, label, at),
            Operand::Table(_, default, targets) => {
                if self.lacks(default) {
                    return true;
                }
                self.lacks_any(targets.as_slice())
            }
            Operand::Lookup(default, cases) => {
                if self.lacks(default) {
                    return true;
                }
                self.lacks_a_target(cases.as_slice())
            }
            _ => false,
        }
    }

    fn is_faulty_row(&self, row: &Catch) -> bool
        ensures { result ≡ (is_missing (offset_at self.now.layout.now.labels) self.now.is_whole row.now.start || is_missing (offset_at self.now.layout.now.labels) self.now.is_whole row.now.end || is_missing (offset_at self.now.layout.now.labels) self.now.is_whole row.now.target) }
    {
        if self.lacks(&row.start) {
            return true;
        }
        if self.lacks(&row.end) {
            return true;
        }
        self.lacks(&row.target)
    }

    /// Whether the line at the offset `at` names a label that is missing or out of reach.
    #[tactic(auto, unfolding(crate::specs::Faults::is_faulty))]
    fn is_faulty(&self, line: &Line, at: u32) -> bool
        ensures { result ≡ is_faulty (offset_at self.now.layout.now.labels) self.now.is_whole line.now at }
    {
        match line {
            Line::Body(BodyLine::Instr(op, operand)) => self.is_faulty_instr(*op, operand, at),
            Line::Body(BodyLine::Catch(row)) => self.is_faulty_row(row),
            _ => false,
        }
    }

    /// The place of the first faulty line of the body, whose layout this is.
    fn first_fault(&self, body: &[Line]) -> Result<Option<usize>, NoMemory>
        ensures fault { IfOk result (λ fault. fault ≡ fault_from (offset_at self.now.layout.now.labels) self.now.is_whole 0 0 body.now) }
        ensures within { IfOk result (λ fault. IfSome fault (λ place. place ≤ length body.now)) }
    {
        let mut at = 0;
        let mut place = 0;
        let mut rest = body;
        while let [line, others @ ..] = rest {
            if self.is_faulty(line, at) {
                return Ok(Some(place));
            }
            at = behind(line, at)?;
            place += 1;
            rest = others;
        }
        if self.is_whole && (at == 0 || at as usize > MOST_CODE) {
            return Ok(Some(place));
        }
        Ok(None)
    }
}

/// The place, from 0, of the first line of a body that is faulty: it names a label that is missing or out of reach. The line
/// behind a whole body is faulty where the code has no bytes or too many.
pub fn body_fault(alloc: Global, body: &[Line], is_whole: bool) -> Result<Option<usize>, NoMemory>
    ensures fault { IfOk result (λ fault. fault ≡ fault_of is_whole body.now) }
    ensures within { IfOk result (λ fault. IfSome fault (λ place. place ≤ length body.now)) }
{
    let layout = layout_of(alloc, body)?;
    let judged = Body {
        layout: &layout,
        is_whole,
    };
    judged.first_fault(body)
}
