//! The lines of a text, or the first that does not fit.

ghost use Rattle.std.specs.Prelude.{◌≡◌, ◌↔◌, ◌<◌, ◌+◌, ◌-◌, ◌^◌, length, IsTrue, IfOk, IfErr};
ghost use Rattle.kb_asm_text.specs.Texts.{IsEnd};
ghost use Rattle.kb_asm_check.specs.Faults.{IsText, Refuses};
ghost use Rattle.kb_asm_check.specs.declared.reading.TextRefusal.TheVariants as refusals;

use crate::faults::first_fault;
use crate::limits::kept;
use kb_asm_text::{Front, Line, Place, read_front};
use kb_rows::Row;
use std::alloc::Global;

/// Why a text is not that of a class.
#[derive(Clone, Copy, Debug, PartialEq, Eq)]
pub enum TextRefusal {
    /// The first line, from 1, that does not fit. A line that is cut short, and one that is missing at the end, count as
    /// lines.
    Line(usize),
    /// Memory ran out.
    NoMemory,
}

/// Whether a class may end there.
fn is_end(place: Place) -> bool
    ensures { IsTrue result ↔ IsEnd place }
{
    match place {
        Place::Start | Place::Body => false,
        Place::Head | Place::Fields | Place::Methods => true,
    }
}

/// The lines of a text that is whole, of which so many keep the limits.
fn whole(front: Front, count: usize) -> Result<Row<Line>, TextRefusal>
    requires { count < 2 ^ 64 - 1 }
    ensures whole { IfOk result (λ of. (of ≡ front.lines) × (count ≡ length front.lines) × IsTrue front.ended × IsEnd front.place) }
    ensures refused { IfErr result (λ refusal. (refusal ≡ refusals.Line (count + 1)) × ((count ≡ length front.lines) × IsTrue front.ended × IsEnd front.place → ⊥)) }
{
    if count != front.lines.as_slice().len() {
        return Err(TextRefusal::Line(count + 1));
    }
    if !front.ended {
        return Err(TextRefusal::Line(count + 1));
    }
    if !is_end(front.place) {
        return Err(TextRefusal::Line(count + 1));
    }
    Ok(front.lines)
}

/// The lines of the text of a class.
pub fn read_text(alloc: Global, text: &[u8]) -> Result<Row<Line>, TextRefusal>
    ensures read { IfOk result (λ of. IsText of text.now) }
    ensures refused { IfErr result (Refuses text.now) }
{
    let Ok(front) = read_front(alloc, text) else {
        return Err(TextRefusal::NoMemory);
    };
    let Ok(count) = kept(alloc, front.lines.as_slice()) else {
        return Err(TextRefusal::NoMemory);
    };
    let Ok(fault) = first_fault(alloc, front.lines.as_slice()) else {
        return Err(TextRefusal::NoMemory);
    };
    let Some(place) = fault else {
        return whole(front, count);
    };
    if place < count {
        return Err(TextRefusal::Line(place + 1));
    }
    Err(TextRefusal::Line(count + 1))
}
