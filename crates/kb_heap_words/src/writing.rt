//! The words are written.
ghost use Rattle.std.specs.Prelude.{◌≡◌, ◌++◌, length, take, OnOk};
ghost use Rattle.kb_heap_words.specs.Words.{exact_text, place_text, bound_name};

use crate::NoMemory;
use kb_heap::{Bound, Place};
use kb_names::{ExactType, Spelling, write_name, write_target, write_type};
use std::alloc::Global;

/// Appends a class by its name, an array by its descriptor. After an `Err` a part of it may stand behind the text.
#[tactic(auto, unfolding(crate::specs::Words::exact_text))]
pub fn write_exact(kind: &ExactType, into: &mut Vec<u8>) -> Result<(), NoMemory>
    ensures ok { OnOk result (into.new.items ≡ into.old.items ++ exact_text kind.now) }
    ensures kept { take (length into.old.items) into.new.items ≡ into.old.items }
{
    match kind {
        ExactType::Class(name) => write_name(name, into)?,
        ExactType::Array(component) => {
            into.extend_from_slice(b"[".as_slice())?;
            write_type(component, Spelling::Escaped, into)?;
        }
    }
    Ok(())
}

/// Appends an instruction by its method and its offset. After an `Err` a part of it may stand behind the text.
#[tactic(auto, unfolding(crate::specs::Words::place_text))]
pub fn write_place(alloc: Global, place: &Place, into: &mut Vec<u8>) -> Result<(), NoMemory>
    ensures ok { OnOk result (into.new.items ≡ into.old.items ++ place_text place.now) }
    ensures kept { take (length into.old.items) into.new.items ≡ into.old.items }
{
    write_target(&place.method, into)?;
    into.extend_from_slice(b" ".as_slice())?;
    let at = place.at;
    let digits = format!(in alloc; "{at}")?;
    into.extend_from_slice(digits.as_bytes())?;
    Ok(())
}

/// A bound by its name.
#[tactic(auto, unfolding(crate::specs::Words::bound_name))]
pub fn bound_name(bound: Bound) -> &'static str
    ensures { result.now ≡ bound_name bound }
{
    match bound {
        Bound::K => "k",
        Bound::Array => "array",
        Bound::Alloc => "alloc",
        Bound::Loops => "loops",
        Bound::Depth => "depth",
        Bound::Steps => "steps",
    }
}
