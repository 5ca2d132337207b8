//! What is known of each text of a pool, so that a text is judged once, however many places name it.

ghost use Rattle.std.specs.Prelude.{◌≡◌, IfOk, Some};
ghost use Rattle.kb_classfile.specs.Pool.{text_of};
ghost use Rattle.kb_format.specs.Verdicts.{meets, is_met, Judges, AreVerdicts};

use crate::place::{Demand, Place};
use crate::texts::{is_entry_name, is_method_text, is_type_text};
use kb_classfile::PoolEntry;
use kb_names::NoMemory;
use std::alloc::Global;

/// What a text is, of all that may be asked of it.
#[derive(Clone, Copy, PartialEq, Eq)]
pub struct Verdict {
    pub class_name: bool,
    pub not_empty: bool,
    pub field_type: bool,
    pub method_type: bool,
}

/// The verdict of what is no text.
const NO_TEXT: Verdict = Verdict {
    class_name: false,
    not_empty: false,
    field_type: false,
    method_type: false,
};

/// The verdict of each entry, by its number. It takes time in proportion to the pool.
pub(crate) fn verdicts_of(alloc: Global, pool: &[PoolEntry]) -> Result<Vec<Verdict>, NoMemory>
    ensures { IfOk result (λ verdicts. AreVerdicts pool.now verdicts.items) }
{
    let mut verdicts = Vec::new(alloc);
    for entry in pool {
        let verdict = entry_verdict(alloc, entry)?;
        verdicts.push(verdict)?;
    }
    Ok(verdicts)
}

fn entry_verdict(alloc: Global, entry: &PoolEntry) -> Result<Verdict, NoMemory>
    ensures { IfOk result (Judges (text_of entry.now)) }
{
    match entry {
        PoolEntry::Utf8(text) => text_verdict(alloc, text.as_slice()),
        _ => Ok(NO_TEXT),
    }
}

fn text_verdict(alloc: Global, text: &[u8]) -> Result<Verdict, NoMemory>
    ensures { IfOk result (Judges (Some text.now)) }
{
    Ok(Verdict {
        class_name: is_entry_name(alloc, text)?,
        not_empty: !text.is_empty(),
        field_type: is_type_text(alloc, text)?,
        method_type: is_method_text(alloc, text)?,
    })
}

/// Whether the place names a text, and it is what is asked for there.
pub(crate) fn is_met(verdicts: &[Verdict], place: Place) -> bool
    ensures { result ≡ is_met verdicts.now place }
{
    match verdicts.get(place.text as usize) {
        Some(verdict) => meets(*verdict, place.demand),
        None => false,
    }
}

fn meets(verdict: Verdict, demand: Demand) -> bool
    ensures { result ≡ meets verdict demand }
{
    match demand {
        Demand::ClassName => verdict.class_name,
        Demand::NotEmpty => verdict.not_empty,
        Demand::FieldType => verdict.field_type,
        Demand::MethodType => verdict.method_type,
        Demand::AnyType => verdict.field_type || verdict.method_type,
    }
}
