//! A number for each text of a pool, so that two texts are compared once, however many members have them.

ghost use Rattle.std.specs.Prelude.{◌≡◌, ◌++◌, List, ℕ, IfOk, OnOk};
ghost use Rattle.kb_classfile.specs.Pool.{text_of};
ghost use Rattle.kb_format.specs.Rules.{AllDiffer};
ghost use Rattle.kb_format.specs.Members.{texts_of, IsNumberOf, TellsTextsApart};

use indexmap::IndexSet;
use kb_classfile::PoolEntry;
use std::alloc::{AllocError, Global};

/// The number of each entry's text, by the number of the entry, where it has a text. It takes time in proportion to the pool.
pub(crate) fn text_numbers(
    alloc: Global,
    pool: &[PoolEntry],
) -> Result<Vec<Option<usize>>, AllocError>
    ensures { IfOk result (λ numbers. TellsTextsApart pool.now numbers.items) }
{
    let mut texts = IndexSet::new(alloc);
    let mut numbers = Vec::new(alloc);
    for entry in pool {
        let number = text_number(&mut texts, entry)?;
        numbers.push(number)?;
    }
    Ok(numbers)
}

// The place of the entry's text among these, to which it is added.
fn text_number<'a>(
    texts: &mut IndexSet<&'a [u8]>,
    entry: &'a PoolEntry,
) -> Result<Option<usize>, AllocError>
    requires { AllDiffer (texts_of texts.old.keys) }
    ensures number { IfOk result (IsNumberOf (texts_of texts.new.keys) (text_of entry.now)) }
    ensures extends { OnOk result ((more : List (List ℕ)) × (texts_of texts.new.keys ≡ texts_of texts.old.keys ++ more)) }
    ensures differ { OnOk result (AllDiffer (texts_of texts.new.keys)) }
{
    let PoolEntry::Utf8(text) = entry else {
        return Ok(None);
    };
    let (number, _) = texts.insert_full(text.as_slice())?;
    Ok(Some(number))
}
