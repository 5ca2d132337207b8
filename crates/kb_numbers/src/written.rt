//! The numbers of the members of a class without a file: by descriptors that are written.
ghost use Rattle.std.specs.Prelude.{◌≡◌, [], IfOk, OnOk};
ghost use Rattle.std.specs.List.{AllByRecursion, AllZip};
ghost use Rattle.kb_class.specs.Class.{Class as PlainClass};
ghost use Rattle.kb_texts.specs.Texts.{Keeps};
ghost use Rattle.kb_numbers.specs.Numbers.{IsMethodPair, IsNumbered, IsWritten};

use crate::class_numbers::ClassNumbers;
use crate::pairs::Pair;
use crate::pool::number_of_text;
use kb_class::MethodInfo;
use kb_names::{NoMemory, Spelling, write_method_type};
use kb_texts::Texts;
use std::alloc::Global;

/// The numbers of the members of a class that has these methods, no fields and no entries, and whose first method has that
/// number.
pub(crate) fn written_numbers(
    alloc: Global,
    methods: &[MethodInfo],
    first: u32,
    texts: &mut Texts,
) -> Result<ClassNumbers, NoMemory>
    requires { AllByRecursion IsWritten methods.now }
    ensures keeps { OnOk result (Keeps texts.old texts.new) }
    ensures numbers { IfOk result (λ own. (class : PlainClass) → class.methods ≡ methods.now → class.fields ≡ [] → class.entries ≡ [] → IsNumbered texts.new first class own) }
{
    let pairs = written_pairs(alloc, methods, texts)?;
    let own = ClassNumbers::new(alloc, first, pairs, Vec::new(alloc), Vec::new(alloc))?;
    Ok(own)
}

// The pairs of these methods.
fn written_pairs(
    alloc: Global,
    methods: &[MethodInfo],
    texts: &mut Texts,
) -> Result<Vec<Pair>, NoMemory>
    requires { AllByRecursion IsWritten methods.now }
    ensures keeps { OnOk result (Keeps texts.old texts.new) }
    ensures pairs { IfOk result (λ pairs. AllZip (IsMethodPair texts.new) methods.now pairs.items) }
{
    let mut pairs = Vec::new(alloc);
    for method in methods {
        let pair = written_pair(alloc, method, texts)?;
        pairs.push(pair)?;
    }
    Ok(pairs)
}

// The pair of a method.
fn written_pair(alloc: Global, method: &MethodInfo, texts: &mut Texts) -> Result<Pair, NoMemory>
    requires { IsWritten method.now }
    ensures keeps { OnOk result (Keeps texts.old texts.new) }
    ensures pair { IfOk result (IsMethodPair texts.new method.now) }
{
    let mut text = Vec::new(alloc);
    write_method_type(&method.kind, Spelling::Raw, &mut text)?;
    let name = number_of_text(alloc, method.name.as_slice(), texts)?;
    let kind = number_of_text(alloc, text.as_slice(), texts)?;
    Ok(Pair { name, kind })
}
