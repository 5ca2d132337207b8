//! The numbers of entries.

ghost use Rattle.std.specs.Prelude.{◌≡◌, ◌<◌, ◌+◌, ◌-◌, Some, slice_get, codes, IsTrue, IfOk, OnOk};
ghost use Rattle.kb_asm_pool.specs.Says.{text as says_text, class as says_class};
ghost use Rattle.kb_asm_pool.specs.Needs.{class_needs, constant_needs, constant_says, field_needs, field_says, call_needs, call_says, ref_name};
ghost use Rattle.kb_asm_pool.specs.Entries.{entries_of};
ghost use Rattle.kb_asm.specs.Entries.{SaysText, SaysClass, EntrySays};
ghost use Rattle.kb_asm.specs.Pool.{Has};
ghost use Rattle.kb_asm.specs.Needs.{have, IsWhole};

use crate::NoMemory;
use kb_asm_pool::{Items, add_call, add_constant, add_field, add_ref};
use kb_asm_text::{ClassRef, Constant, FieldName};
use kb_names::Target;
use std::alloc::Global;

/// The number of the entry at a place.
fn number_of(place: usize) -> u16
    requires { place < 65535 }
    ensures { result ≡ place + 1 }
{
    (place + 1) as u16
}

/// The number of a text.
pub(crate) fn of_text(pool: &mut Items, alloc: Global, bytes: &[u8]) -> Result<u16, NoMemory>
    requires whole { IsWhole pool.old.says }
    requires there { Has pool.old.says (says_text bytes.now) }
    ensures same { OnOk result (pool.new.says ≡ pool.old.says) }
    ensures number { IfOk result (λ number. SaysText (entries_of pool.old.says) bytes.now number) }
{
    let place = pool.text(alloc, bytes)?;
    Ok(number_of(place))
}

/// The number of the text Code, if it is there.
pub(crate) fn code_name_of(pool: &mut Items, alloc: Global) -> Result<u16, NoMemory>
    requires { IsWhole pool.old.says }
    ensures { IfOk result (λ number. Has pool.old.says (says_text (codes "Code")) → SaysText (entries_of pool.old.says) (codes "Code") number) }
{
    let place = pool.text(alloc, b"Code")?;
    Ok(number_of(place))
}

/// The number of a class or an array type.
pub(crate) fn of_class(pool: &mut Items, alloc: Global, name: &[u8]) -> Result<u16, NoMemory>
    requires whole { IsWhole pool.old.says }
    requires there { IsTrue (have pool.old.says (class_needs name.now)) }
    ensures same { OnOk result (pool.new.says ≡ pool.old.says) }
    ensures number { IfOk result (λ number. SaysClass (entries_of pool.old.says) name.now number) }
{
    let place = pool.class(alloc, name)?;
    Ok(number_of(place))
}

/// The number of a class or an array type.
pub(crate) fn of_ref(pool: &mut Items, alloc: Global, of: &ClassRef) -> Result<u16, NoMemory>
    requires whole { IsWhole pool.old.says }
    requires there { IsTrue (have pool.old.says (class_needs (ref_name of.now))) }
    ensures same { OnOk result (pool.new.says ≡ pool.old.says) }
    ensures number { IfOk result (λ number. SaysClass (entries_of pool.old.says) (ref_name of.now) number) }
{
    let place = add_ref(pool, alloc, of)?;
    Ok(number_of(place))
}

/// The number of a constant.
pub(crate) fn of_constant(pool: &mut Items, alloc: Global, of: &Constant) -> Result<u16, NoMemory>
    requires whole { IsWhole pool.old.says }
    requires there { IsTrue (have pool.old.says (constant_needs of.now)) }
    ensures same { OnOk result (pool.new.says ≡ pool.old.says) }
    ensures number { IfOk result (λ number. EntrySays (entries_of pool.old.says) (constant_says of.now) number) }
    ensures place { IfOk result (λ number. slice_get pool.old.says (number - 1) ≡ Some (constant_says of.now)) }
{
    let place = add_constant(pool, alloc, of)?;
    Ok(number_of(place))
}

/// The number of a field.
pub(crate) fn of_field(pool: &mut Items, alloc: Global, field: &FieldName) -> Result<u16, NoMemory>
    requires whole { IsWhole pool.old.says }
    requires there { IsTrue (have pool.old.says (field_needs field.now)) }
    ensures same { OnOk result (pool.new.says ≡ pool.old.says) }
    ensures number { IfOk result (λ number. EntrySays (entries_of pool.old.says) (field_says field.now) number) }
{
    let place = add_field(pool, alloc, field)?;
    Ok(number_of(place))
}

/// The number of the method that an instruction with this opcode calls.
pub(crate) fn of_call(
    pool: &mut Items,
    alloc: Global,
    op: u8,
    target: &Target,
) -> Result<u16, NoMemory>
    requires whole { IsWhole pool.old.says }
    requires there { IsTrue (have pool.old.says (call_needs op target.now)) }
    ensures same { OnOk result (pool.new.says ≡ pool.old.says) }
    ensures number { IfOk result (λ number. EntrySays (entries_of pool.old.says) (call_says op target.now) number) }
{
    let place = add_call(pool, alloc, op, target)?;
    Ok(number_of(place))
}
