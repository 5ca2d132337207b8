//! The first rule that a class file breaks.

ghost use Rattle.std.specs.Prelude.{IfOk};
ghost use Rattle.kb_format.specs.Faults.{Tells};

use crate::fault::FormatFault;
use crate::members::{member_again, members_of};
use crate::numbers::text_numbers;
use crate::unmet::{unmet_name, unmet_type};
use crate::verdicts::verdicts_of;
use kb_classfile::ClassFile;
use kb_names::NoMemory;
use std::alloc::Global;

/// The first rule that the class file breaks, if it breaks one. It takes time in proportion to the file, however many places
/// name one text.
pub fn format_fault(alloc: Global, file: &ClassFile) -> Result<Option<FormatFault>, NoMemory>
    ensures { IfOk result (Tells file.now) }
{
    let pool = file.pool.as_slice();
    let verdicts = verdicts_of(alloc, pool)?;
    let members = members_of(alloc, file)?;
    if let Some(number) = unmet_name(verdicts.as_slice(), pool, &members) {
        return Ok(Some(FormatFault::BadName(number)));
    }
    if let Some(number) = unmet_type(verdicts.as_slice(), pool, &members) {
        return Ok(Some(FormatFault::BadDescriptor(number)));
    }
    let numbers = text_numbers(alloc, pool)?;
    match member_again(alloc, numbers.as_slice(), &members)? {
        Some(number) => Ok(Some(FormatFault::TwoMembers(number))),
        None => Ok(None),
    }
}
