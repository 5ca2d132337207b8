//! The signatures of methods: one number for all methods of one name and type.
ghost use Rattle.std.specs.Prelude.{IfOk};
ghost use Rattle.kb_resolution.specs.Tables.{HaveSignatures};

use kb_link::Linked;
use kb_names::NoMemory;
use kb_numbers::first_methods;
use std::alloc::Global;

/// The signature of each method, in the order of their numbers: the number of the first one of its name and type, told by its
/// pair.
pub(crate) fn signatures_of(alloc: Global, linked: &Linked) -> Result<Vec<u32>, NoMemory>
    ensures { IfOk result (λ signatures. HaveSignatures linked.now signatures.items) }
{
    let signatures = first_methods(alloc, linked.numbers())?;
    Ok(signatures)
}
