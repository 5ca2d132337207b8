//! Keys of labels.

ghost use Rattle.std.specs.Prelude.{◌≡◌, IfOk};

use crate::NoMemory;
use std::alloc::Global;

/// The key of a label.
pub(crate) fn key_of(alloc: Global, label: &[u8]) -> Result<Vec<u8>, NoMemory>
    ensures { IfOk result (λ key. key.items ≡ label.now) }
{
    match label.to_vec(alloc) {
        Ok(key) => Ok(key),
        Err(_) => Err(NoMemory),
    }
}
