//! Why code has no listing.

ghost use Rattle.std.specs.Prelude.{◌≡◌};
ghost use Rattle.kb_code.specs.declared.refusal.CodeRefusal.TheVariants as refusals;

use std::alloc::{AllocError, AllocFailed};

/// What is wrong with code: the first fault that is met. Instructions are named by their offsets.
#[derive(Clone, Copy, Debug, PartialEq, Eq)]
pub enum CodeRefusal {
    /// An opcode that there is not, or that may not stand behind wide: the instruction, the opcode.
    Opcode(u32, u8),
    /// An instruction that runs past the end of the code.
    Cut(u32),
    /// A target at which no instruction begins: the instruction, the target.
    Target(u32, i64),
    /// A switch whose lowest int is above its highest, with a negative count, or whose ints do not rise.
    Switch(u32),
    /// A handler, counted from 0, of no range, or one of its offsets at which no instruction begins.
    Range(u32),
    /// Memory ran out.
    NoMemory,
}

impl From<AllocError> for CodeRefusal {
    ghost from_gives = { λ _ refusal. refusal ≡ refusals.NoMemory };

    fn from(_error: AllocError) -> CodeRefusal {
        CodeRefusal::NoMemory
    }
}

impl<T: Drop> From<AllocFailed<T>> for CodeRefusal {
    ghost from_gives = { λ _ refusal. refusal ≡ refusals.NoMemory };

    fn from(_error: AllocFailed<T>) -> CodeRefusal {
        CodeRefusal::NoMemory
    }
}
