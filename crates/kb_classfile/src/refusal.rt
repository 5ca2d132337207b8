//! Why bytes are not read as a class file.

ghost use Rattle.std.specs.Prelude.{◌≡◌};
ghost use Rattle.kb_classfile.specs.declared.refusal.ClassRefusal.TheVariants as refusals;

use std::alloc::{AllocError, AllocFailed};

/// What is wrong with a class file: the first fault that is met. Offsets count bytes from the front of
/// the file.
#[derive(Clone, Copy, Debug, PartialEq, Eq)]
pub enum ClassRefusal {
    /// The first four bytes are not CAFEBABE (JVMS 8 section 4.1).
    Magic,
    /// A major version other than 45 to 52.
    Version(u16),
    /// The offset of the first item that is not whole.
    Short(usize),
    /// An entry of the constant pool with a tag that there is not: the entry's number, the tag.
    Tag(u16, u8),
    /// A reference, at an offset, to a number that names no entry of the constant pool.
    PoolIndex(usize, u16),
    /// A reference, at an offset, to an entry of the wrong kind.
    PoolKind(usize, u16),
    /// A Code attribute, whose content begins at the offset, with no code, with more than 65,535 bytes
    /// of it, or that does not end at its length.
    CodeLength(usize),
    /// The offset of bytes behind the last attribute.
    Extra(usize),
    /// A method, counted from 0, with two Code attributes.
    TwoCodes(u32),
    /// More than 1,048,576 bytes.
    Long,
    /// Memory ran out.
    NoMemory,
}

impl From<AllocError> for ClassRefusal {
    ghost from_gives = { λ _ refusal. refusal ≡ refusals.NoMemory };

    fn from(_error: AllocError) -> ClassRefusal {
        ClassRefusal::NoMemory
    }
}

impl<T: Drop> From<AllocFailed<T>> for ClassRefusal {
    ghost from_gives = { λ _ refusal. refusal ≡ refusals.NoMemory };

    fn from(_error: AllocFailed<T>) -> ClassRefusal {
        ClassRefusal::NoMemory
    }
}
