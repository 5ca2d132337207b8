//! Numbers and runs of bytes, appended to bytes. After memory ran out the bytes are only dropped.

ghost use Rattle.std.specs.Prelude.{◌≡◌, ◌<◌, ◌^◌, [], ◌∷◌, ◌++◌, OnOk};
ghost use Rattle.kb_writer.specs.Numbers.{u2, u4};

use crate::NoMemory;

/// A number in one byte.
pub fn push_u1(into: &mut Vec<u8>, n: u8) -> Result<(), NoMemory>
    ensures { OnOk result (into.new.items ≡ into.old.items ++ n ∷ []) }
{
    into.push(n)?;
    Ok(())
}

/// A number in two bytes.
pub fn push_u2(into: &mut Vec<u8>, n: u16) -> Result<(), NoMemory>
    ensures { OnOk result (into.new.items ≡ into.old.items ++ u2 n) }
{
    into.extend_from_slice(&n.to_be_bytes())?;
    Ok(())
}

/// A number in four bytes.
pub fn push_u4(into: &mut Vec<u8>, n: u32) -> Result<(), NoMemory>
    ensures { OnOk result (into.new.items ≡ into.old.items ++ u4 n) }
{
    into.extend_from_slice(&n.to_be_bytes())?;
    Ok(())
}

/// Bytes as they are.
pub fn push_run(into: &mut Vec<u8>, bytes: &[u8]) -> Result<(), NoMemory>
    ensures { OnOk result (into.new.items ≡ into.old.items ++ bytes.now) }
{
    into.extend_from_slice(bytes)?;
    Ok(())
}

/// The count of a list, in two bytes.
pub fn push_count(into: &mut Vec<u8>, count: usize) -> Result<(), NoMemory>
    requires { count < 2 ^ 16 }
    ensures { OnOk result (into.new.items ≡ into.old.items ++ u2 count) }
{
    push_u2(into, count as u16)
}
