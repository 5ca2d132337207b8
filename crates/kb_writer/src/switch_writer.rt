//! Writing distances and switches (JVMS 8 section 6.5 on tableswitch and lookupswitch).

ghost use Rattle.std.specs.Prelude.{◌≡◌, ◌<◌, ◌^◌, ◌++◌, pos, ◌+ℤ◌, ◌-ℤ◌, length, IsTrue, OnOk};
ghost use Rattle.std.specs.List.{flat_map, list_all};
ghost use Rattle.kb_code.specs.Switches.{is_table};
ghost use Rattle.kb_writer.specs.Numbers.{int};
ghost use Rattle.kb_writer.specs.Instructions.{HaveInts, is_near, is_far, near, far, padding, pair_bytes, bounds, switch_head, table_bytes, lookup_bytes};

use crate::NoMemory;
use crate::numbers::{push_run, push_u1, push_u2, push_u4};
use crate::written::padding_behind;

/// An int in four bytes.
fn push_int(into: &mut Vec<u8>, z: i32) -> Result<(), NoMemory>
    ensures { OnOk result (into.new.items ≡ into.old.items ++ int z) }
{
    push_u4(into, z.cast_unsigned())
}

/// The distance of a target from the instruction at `from`, in two bytes.
pub fn push_near(into: &mut Vec<u8>, from: u32, to: u32) -> Result<(), NoMemory>
    requires { IsTrue (is_near from to) }
    ensures { OnOk result (into.new.items ≡ into.old.items ++ near from to) }
{
    let distance = (i64::from(to) - i64::from(from)) as i16;
    push_u2(into, distance.cast_unsigned())
}

/// The distance of a target from the instruction at `from`, in four bytes.
pub fn push_far(into: &mut Vec<u8>, from: u32, to: u32) -> Result<(), NoMemory>
    requires { IsTrue (is_far from to) }
    ensures { OnOk result (into.new.items ≡ into.old.items ++ far from to) }
{
    let distance = (i64::from(to) - i64::from(from)) as i32;
    push_int(into, distance)
}

/// The zeros between the opcode at `from` and the next multiple of four.
fn push_padding(into: &mut Vec<u8>, from: u32) -> Result<(), NoMemory>
    ensures { OnOk result (into.new.items ≡ into.old.items ++ padding from) }
{
    push_run(into, &[0, 0, 0][..padding_behind(from)])
}

/// The distances of targets.
fn push_targets(into: &mut Vec<u8>, from: u32, targets: &[u32]) -> Result<(), NoMemory>
    requires { IsTrue (list_all (is_far from) targets.now) }
    ensures { OnOk result (into.new.items ≡ into.old.items ++ flat_map (far from) targets.now) }
{
    let mut rest = targets;
    while let [first, others @ ..] = rest {
        push_far(into, from, *first)?;
        rest = others;
    }
    Ok(())
}

/// Ints with the distances of their targets.
fn push_pairs(into: &mut Vec<u8>, from: u32, pairs: &[(i32, u32)]) -> Result<(), NoMemory>
    requires { IsTrue (list_all (λ pair. is_far from pair.1) pairs.now) }
    ensures bytes { OnOk result (into.new.items ≡ into.old.items ++ flat_map (pair_bytes from) pairs.now) }
    ensures ints { OnOk result (HaveInts pairs.now) }
{
    let mut rest = pairs;
    while let [first, others @ ..] = rest {
        push_int(into, first.0)?;
        push_far(into, from, first.1)?;
        rest = others;
    }
    Ok(())
}

/// The highest int of a tableswitch.
fn highest(low: i32, count: usize) -> i32
    requires { IsTrue (is_table low count) }
    ensures { result ≡ low +ℤ pos count -ℤ pos 1 }
{
    (i64::from(low) + count as i64 - 1) as i32
}

/// The lowest int of a tableswitch, and the highest.
#[tactic(auto, unfolding(crate::specs::Instructions::bounds))]
fn push_bounds(into: &mut Vec<u8>, low: i32, count: usize) -> Result<(), NoMemory>
    requires { IsTrue (is_table low count) }
    ensures { OnOk result (into.new.items ≡ into.old.items ++ bounds low count) }
{
    push_int(into, low)?;
    push_int(into, highest(low, count))
}

/// The opcode of a switch, the zeros, and the default target.
#[tactic(auto, unfolding(crate::specs::Instructions::switch_head))]
fn push_switch(into: &mut Vec<u8>, op: u8, from: u32, default: u32) -> Result<(), NoMemory>
    requires { IsTrue (is_far from default) }
    ensures { OnOk result (into.new.items ≡ into.old.items ++ switch_head op from default) }
{
    push_u1(into, op)?;
    push_padding(into, from)?;
    push_far(into, from, default)
}

/// A tableswitch.
pub fn push_table(
    into: &mut Vec<u8>,
    from: u32,
    low: i32,
    default: u32,
    targets: &[u32],
) -> Result<(), NoMemory>
    requires sound { IsTrue (is_table low (length targets.now)) }
    requires near { IsTrue (is_far from default) }
    requires reached { IsTrue (list_all (is_far from) targets.now) }
    ensures { OnOk result (into.new.items ≡ into.old.items ++ table_bytes from low default targets.now) }
{
    push_switch(into, 0xaa, from, default)?;
    push_bounds(into, low, targets.len())?;
    push_targets(into, from, targets)
}

/// A lookupswitch.
pub fn push_lookup(
    into: &mut Vec<u8>,
    from: u32,
    default: u32,
    pairs: &[(i32, u32)],
) -> Result<(), NoMemory>
    requires count { length pairs.now < 2 ^ 31 }
    requires near { IsTrue (is_far from default) }
    requires reached { IsTrue (list_all (λ pair. is_far from pair.1) pairs.now) }
    ensures bytes { OnOk result (into.new.items ≡ into.old.items ++ lookup_bytes from default pairs.now) }
    ensures ints { OnOk result (HaveInts pairs.now) }
{
    push_switch(into, 0xab, from, default)?;
    push_int(into, pairs.len() as i32)?;
    push_pairs(into, from, pairs)
}
