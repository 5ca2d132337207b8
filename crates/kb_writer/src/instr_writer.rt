//! Writing instructions (JVMS 8 section 6.5).

ghost use Rattle.std.specs.Prelude.{◌≡◌, [], ◌∷◌, ◌++◌, length, IsTrue, OnOk};
ghost use Rattle.kb_writer.specs.Numbers.{u2, byte};
ghost use Rattle.kb_code.specs.declared.instruction.Instr.{Instr};
ghost use Rattle.kb_code.specs.Listing.{SpellsInstr};
ghost use Rattle.kb_writer.specs.Instructions.{Writes, HasNumbers, is_sound, is_near, is_far, reaches, near, far, bytes_of, size_of};

use crate::NoMemory;
use crate::numbers::{push_u1, push_u2};
use crate::switch_writer::{push_far, push_lookup, push_near, push_table};
use crate::written::Written;
use kb_code::{INVOKEINTERFACE, LDC};

/// An opcode, and a number in two bytes.
fn push_entry(code: &mut Vec<u8>, op: u8, entry: u16) -> Result<(), NoMemory>
    ensures { OnOk result (code.new.items ≡ code.old.items ++ op ∷ u2 entry) }
{
    push_u1(code, op)?;
    push_u2(code, entry)
}

/// An opcode, and a number in one byte.
fn push_small(code: &mut Vec<u8>, op: u8, operand: u8) -> Result<(), NoMemory>
    ensures { OnOk result (code.new.items ≡ code.old.items ++ op ∷ operand ∷ []) }
{
    push_u1(code, op)?;
    push_u1(code, operand)
}

/// An instruction with a local, behind wide where its number is above 255.
#[tactic(auto, unfolding(crate::specs::Instructions::bytes_of))]
fn push_local(code: &mut Vec<u8>, op: u8, local: u16, at: u32) -> Result<(), NoMemory>
    ensures { OnOk result (code.new.items ≡ code.old.items ++ bytes_of (Written.Local op local) at) }
{
    if local < 256 {
        return push_small(code, op, local as u8);
    }
    push_u1(code, 0xc4)?;
    push_entry(code, op, local)
}

/// An iinc.
fn push_increment(code: &mut Vec<u8>, local: u8, constant: i8) -> Result<(), NoMemory>
    ensures { OnOk result (code.new.items ≡ code.old.items ++ 0x84 ∷ local ∷ byte constant) }
{
    push_small(code, 0x84, local)?;
    push_u1(code, constant.cast_unsigned())
}

/// An invokeinterface, whose last byte is 0.
fn push_interface(code: &mut Vec<u8>, entry: u16, words: u8) -> Result<(), NoMemory>
    ensures { OnOk result (code.new.items ≡ code.old.items ++ 0xb9 ∷ (u2 entry ++ words ∷ 0 ∷ [])) }
{
    push_entry(code, INVOKEINTERFACE, entry)?;
    push_small(code, words, 0)
}

/// An opcode, and the distance of a target in two bytes.
fn push_near_branch(code: &mut Vec<u8>, op: u8, at: u32, to: u32) -> Result<(), NoMemory>
    requires { IsTrue (is_near at to) }
    ensures { OnOk result (code.new.items ≡ code.old.items ++ op ∷ near at to) }
{
    push_u1(code, op)?;
    push_near(code, at, to)
}

/// An opcode, and the distance of a target in four bytes.
fn push_far_branch(code: &mut Vec<u8>, op: u8, at: u32, to: u32) -> Result<(), NoMemory>
    requires { IsTrue (is_far at to) }
    ensures { OnOk result (code.new.items ≡ code.old.items ++ op ∷ far at to) }
{
    push_u1(code, op)?;
    push_far(code, at, to)
}

/// The bytes of an instruction.
#[tactic(auto, unfolding(crate::specs::Instructions::bytes_of))]
fn push_instr(code: &mut Vec<u8>, written: &Written, at: u32) -> Result<(), NoMemory>
    requires sound { IsTrue (is_sound written.now) }
    requires reached { IsTrue (reaches written.now at) }
    ensures bytes { OnOk result (code.new.items ≡ code.old.items ++ bytes_of written.now at) }
    ensures numbers { OnOk result (HasNumbers written.now) }
{
    match written {
        Written::Alone(op) => push_u1(code, *op),
        Written::PushByte(z) => push_small(code, 0x10, z.cast_unsigned()),
        Written::PushShort(z) => push_entry(code, 0x11, z.cast_unsigned()),
        Written::Constant(entry) => push_small(code, LDC, *entry),
        Written::Local(op, local) => push_local(code, *op, *local, at),
        Written::Increment(local, constant) => push_increment(code, *local, *constant),
        Written::Entry(op, entry) => push_entry(code, *op, *entry),
        Written::Interface(entry, words) => push_interface(code, *entry, *words),
        Written::Primitive(kind) => push_small(code, 0xbc, *kind),
        Written::Near(op, to) => push_near_branch(code, *op, at, *to),
        Written::Far(op, to) => push_far_branch(code, *op, at, *to),
        Written::Table(low, default, targets) => push_table(
            code,
            at,
            *low,
            *default,
            targets.as_slice(),
        ),
        Written::Lookup(default, pairs) => push_lookup(code, at, *default, pairs.as_slice()),
    }
}

/// Appends the bytes of an instruction that stands at the offset `at` of the code. After memory ran out the code is only
/// dropped.
pub fn write_instr(code: &mut Vec<u8>, written: &Written, at: u32) -> Result<(), NoMemory>
    requires sound { IsTrue (is_sound written.now) }
    requires reached { IsTrue (reaches written.now at) }
    ensures bytes { OnOk result (code.new.items ≡ code.old.items ++ bytes_of written.now at) }
    ensures size { length (bytes_of written.now at) ≡ size_of written.now at }
    ensures spelled { OnOk result ((instr : Instr) → Writes written.now instr → SpellsInstr instr at (bytes_of written.now at)) }
{
    push_instr(code, written, at)
}
