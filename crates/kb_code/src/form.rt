//! What each opcode asks for behind it (JVMS 8 chapter 7 lists the opcodes in these groups).

ghost use Rattle.std.specs.Prelude.{◌≡◌};
ghost use Rattle.kb_code.specs.Forms.{local_instr, entry_instr, branch_instr};

use crate::instruction::{Cond, Instr};
use kb_rows::Row;

/// An instruction that names a local.
#[derive(Clone, Copy)]
pub enum Local {
    LoadInt,
    LoadRef,
    StoreInt,
    StoreRef,
}

/// An instruction that names an entry of the constant pool in two bytes.
#[derive(Clone, Copy)]
pub enum Entry {
    Constant,
    GetField,
    PutField,
    Virtual,
    Special,
    Static,
    New,
    NewRefs,
    Cast,
    InstanceOf,
}

/// An instruction that has one target.
#[derive(Clone, Copy)]
pub enum Branch {
    IfInt(Cond),
    IfPair(Cond),
    IfSame(bool),
    IfNull(bool),
    Goto,
}

/// What stands behind an opcode, and which instruction it makes.
#[derive(Drop)]
pub enum Form {
    /// No operand.
    Alone(Instr),
    /// An int of one byte, which is pushed.
    PushByte,
    /// An int of two bytes, which is pushed.
    PushShort,
    /// The number of a constant in one byte.
    Constant,
    /// The number of a local in one byte.
    Local(Local),
    /// The number of a local, and a constant, in one byte each.
    Increment,
    /// The number of a pool entry in two bytes.
    Entry(Entry),
    /// The number of a pool entry in two bytes, and two bytes that are not looked at.
    Interface,
    /// The code of an array type in one byte.
    Primitive,
    /// The distance of the target in two bytes.
    Near(Branch),
    /// The distance of the target in four bytes.
    Far(Branch),
    /// A tableswitch.
    Table,
    /// A lookupswitch.
    Lookup,
    /// An opcode of its own, with longer operands.
    Wide,
    /// An opcode whose operands, of so many bytes, are not looked at.
    Skipped(u8, usize),
}

/// What stands behind an opcode that stands behind wide.
#[derive(Clone, Copy)]
pub enum WideForm {
    /// The number of a local in two bytes.
    Local(Local),
    /// The number of a local, and a constant, in two bytes each.
    Increment,
    /// Two bytes that are not looked at.
    Skipped(u8),
}

/// An instruction as it is read: its targets are whole numbers, at which no instruction need begin.
#[derive(Drop)]
pub enum Loose {
    /// An instruction without targets.
    Straight(Instr),
    Jump(Branch, i64),
    /// A tableswitch: the lowest int, the default target, the other targets.
    Table(i32, i64, Row<i64>),
    /// A lookupswitch: the default target, and ints with their targets.
    Lookup(i64, Row<(i32, i64)>),
}

impl Local {
    /// The instruction with the number of a local.
    pub fn instr(self, local: u16) -> Instr
        ensures { result ≡ local_instr self local }
    {
        match self {
            Local::LoadInt => Instr::LoadInt(local),
            Local::LoadRef => Instr::LoadRef(local),
            Local::StoreInt => Instr::StoreInt(local),
            Local::StoreRef => Instr::StoreRef(local),
        }
    }
}

impl Entry {
    /// The instruction with the number of a pool entry.
    pub fn instr(self, entry: u16) -> Instr
        ensures { result ≡ entry_instr self entry }
    {
        match self {
            Entry::Constant => Instr::Ldc(entry),
            Entry::GetField => Instr::GetField(entry),
            Entry::PutField => Instr::PutField(entry),
            Entry::Virtual => Instr::Virtual(entry),
            Entry::Special => Instr::Special(entry),
            Entry::Static => Instr::Static(entry),
            Entry::New => Instr::New(entry),
            Entry::NewRefs => Instr::NewRefs(entry),
            Entry::Cast => Instr::Cast(entry),
            Entry::InstanceOf => Instr::InstanceOf(entry),
        }
    }
}

impl Branch {
    /// The instruction with the offset of its target.
    pub fn instr(self, to: u32) -> Instr
        ensures { result ≡ branch_instr self to }
    {
        match self {
            Branch::IfInt(cond) => Instr::IfInt(cond, to),
            Branch::IfPair(cond) => Instr::IfPair(cond, to),
            Branch::IfSame(same) => Instr::IfSame(same, to),
            Branch::IfNull(null) => Instr::IfNull(null, to),
            Branch::Goto => Instr::Goto(to),
        }
    }
}
