//! Instructions of the Java virtual machine (JVMS 8 section 6.5).

use kb_rows::Row;

/// What an array holds: ints, references, or booleans, which byte instructions load and store.
#[derive(Clone, Copy, Debug, PartialEq, Eq)]
pub enum Elem {
    Int,
    Ref,
    Byte,
}

/// An operation on two ints.
#[derive(Clone, Copy, Debug, PartialEq, Eq)]
pub enum IntOp {
    Add,
    Sub,
    Mul,
    Div,
    Rem,
    Shl,
    Shr,
    Ushr,
    And,
    Or,
    Xor,
}

/// How an int is narrowed: i2b, i2c and i2s.
#[derive(Clone, Copy, Debug, PartialEq, Eq)]
pub enum IntCut {
    Byte,
    Char,
    Short,
}

/// How two ints, or an int and 0, are compared.
#[derive(Clone, Copy, Debug, PartialEq, Eq)]
pub enum Cond {
    Eq,
    Ne,
    Lt,
    Ge,
    Gt,
    Le,
}

/// An instruction. Locals are named by their number, entries of the constant pool by theirs, and targets are offsets into
/// the code.
#[derive(Drop)]
pub enum Instr {
    Nop,
    PushNull,
    PushInt(i32),
    Ldc(u16),
    LoadInt(u16),
    LoadRef(u16),
    StoreInt(u16),
    StoreRef(u16),
    LoadElem(Elem),
    StoreElem(Elem),
    Pop,
    Pop2,
    Dup,
    DupX1,
    DupX2,
    Dup2,
    Dup2X1,
    Dup2X2,
    Swap,
    Int2(IntOp),
    Neg,
    /// The local, and the constant that is added to it.
    Inc(u16, i32),
    Narrow(IntCut),
    /// An int is compared with 0.
    IfInt(Cond, u32),
    /// Two ints are compared.
    IfPair(Cond, u32),
    /// Whether it goes on at the target where two references are the same, or where they are not.
    IfSame(bool, u32),
    /// Whether it goes on at the target where a reference is null, or where it is not.
    IfNull(bool, u32),
    Goto(u32),
    /// tableswitch: the lowest int, the default target, and the targets from the lowest int on.
    Table(i32, u32, Row<u32>),
    /// lookupswitch: the default target, and ints with their targets.
    Lookup(u32, Row<(i32, u32)>),
    ReturnInt,
    ReturnRef,
    Return,
    GetField(u16),
    PutField(u16),
    Virtual(u16),
    Special(u16),
    Static(u16),
    Interface(u16),
    New(u16),
    /// newarray, with its code.
    NewPrim(u8),
    NewRefs(u16),
    Length,
    Throw,
    Cast(u16),
    InstanceOf(u16),
    /// An instruction of another kind, by its opcode; its operands are not looked at.
    Other(u8),
}
