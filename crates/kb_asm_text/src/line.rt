//! The lines of an assembler text.

use kb_names::{JType, MethodType, Name, Target};
use kb_rows::Row;

/// The line that names the class and its superclass.
#[derive(Drop)]
pub struct ClassHead {
    pub access: u16,
    pub name: Name,
    pub parent: Name,
}

/// A field.
#[derive(Drop)]
pub struct FieldHead {
    pub access: u16,
    pub name: Name,
    pub kind: JType,
}

/// How many slots the operand stack and the locals of a method have.
#[derive(Clone, Copy)]
pub struct Sizes {
    pub max_stack: u16,
    pub max_locals: u16,
}

/// The first line of a method. One with code has sizes, and a body behind it.
#[derive(Drop)]
pub struct MethodHead {
    pub access: u16,
    pub name: Name,
    pub kind: MethodType,
    pub sizes: Option<Sizes>,
}

/// A constant that is pushed.
#[derive(Drop)]
pub enum Constant {
    Int(i32),
    Text(Name),
}

/// A field of a class, by the class's name, its own and its type.
#[derive(Drop)]
pub struct FieldName {
    pub class: Name,
    pub name: Name,
    pub kind: JType,
}

/// What a Class entry names: a class, or an array type.
#[derive(Drop)]
pub enum ClassRef {
    Class(Name),
    Array(JType),
}

/// An int of a lookupswitch, and the label where it goes on.
#[derive(Drop)]
pub struct Case {
    pub key: i32,
    pub target: Name,
}

/// What stands behind a mnemonic. Labels are names of letters and digits.
#[derive(Drop)]
pub enum Operand {
    /// Nothing.
    Alone,
    /// The int of bipush.
    Byte(i8),
    /// The int of sipush.
    Short(i16),
    Constant(Constant),
    /// The number of a local.
    Local(u16),
    /// The local of iinc, and the constant that is added to it.
    Increment(u8, i8),
    Field(FieldName),
    Method(Target),
    /// The class of new.
    New(Name),
    Type(ClassRef),
    /// The code of newarray.
    Primitive(u8),
    /// The target of a branch.
    Target(Name),
    /// tableswitch: the lowest int, the default target, and the targets from the lowest int on.
    Table(i32, Name, Row<Name>),
    /// lookupswitch: the default target, and ints with their targets.
    Lookup(Name, Row<Case>),
}

/// A row of the handler table by its labels, with the class that is caught, or none for any.
#[derive(Drop)]
pub struct Catch {
    pub start: Name,
    pub end: Name,
    pub target: Name,
    pub class: Option<Name>,
}

/// A line of a body.
#[derive(Drop)]
pub enum BodyLine {
    /// Names the offset that follows.
    Label(Name),
    /// An instruction, by its opcode.
    Instr(u8, Operand),
    /// A byte, which begins an instruction of its own.
    Raw(u8),
    Catch(Catch),
}

/// A line.
#[derive(Drop)]
pub enum Line {
    Class(ClassHead),
    /// A direct superinterface.
    Implements(Name),
    Field(FieldHead),
    Method(MethodHead),
    Body(BodyLine),
    /// Ends the body of a method.
    End,
}
