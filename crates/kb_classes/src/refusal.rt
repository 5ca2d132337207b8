//! Why there is no world of classes.

use kb_names::{Name, Target};

/// Why classes are not linked, or a method is not reached.
#[derive(Drop)]
pub enum LinkRefusal {
    /// More than 64 classes are given.
    TooMany,
    /// A name that may not be one: the number of the file, and of the name's entry.
    BadName(u32, u16),
    /// A descriptor that is none: the number of the file, and of the descriptor's entry.
    BadDescriptor(u32, u16),
    /// A second field or method of one name and descriptor: the number of the file, and of the name's entry.
    TwoMembers(u32, u16),
    /// Two classes have the name, or one has that of a platform class.
    Twice(Name),
    /// No class has the name of a superclass or interface, or of the class, or the class of an array's elements, of a new,
    /// anewarray, checkcast or instanceof.
    Missing(Name),
    /// The class is one of its own superclasses and interfaces.
    Circle(Name),
    /// A superclass that is final or an interface, or an interface that is none.
    BadSuper(Name),
    /// A class, and a method of it that a superclass in another package declares too, both inside their package.
    SplitPackage(Name, Name),
    /// The target names no method that may be run.
    NoMethod(Target),
    /// The method, and the offset of its getfield or putfield that names a field that is not there.
    NoField(Target, u32),
    /// The method, and the offset of an instruction in it that cannot be carried out, with the cause.
    Outside(Target, u32, What),
    /// The class, which code initialises, of a method that is called or of an object that is made.
    Initialiser(Name),
    NoMemory,
}

/// What of an instruction cannot be carried out.
#[derive(Clone, Copy, PartialEq, Eq)]
pub enum What {
    /// An opcode that is not built.
    Opcode(u8),
    /// A constant that is neither an int nor a string.
    Constant,
    /// An entry of the constant pool of another kind than the instruction takes.
    Operand,
    /// A type of which nothing can be made or held.
    Kind,
    /// A method that cannot be called.
    Method,
}
