//! The places of a class file at which a text is asked for.

/// What is asked of a text.
#[derive(Clone, Copy, PartialEq, Eq)]
pub enum Demand {
    /// The name of a class or interface, or the descriptor of an array type.
    ClassName,
    NotEmpty,
    /// The descriptor of a field.
    FieldType,
    /// The descriptor of a method.
    MethodType,
    /// The descriptor of a field or of a method.
    AnyType,
}

/// A place at which a text is asked for, by the number of the text's entry.
#[derive(Clone, Copy, PartialEq, Eq)]
pub struct Place {
    pub text: u16,
    pub demand: Demand,
}

/// A field or a method, by the numbers of the entries of its name and descriptor.
#[derive(Clone, Copy, PartialEq, Eq)]
pub struct Member {
    pub name: u16,
    pub kind: u16,
}
