//! What is wrong with a class file.

/// The first rule that a class file breaks, with the number of an entry of its pool.
///
/// An entry with that number may be no Utf8 entry, or not be there: then it has no text, and so none that is asked for. A file
/// that was read has no such numbers.
#[derive(Clone, Copy, PartialEq, Eq)]
pub enum FormatFault {
    /// The name of a Class entry that is neither an array's descriptor nor non-empty and free of `.`, `;` and `[`, or an empty
    /// name of a NameAndType entry, field or method: its entry.
    BadName(u16),
    /// What a NameAndType entry, field or method has for a descriptor, and is none, or not one of its kind: its entry.
    BadDescriptor(u16),
    /// A field, or a method, with the name and descriptor of an earlier one: the entry of its name.
    TwoMembers(u16),
}
