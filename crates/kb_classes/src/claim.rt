//! As what classes name other ones.

/// As what a class is named by another one.
#[derive(Clone, Copy)]
pub enum ClaimKind {
    /// As its superclass.
    Parent,
    /// Among its interfaces.
    Interface,
}
