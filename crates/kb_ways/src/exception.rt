//! What is thrown.

use kb_names::ExactType;

/// What is thrown.
#[derive(Clone, Copy)]
pub enum Thrown<'a> {
    /// A new object of the class, which is made where it is caught or ends the run.
    Class(&'a [u8]),
    /// The object of the picture of that number, which has that exact type.
    Obj(u32, &'a ExactType),
    /// The object that the run has made of that number, which has that exact type.
    New(u32, &'a ExactType),
}
