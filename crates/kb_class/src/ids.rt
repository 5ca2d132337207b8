//! Numbers of classes and methods.

/// The number of a class in its world, from 0: the given classes in the order given, then the platform classes.
#[derive(Clone, Copy, PartialEq, Eq, Hash)]
pub struct ClassId(pub u32);

/// The number of a method in its world, from 0: those of the first class in file order, then those of the next one.
#[derive(Clone, Copy, PartialEq, Eq, Hash)]
pub struct MethodId(pub u32);
