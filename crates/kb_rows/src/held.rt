//! A value in a box of its own.

ghost use Rattle.std.specs.Prelude.{◌≡◌, OnOk, IfOk};
ghost use Rattle.std.specs.Borrow.{Lends, sem};
ghost use Rattle.kb_rows.specs.contracts.held.Held.{the_row};

use std::alloc::{AllocError, Global};
use std::marker::Model;

/// A value that lies elsewhere: moving, keeping and dropping it handles a pointer, whatever its size. Contracts see the value
/// itself.
#[derive(Drop)]
pub struct Held<T> {
    of: Box<T>,
}

impl<T> Model for Held<T> {
    ghost use Rattle.std.specs.Prelude.{◌≡◌};

    ghost Value = { T };

    ghost view = { λ held. held.of.value };
}

impl<T> Held<T> {
    /// The value.
    pub fn get(&self) -> &T
        ensures { result.now ≡ self.now }
    {
        &self.of
    }

    /// The value, to be changed in its place.
    pub fn get_mut(&mut self) -> &mut T
        ensures* lent { sem 𝓛 (Lends (the_row T.row) T.row self.entry result (λ value. value)) }
        ensures value { result.now ≡ self.old }
    {
        &mut self.of
    }

    /// The value, taken out of its box.
    pub fn into_inner(self) -> T
        ensures { result ≡ self }
    {
        Box::into_inner(self.of)
    }
}

impl<T: Drop> Held<T> {
    /// The value in a box. Where memory runs out it is dropped.
    pub fn new(alloc: Global, value: T) -> Result<Held<T>, AllocError>
        ensures { IfOk result (λ held. held ≡ value) }
    {
        Ok(Held {
            of: Box::new(alloc, value)?,
        })
    }
}
