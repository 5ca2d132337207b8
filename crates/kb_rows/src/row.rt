//! A list that contracts see as the list of its items.

ghost use Rattle.std.specs.Prelude.{◌≡◌, ◌<◌, [], ◌∷◌, ◌++◌, length, slice_set, slice_index_or, OnOk, OnErr, IfOk, IfErr};
ghost use Rattle.std.specs.Borrow.{Lends, sem};
ghost use Rattle.kb_rows.specs.contracts.row.Row.{the_row};

use std::alloc::{AllocError, Global};
use std::marker::Model;

/// A list over a `Vec`: made from it and lent as a slice, and neither takes memory.
#[derive(Clone, Debug, Drop)]
pub struct Row<T> {
    inner: Vec<T>,
}

impl<T> Model for Row<T> {
    ghost use Rattle.std.specs.Prelude.{List};

    ghost Value = { List T };

    ghost view = { λ row. row.inner.items };
}

impl<T> Row<T> {
    /// The row of no items. It takes no memory.
    pub fn new(alloc: Global) -> Row<T>
        ensures { result ≡ [] }
    {
        Row {
            inner: Vec::new(alloc),
        }
    }

    /// The row of the items of that `Vec`.
    pub fn from_vec(items: Vec<T>) -> Row<T>
        ensures { result ≡ items.items }
    {
        Row { inner: items }
    }

    /// The items.
    pub fn as_slice(&self) -> &[T]
        ensures { result.now ≡ self.now }
    {
        self.inner.as_slice()
    }

    /// The item at that index, to be changed in its place.
    pub fn item_mut(&mut self, index: usize) -> &mut T
        requires { index < length self.old }
        ensures* lent { sem 𝓛 (Lends (the_row T.row) T.row self.entry result (λ item. slice_set self.old index item)) }
        ensures item { result.now ≡ slice_index_or self.old index result.now }
    {
        &mut self.inner[index]
    }

    /// The items, given back.
    pub fn into_vec(self) -> Vec<T>
        ensures { result.items ≡ self }
    {
        self.inner
    }
}

impl<T: Drop> Row<T> {
    /// Adds an item behind the others. Where memory runs out the item is dropped.
    pub fn push(&mut self, item: T) -> Result<(), AllocError>
        ensures ok { OnOk result (self.new ≡ self.old ++ item ∷ []) }
        ensures err { OnErr result (self.new ≡ self.old) }
    {
        self.inner.push(item)?;
        Ok(())
    }

    /// Adds an item behind the others. Where memory runs out the item is handed back.
    pub fn give(&mut self, item: T) -> Result<(), T>
        ensures ok { OnOk result (self.new ≡ self.old ++ item ∷ []) }
        ensures err { IfErr result (λ back. (back ≡ item) × (self.new ≡ self.old)) }
    {
        match self.inner.reserve(1) {
            Ok(()) => {
                self.inner.push(item).unwrap();
                Ok(())
            }
            Err(_) => Err(item),
        }
    }

    /// The row with one item more. Where memory runs out, row and item are dropped.
    pub fn with(self, item: T) -> Result<Row<T>, AllocError>
        ensures { IfOk result (λ row. row ≡ self ++ item ∷ []) }
    {
        let mut row = self;
        row.push(item)?;
        Ok(row)
    }

    /// Puts another item in the place of one, which is dropped.
    pub fn set(&mut self, index: usize, item: T)
        requires { index < length self.old }
        ensures { self.new ≡ slice_set self.old index item }
    {
        self.inner[index] = item;
    }
}
