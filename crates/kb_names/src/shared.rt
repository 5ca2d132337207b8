//! Lists with several owners.
ghost use Rattle.std.specs.Prelude.{◌≡◌, [], IfOk};

use crate::{NoMemory, Row};
use std::alloc::Global;
use std::marker::Model;
use std::sync::Arc;

/// A list that is made once and then shared: copying it adds an owner, and copies no item. Contracts see it as
/// the list of its items.
#[derive(Drop)]
pub struct SharedRow<T> {
    // `None` where there are no items.
    shared: Option<Arc<Vec<T>, Global>>,
}

impl<T> Model for SharedRow<T> {
    ghost use Rattle.std.specs.Prelude.{List};

    ghost Value = { List T };

    ghost use Rattle.kb_names.specs.Shared.{items_of};

    ghost view = { λ row. items_of row.shared };
}

impl<T> SharedRow<T> {
    /// The row of no items. It takes no memory.
    pub fn new() -> SharedRow<T>
        ensures { result ≡ [] }
    {
        SharedRow { shared: None }
    }

    /// The items.
    pub fn as_slice(&self) -> &[T]
        ensures { result.now ≡ self.now }
    {
        match &self.shared {
            Some(items) => items.as_slice(),
            None => &[],
        }
    }
}

impl<T: Drop> SharedRow<T> {
    /// The row of the items of that `Vec`. Where memory runs out they are dropped.
    pub fn from_vec(items: Vec<T>) -> Result<SharedRow<T>, NoMemory>
        ensures { IfOk result (λ row. row ≡ items.items) }
    {
        let alloc = *items.allocator();
        Ok(SharedRow {
            shared: Some(Arc::new(alloc, items)?),
        })
    }

    /// The row of the items of another.
    pub fn from_row(items: Row<T>) -> Result<SharedRow<T>, NoMemory>
        ensures { IfOk result (λ row. row ≡ items) }
    {
        SharedRow::from_vec(items.into_vec())
    }

    /// Another owner of the items. It takes no memory.
    pub fn copied(&self) -> Result<SharedRow<T>, NoMemory>
        ensures { IfOk result (λ row. row ≡ self.now) }
    {
        match &self.shared {
            Some(items) => Ok(SharedRow {
                shared: Some(Arc::try_clone(items)?),
            }),
            None => Ok(SharedRow { shared: None }),
        }
    }
}
