//! A list that grows and shrinks at both ends.

ghost use Rattle.std.specs.Prelude.{◌≡◌, [], ◌∷◌, ◌++◌, IfNone, IfSome, OnOk};

use crate::NoMemory;
use std::alloc::Global;
use std::collections::VecDeque;
use std::marker::Model;

/// Contracts see it as the list of its items, from the front.
#[derive(Drop)]
pub struct Queue<T> {
    inner: VecDeque<T>,
}

impl<T> Model for Queue<T> {
    ghost use Rattle.std.specs.Prelude.{List};

    ghost Value = { List T };

    ghost view = { λ queue. queue.inner.items };
}

impl<T> Queue<T> {
    /// The queue of no items. It takes no memory.
    pub fn new(alloc: Global) -> Queue<T>
        ensures { result ≡ [] }
    {
        Queue {
            inner: VecDeque::new(alloc),
        }
    }

    /// Takes the first item, if there is one.
    pub fn pop_front(&mut self) -> Option<T>
        ensures some { IfSome result (λ item. self.old ≡ item ∷ self.new) }
        ensures none { IfNone result (self.old ≡ []) }
    {
        self.inner.pop_front()
    }

    /// Takes the last item, if there is one.
    pub fn pop_back(&mut self) -> Option<T>
        ensures some { IfSome result (λ item. self.old ≡ self.new ++ item ∷ []) }
        ensures none { IfNone result (self.old ≡ []) }
    {
        self.inner.pop_back()
    }

    /// The items, from the front. It takes no memory.
    pub fn into_vec(self) -> Vec<T>
        ensures { result.items ≡ self }
    {
        self.inner.into_vec()
    }
}

impl<T: Drop> Queue<T> {
    /// Adds an item before the others. Where memory runs out it is dropped.
    pub fn push_front(&mut self, item: T) -> Result<(), NoMemory>
        ensures { OnOk result (self.new ≡ item ∷ self.old) }
    {
        self.inner.push_front(item)?;
        Ok(())
    }

    /// Adds an item behind the others. Where memory runs out it is dropped.
    pub fn push_back(&mut self, item: T) -> Result<(), NoMemory>
        ensures { OnOk result (self.new ≡ self.old ++ item ∷ []) }
    {
        self.inner.push_back(item)?;
        Ok(())
    }
}
