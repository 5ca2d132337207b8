//! A pile.
ghost use Rattle.std.specs.Prelude.{◌≡◌, [], ◌∷◌, drop, length, reverse, slice_get, take, IfSome, IfNone, OnOk, OnErr};
ghost use Rattle.std.specs.Option.{option_copied};

use std::alloc::{AllocError, Global};
use std::marker::Model;

/// A pile over a `Vec`, whose last item is the top. Contracts see the list of its items from the top down.
#[derive(Drop)]
pub struct Pile<T> {
    items: Vec<T>,
}

impl<T> Model for Pile<T> {
    ghost use Rattle.std.specs.Prelude.{List, reverse};

    ghost Value = { List T };

    ghost view = { λ pile. reverse pile.items.items };
}

impl<T> Pile<T> {
    /// The pile of no items. It takes no memory.
    pub fn new(alloc: Global) -> Pile<T>
        ensures { result ≡ [] }
    {
        Pile {
            items: Vec::new(alloc),
        }
    }

    /// The pile of these items, the last one being the top.
    pub fn from_vec(items: Vec<T>) -> Pile<T>
        ensures { result ≡ reverse items.items }
    {
        Pile { items }
    }

    /// The items, the top being the last one.
    pub fn as_slice(&self) -> &[T]
        ensures { result.now ≡ reverse self.now }
    {
        self.items.as_slice()
    }

    /// How many items there are.
    pub fn len(&self) -> usize
        ensures { result ≡ length self.now }
    {
        self.items.len()
    }

    /// The item so deep, the top being 0.
    #[tactic(auto, using(crate::proofs::PileLaws::so_deep))]
    pub fn get(&self, depth: usize) -> Option<&T>
        ensures { option_copied result ≡ slice_get self.now depth }
    {
        let count = self.items.len();
        if depth >= count {
            return None;
        }
        self.items.as_slice().get(count - 1 - depth)
    }

    /// So many items from the top, the lowest one first. All of them, where there are fewer.
    #[tactic(auto, using(crate::proofs::PileLaws::top_right))]
    pub fn top(&self, count: usize) -> &[T]
        ensures { result.now ≡ reverse (take count self.now) }
    {
        let below = self.items.len().saturating_sub(count);
        &self.items[below..]
    }
}

impl<T: Drop> Pile<T> {
    /// Puts an item on the top. Where memory runs out it is dropped.
    pub fn push(&mut self, item: T) -> Result<(), AllocError>
        ensures ok { OnOk result (self.new ≡ item ∷ self.old) }
        ensures err { OnErr result (self.new ≡ self.old) }
    {
        self.items.push(item)?;
        Ok(())
    }

    /// Takes so many items off the top.
    #[tactic(auto, using(crate::proofs::PileLaws::rest_left))]
    pub fn pop(&mut self, count: usize)
        ensures { self.new ≡ drop count self.old }
    {
        let below = self.items.len().saturating_sub(count);
        self.items.truncate(below);
    }

    /// Takes off the item below so many from the top, and these. Where there are not so many, all stay.
    #[tactic(auto, using(crate::proofs::PileLaws::rest_left))]
    pub fn pop_past(&mut self, count: usize) -> Option<T>
        ensures some { IfSome result (λ item. drop count self.old ≡ item ∷ self.new) }
        ensures none { IfNone result (drop count self.old ≡ []) }
        ensures stay { IfNone result (self.new ≡ self.old) }
    {
        let all = self.items.len();
        if count >= all {
            return None;
        }
        self.items.truncate(all - count);
        self.items.pop()
    }

    /// Has nothing but the item. Where memory runs out it is dropped.
    pub fn hold(&mut self, item: T) -> Result<(), AllocError>
        ensures { OnOk result (self.new ≡ item ∷ []) }
    {
        self.items.clear();
        self.items.push(item)?;
        Ok(())
    }
}
