//! Methods that are found, in order of first mention.
ghost use Rattle.std.specs.Prelude.{◌≡◌, ◌<◌, ◌∷◌, [], slice_get, IfOk, OnOk, IfSome};
ghost use Rattle.kb_universe.specs.Found.{with_new};

use kb_names::NoMemory;
use std::alloc::Global;
use std::marker::Model;

/// Methods by their numbers, each once, with a mark for each method of the world.
#[derive(Drop)]
pub struct Found {
    numbers: Vec<u32>,
    marks: Vec<bool>,
}

impl Model for Found {
    ghost use Rattle.std.specs.Prelude.{length};
    ghost use Rattle.kb_universe.specs.Found.{FoundMethods, AreMarked};

    ghost Value = { FoundMethods };

    ghost view = { λ f. record { all = length f.marks.items; numbers = f.numbers.items } };

    ghost invariant = { λ f. AreMarked f.numbers.items f.marks.items };
}

impl Found {
    /// That method alone, of so many.
    pub fn new(alloc: Global, all: usize, first: u32) -> Result<Found, NoMemory>
        requires { first < all }
        ensures { IfOk result (λ found. found ≡ record { all = all; numbers = first ∷ [] }) }
    {
        let mut found = Found::none(alloc, all)?;
        found.add(first)?;
        Ok(found)
    }

    // No method, of so many.
    fn none(alloc: Global, all: usize) -> Result<Found, NoMemory>
        ensures { IfOk result (λ found. found ≡ record { all = all; numbers = [] }) }
    {
        let marks = vec![in alloc; false; all]?;
        let numbers = Vec::new(alloc);
        Ok(Found { numbers, marks })
    }

    /// Adds the method behind the others, unless it is found.
    pub fn add(&mut self, number: u32) -> Result<(), NoMemory>
        requires { number < self.old.all }
        ensures { OnOk result (self.new ≡ record { all = self.old.all; numbers = with_new self.old.numbers number }) }
    {
        if self.marks[number as usize] {
            return Ok(());
        }
        self.numbers.push(number)?;
        self.marks[number as usize] = true;
        Ok(())
    }

    /// The method at that place.
    pub fn at(&self, place: usize) -> Option<u32>
        ensures there { result ≡ slice_get self.now.numbers place }
        ensures inside { IfSome result (λ number. (number < self.now.all) × (place < self.now.all)) }
    {
        self.numbers.get(place).copied()
    }
}
