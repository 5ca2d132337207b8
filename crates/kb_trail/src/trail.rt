//! The trail of a list of cells.
ghost use Rattle.std.specs.Prelude.{◌≡◌, ℕ, ◌<◌, ◌≤◌, [], length, take, slice_set, OnOk, OnErr, IfErr};
ghost use Rattle.kb_trail.specs.Trail.{Reaches, undone, with_entry};

use std::alloc::Global;
use std::marker::Model;
use std::mem;

/// A value that found no room on the trail, handed back.
#[derive(Drop)]
pub struct TrailFull<T> {
    pub value: T,
}

/// What was replaced in a list of cells, so that it can be put back, as in Warren's abstract machine (Warren 1983). Contracts see
/// the list of the places with the values that were replaced there.
///
/// A mark is how long the trail was when the mark was taken; it stands until something below it is undone.
#[derive(Drop)]
pub struct Trail<T> {
    entries: Vec<(usize, T)>,
}

impl<T> Model for Trail<T> {
    ghost use Rattle.std.specs.Prelude.{ℕ, List};

    ghost Value = { List (ℕ × T) };

    ghost view = { λ trail. trail.entries.items };
}

impl<T> Trail<T> {
    /// A trail on which nothing stands. It takes no memory.
    pub fn new(alloc: Global) -> Trail<T>
        ensures { result ≡ [] }
    {
        Trail {
            entries: Vec::new(alloc),
        }
    }

    /// The mark of the cells as they are now.
    pub fn mark(&self) -> usize
        ensures { result ≡ length self.now }
    {
        self.entries.len()
    }
}

impl<T: Drop> Trail<T> {
    /// Puts a value into a cell, and on the trail what stood there. Where memory runs out nothing changes, and the value is handed
    /// back. It takes constant time, but for a move of the whole trail each time that it has doubled.
    pub fn set(&mut self, cells: &mut Vec<T>, place: usize, value: T) -> Result<(), TrailFull<T>>
        requires { place < length cells.old.items }
        ensures cells { OnOk result (cells.new.items ≡ slice_set cells.old.items place value) }
        ensures entry { OnOk result (self.new ≡ with_entry self.old cells.old.items place value) }
        ensures marks { (mark : ℕ) → mark ≤ length self.old → undone self.new cells.new.items mark ≡ undone self.old cells.old.items mark }
        ensures front { take (length self.old) self.new ≡ self.old }
        ensures places { Reaches cells.old.items self.old → Reaches cells.new.items self.new }
        ensures count { length cells.new.items ≡ length cells.old.items }
        ensures same_cells { OnErr result (cells.new.items ≡ cells.old.items) }
        ensures same_trail { OnErr result (self.new ≡ self.old) }
        ensures handed_back { IfErr result (λ full. full.value ≡ value) }
    {
        match self.entries.reserve(1) {
            Ok(()) => {
                let replaced = mem::replace(&mut cells[place], value);
                self.entries.push((place, replaced)).unwrap();
                Ok(())
            }
            Err(_) => Err(TrailFull { value }),
        }
    }

    /// Takes the entries above a mark away, from the last to the first, and puts the value that each replaced back at its place. It
    /// takes no memory, and time in proportion to the entries that go.
    pub fn undo_to(&mut self, cells: &mut Vec<T>, mark: usize)
        requires mark { mark ≤ length self.old }
        requires places { Reaches cells.old.items self.old }
        ensures cells { cells.new.items ≡ undone self.old cells.old.items mark }
        ensures trail { self.new ≡ take mark self.old }
        ensures marks { (earlier : ℕ) → earlier ≤ mark → undone self.new cells.new.items earlier ≡ undone self.old cells.old.items earlier }
        ensures places { Reaches cells.new.items self.new }
        ensures count { length cells.new.items ≡ length cells.old.items }
    {
        while mark < self.entries.len() {
            if let Some((place, value)) = self.entries.pop() {
                cells[place] = value;
            }
        }
    }
}
