//! What files are read from.
ghost use Rattle.std.specs.Prelude.{◌≡◌, ℕ, ◌+◌, ◌≤◌, ◌↔◌, Option, List, ◌++◌, length, take, IfSome, IsErrOf, OnOk, OnErr};
ghost use Rattle.kb_outside.specs.Outside.{Rose};

/// Why a read gave nothing.
#[derive(Clone, Copy, Debug, PartialEq, Eq)]
pub enum ShelfStop {
    /// The file could not be read, or there is none of that name. The shelf has counted it.
    Failed,
    /// Memory ran out.
    NoMemory,
}

/// Files by name.
pub trait Shelf {
    /// The bytes of the file of that name, where the shelf tells them.
    ghost holds: { Self → List ℕ → Option (List ℕ) };

    /// How many reads have failed, in a count that stops at the last value of a u64.
    ghost faults: { Self → ℕ };

    /// No read of this name can fail.
    ghost sound: { Self → List ℕ → Type 0 };

    /// Appends the bytes of the file of that name to `into`, but at most `limit + 1` of them. So a file of
    /// more than `limit` bytes is told by what was appended.
    fn read(&mut self, name: &str, limit: usize, into: &mut Vec<u8>) -> Result<(), ShelfStop>
        ensures told { OnOk result (IfSome (holds self.old name.now) (λ bytes. into.new.items ≡ into.old.items ++ take (limit + 1) bytes)) }
        ensures appended { take (length into.old.items) into.new.items ≡ into.old.items }
        ensures within { length into.new.items ≤ length into.old.items + (limit + 1) }
        ensures refused { OnErr result (into.new.items ≡ into.old.items) }

        // A read fails only where it was counted and the name is not sound.
        ensures counted { IsErrOf result ShelfStop.Failed → Rose (faults self.old) (faults self.new) }
        ensures unsound { IsErrOf result ShelfStop.Failed → ¬ sound self.old name.now }

        ensures same_files { (other : List ℕ) → holds self.new other ≡ holds self.old other }
        ensures same_sound { (other : List ℕ) → sound self.new other ↔ sound self.old other }
        ensures later { faults self.old ≤ faults self.new };
}
