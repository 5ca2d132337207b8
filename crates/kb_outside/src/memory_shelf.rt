//! A shelf in memory.
ghost use Rattle.std.specs.Prelude.{◌≡◌, ◌≢◌, ℕ, ◌+◌, ◌≤◌, ◌↔◌, Option, List, ◌++◌, length, map, take, IfSome, IsErrOf, OnOk, OnErr, string_bytes};
ghost use Rattle.std.specs.Option.{option_copied};
ghost use Rattle.kb_outside.specs.Outside.{Rose};
ghost use Rattle.kb_outside.specs.Memory.{bytes_of, FailsOn, IsSoundName, with_call, with_failed_call};

use crate::shelves::{Shelf, ShelfStop};
use std::marker::Model;

/// Files in memory, for tests. It fails at the calls of the given numbers, which count from 0, at the calls
/// on a name that it does not hold, and nowhere else.
#[derive(Drop)]
pub struct MemoryShelf {
    files: Vec<(String, Vec<u8>)>,
    fails: Vec<u64>,
    calls: u64,
    faults: u64,
}

impl Model for MemoryShelf {
    ghost use Rattle.std.specs.Prelude.{map, string_bytes};
    ghost use Rattle.kb_outside.specs.Memory.{ShelfState};

    ghost Value = { ShelfState };

    ghost view = { λ s. record {
      files = map (λ file. (string_bytes file.0, file.1.items)) s.files.items;
      fails = s.fails.items;
      calls = s.calls;
      faults = s.faults;
    } };
}

impl MemoryShelf {
    /// A shelf that was never called. Of two files of one name it holds the first.
    pub fn new(files: Vec<(String, Vec<u8>)>, fails: Vec<u64>) -> MemoryShelf
        ensures files { result.files ≡ map (λ file. (string_bytes file.0, file.1.items)) files.items }
        ensures fails { result.fails ≡ fails.items }
        ensures uncalled { result.calls ≡ 0 }
        ensures faultless { result.faults ≡ 0 }
    {
        MemoryShelf {
            files,
            fails,
            calls: 0,
            faults: 0,
        }
    }

    /// How many reads have failed.
    pub fn faults(&self) -> u64
        ensures { result ≡ self.now.faults }
    {
        self.faults
    }
}

impl Shelf for MemoryShelf {
    ghost holds = { λ shelf name. bytes_of shelf.files name };

    ghost faults = { λ shelf. shelf.faults };

    ghost sound = { IsSoundName };

    fn read(&mut self, name: &str, limit: usize, into: &mut Vec<u8>) -> Result<(), ShelfStop>
        ensures told { OnOk result (IfSome (bytes_of self.old.files name.now) (λ bytes. into.new.items ≡ into.old.items ++ take (limit + 1) bytes)) }
        ensures appended { take (length into.old.items) into.new.items ≡ into.old.items }
        ensures within { length into.new.items ≤ length into.old.items + (limit + 1) }
        ensures refused { OnErr result (into.new.items ≡ into.old.items) }
        ensures counted { IsErrOf result ShelfStop.Failed → Rose self.old.faults self.new.faults }
        ensures unsound { IsErrOf result ShelfStop.Failed → ¬ IsSoundName self.old name.now }
        ensures same_files { (other : List ℕ) → bytes_of self.new.files other ≡ bytes_of self.old.files other }
        ensures same_sound { (other : List ℕ) → IsSoundName self.new other ↔ IsSoundName self.old other }
        ensures later { self.old.faults ≤ self.new.faults }

        // It fails exactly so, and counts each call and each failure.
        ensures fails { IsErrOf result ShelfStop.Failed ↔ FailsOn self.old name.now }
        ensures failed { IsErrOf result ShelfStop.Failed → self.new ≡ with_failed_call self.old }
        ensures called { result ≢ Err ShelfStop.Failed → self.new ≡ with_call self.old }
    {
        let call = self.calls;
        self.calls = call.saturating_add(1);
        if self.fails.contains(&call) {
            self.faults = self.faults.saturating_add(1);
            return Err(ShelfStop::Failed);
        }
        let Some(bytes) = find(&self.files, name) else {
            self.faults = self.faults.saturating_add(1);
            return Err(ShelfStop::Failed);
        };
        match into.extend_from_slice(up_to(bytes, limit)) {
            Ok(()) => Ok(()),
            Err(_) => Err(ShelfStop::NoMemory),
        }
    }
}

// The bytes of the first file of that name.
fn find<'a>(files: &'a [(String, Vec<u8>)], name: &str) -> Option<&'a [u8]>
    ensures { option_copied result ≡ bytes_of (map (λ file. (string_bytes file.0, file.1.items)) files.now) name.now }
{
    let mut rest = files;
    while let [file, others @ ..] = rest {
        if file.0.as_str() == name {
            return Some(file.1.as_slice());
        }
        rest = others;
    }
    None
}

// The first `limit + 1` of the bytes, or all where there are fewer.
fn up_to(bytes: &[u8], limit: usize) -> &[u8]
    ensures { result.now ≡ take (limit + 1) bytes.now }
{
    if bytes.len() <= limit {
        return bytes;
    }
    &bytes[..limit + 1]
}
