//! The shelf and the sink over the system.
ghost use Rattle.std.specs.Prelude.{◌≡◌, ◌≢◌, ℕ, ◌+◌, ◌<◌, ◌≤◌, ◌↔◌, Option, List, ◌++◌, length, take, IfOk, IfSome, IsErrOf, OnOk, OnErr};
ghost use Rattle.std.specs.Io.KnownBytes.{Appends, Keeps};
ghost use Rattle.kb_outside.specs.Outside.{Rose, Grows, next_count, untold};

use crate::reading::{Watched, read_up_to};
use crate::shelves::{Shelf, ShelfStop};
use crate::sinks::{Sink, SinkFailed};
use std::fs;
use std::io::Write;
use std::marker::Model;
use std::rt::Files;

/// The files of the system, by their paths. It tells nothing of their bytes, since no contract can: what it
/// does with a file is [`read_up_to`]. A missing file is a failed read, and so is every error of the system,
/// at the opening or in the middle of the file.
#[derive(Drop)]
pub struct FileShelf<'a, R> {
    rt: &'a R,
    faults: u64,
}

impl<'a, R> Model for FileShelf<'a, R> {
    ghost use Rattle.std.specs.Prelude.{ℕ};

    ghost Value = { ℕ };

    ghost view = { λ s. s.faults };
}

impl<'a, R: Files> FileShelf<'a, R> {
    /// A shelf with no faults so far.
    pub fn new(rt: &'a R) -> FileShelf<'a, R>
        ensures { result ≡ 0 }
    {
        FileShelf { rt, faults: 0 }
    }

    /// How many reads have failed.
    pub fn faults(&self) -> u64
        ensures { result ≡ self.now }
    {
        self.faults
    }
}

impl<'a, R: Files> Shelf for FileShelf<'a, R> {
    ghost holds = { λ _ _. untold };

    ghost faults = { λ faults. faults };

    ghost sound = { λ _ _. ⊥ };

    fn read(&mut self, name: &str, limit: usize, into: &mut Vec<u8>) -> Result<(), ShelfStop>
        ensures told { OnOk result (IfSome untold (λ bytes. into.new.items ≡ into.old.items ++ take (limit + 1) bytes)) }
        ensures appended { take (length into.old.items) into.new.items ≡ into.old.items }
        ensures within { length into.new.items ≤ length into.old.items + (limit + 1) }
        ensures refused { OnErr result (into.new.items ≡ into.old.items) }
        ensures counted { IsErrOf result ShelfStop.Failed → Rose self.old self.new }
        ensures unsound { IsErrOf result ShelfStop.Failed → ¬ ⊥ }
        ensures same_files { (other : List ℕ) → untold ≡ untold }
        ensures same_sound { (other : List ℕ) → ⊥ ↔ ⊥ }
        ensures later { self.old ≤ self.new }

        // It counts each failed read once, and nothing else.
        ensures failed { IsErrOf result ShelfStop.Failed → self.new ≡ next_count self.old }
        ensures others { result ≢ Err ShelfStop.Failed → self.new ≡ self.old }
    {
        let read = read_file(self.rt, name, limit, into);
        if let Err(ShelfStop::Failed) = read {
            self.faults = self.faults.saturating_add(1);
        }
        read
    }
}

// Appends the file's bytes, at most `limit + 1` of them.
fn read_file<R: Files>(
    rt: &R,
    name: &str,
    limit: usize,
    into: &mut Vec<u8>,
) -> Result<(), ShelfStop>
    ensures appended { take (length into.old.items) into.new.items ≡ into.old.items }
    ensures within { length into.new.items ≤ length into.old.items + (limit + 1) }
    ensures refused { OnErr result (into.new.items ≡ into.old.items) }
{
    match fs::open(rt, name) {
        Ok(file) => read_up_to(&mut Watched::new(file), limit, into),
        Err(_) => Err(ShelfStop::Failed),
    }
}

/// A sink over a writer, as the standard output. It tells nothing of its bytes; what the writer itself tells
/// of its contents has gained what each write reports.
#[derive(Drop)]
pub struct OutSink<W> {
    to: W,
    faults: u64,
}

impl<W> Model for OutSink<W> {
    ghost use Rattle.kb_outside.specs.Outside.{OutState};

    ghost Value = { OutState W };

    ghost view = { λ s. record { to = s.to; faults = s.faults } };
}

impl<W: Write> OutSink<W> {
    /// A sink with no faults so far.
    pub fn new(to: W) -> OutSink<W>
        ensures { result ≡ record { to = to; faults = 0 } }
    {
        OutSink { to, faults: 0 }
    }

    /// How many writes have failed or taken nothing.
    pub fn faults(&self) -> u64
        ensures { result ≡ self.now.faults }
    {
        self.faults
    }
}

impl<W: Write> Sink for OutSink<W> {
    ghost written = { λ _. untold };

    ghost faults = { λ sink. sink.faults };

    fn write(&mut self, piece: &[u8]) -> Result<usize, SinkFailed>
        requires { 0 < length piece.now }
        ensures some { IfOk result (λ n. 0 < n) }
        ensures within { IfOk result (λ n. n ≤ length piece.now) }
        ensures taken { IfOk result (λ n. Grows untold untold (take n piece.now)) }
        ensures nothing { OnErr result (untold ≡ untold) }
        ensures counted { OnErr result (Rose self.old.faults self.new.faults) }
        ensures later { self.old.faults ≤ self.new.faults }

        // It counts each write that failed or took nothing once, and nothing else.
        ensures failed { OnErr result (self.new.faults ≡ next_count self.old.faults) }
        ensures ok { OnOk result (self.new.faults ≡ self.old.faults) }

        // The writer's bytes, where it tells them, have gained what is said to be taken, and nothing else.
        ensures gained { IfOk result (λ n. Appends (W.contents self.old.to) (W.contents self.new.to) (take n piece.now)) }
        ensures kept { OnErr result (Keeps (W.contents self.old.to) (W.contents self.new.to)) }
    {
        match self.to.write(piece) {
            Ok(0) | Err(_) => {
                self.faults = self.faults.saturating_add(1);
                Err(SinkFailed)
            }
            Ok(count) => Ok(count),
        }
    }
}
