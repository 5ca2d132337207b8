//! What a reader gives is read up to a limit, or whole.
ghost use Rattle.std.specs.Prelude.{◌≡◌, ◌≢◌, ℕ, ◌+◌, ◌≤◌, true, false, List, ◌++◌, length, take, Err, IfOk, IfSome, IsErrOf, OnOk, OnErr};
ghost use Rattle.std.specs.Io.{ReadsAtMost};
ghost use Rattle.std.specs.Io.KnownBytes.{ReadConsumes};
ghost use Rattle.kb_outside.specs.Outside.{most_bytes};

use crate::shelves::ShelfStop;
use std::alloc::Global;
use std::io::{self, Read};
use std::marker::Model;

/// A reader, and whether a read of it has failed.
#[derive(Drop)]
pub struct Watched<F> {
    from: F,
    failed: bool,
}

impl<F> Model for Watched<F> {
    ghost use Rattle.kb_outside.specs.Outside.{WatchedState};

    ghost Value = { WatchedState F };

    ghost view = { λ w. record { from = w.from; failed = w.failed } };
}

impl<F: Read> Watched<F> {
    /// A reader of which no read has failed so far.
    pub fn new(from: F) -> Watched<F>
        ensures { result ≡ record { from = from; failed = false } }
    {
        Watched {
            from,
            failed: false,
        }
    }

    /// Whether a read has failed.
    pub fn has_failed(&self) -> bool
        ensures { result ≡ self.now.failed }
    {
        self.failed
    }

    // What the reader's own read says, which is kept in mind where it fails.
    fn read(&mut self, block: &mut [u8]) -> io::Result<usize>
        ensures bound { ReadsAtMost result block.new }
        ensures bytes { ReadConsumes (F.remaining self.old.from) (F.remaining self.new.from) result block.new }
        ensures failed { OnErr result (self.new.failed ≡ true) }
        ensures others { OnOk result (self.new.failed ≡ self.old.failed) }
    {
        let read = self.from.read(block);
        if read.is_err() {
            self.failed = true;
        }
        read
    }
}

/// All that the reader gives until its end.
pub fn read_whole<F: Read>(alloc: Global, from: &mut Watched<F>) -> Result<Vec<u8>, ShelfStop>
    ensures told { IfOk result (λ whole. IfSome (F.remaining from.old.from) (λ bytes. whole.items ≡ take most_bytes bytes)) }

    // It fails exactly where a read has failed.
    ensures failed { IsErrOf result ShelfStop.Failed → from.new.failed ≡ true }
    ensures others { result ≢ Err ShelfStop.Failed → from.new.failed ≡ from.old.failed }
{
    let mut whole = Vec::new(alloc);
    match read_up_to(from, usize::MAX, &mut whole) {
        Ok(()) => Ok(whole),
        Err(stop) => Err(stop),
    }
}

/// Appends what the reader gives until its end, but at most `limit + 1` bytes. A reader may give its bytes in
/// blocks of any length. Each of its errors is a failed read, also one in the middle.
pub fn read_up_to<F: Read>(
    from: &mut Watched<F>,
    limit: usize,
    into: &mut Vec<u8>,
) -> Result<(), ShelfStop>
    ensures told { OnOk result (IfSome (F.remaining from.old.from) (λ bytes. into.new.items ≡ into.old.items ++ take (limit + 1) bytes)) }
    ensures appended { take (length into.old.items) into.new.items ≡ into.old.items }
    ensures within { length into.new.items ≤ length into.old.items + (limit + 1) }
    ensures refused { OnErr result (into.new.items ≡ into.old.items) }

    // It fails exactly where a read has failed.
    ensures failed { IsErrOf result ShelfStop.Failed → from.new.failed ≡ true }
    ensures others { result ≢ Err ShelfStop.Failed → from.new.failed ≡ from.old.failed }
{
    let start = into.len();
    let read = fill(from, limit, into);
    if read.is_err() {
        into.truncate(start);
    }
    read
}

// How many bytes a read asks for.
const BLOCK: usize = 8192;

// Appends what the reader gives, at most `limit + 1` bytes. After an `Err` some bytes may stand there.
fn fill<F: Read>(from: &mut Watched<F>, limit: usize, into: &mut Vec<u8>) -> Result<(), ShelfStop>
    ensures told { OnOk result (IfSome (F.remaining from.old.from) (λ bytes. into.new.items ≡ into.old.items ++ take (limit + 1) bytes)) }
    ensures appended { take (length into.old.items) into.new.items ≡ into.old.items }
    ensures within { length into.new.items ≤ length into.old.items + (limit + 1) }
    ensures failed { IsErrOf result ShelfStop.Failed → from.new.failed ≡ true }
    ensures others { result ≢ Err ShelfStop.Failed → from.new.failed ≡ from.old.failed }
{
    let mut block = [0; BLOCK];
    let start = into.len();
    while into.len() - start <= limit {
        let most = (limit - (into.len() - start)).min(BLOCK - 1) + 1;
        let count = match from.read(&mut block[..most]) {
            Ok(count) => count,
            Err(_) => return Err(ShelfStop::Failed),
        };
        if count == 0 {
            return Ok(());
        }
        match into.extend_from_slice(&block[..count]) {
            Ok(()) => {}
            Err(_) => return Err(ShelfStop::NoMemory),
        }
    }
    Ok(())
}
