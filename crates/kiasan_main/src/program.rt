//! What the program does with its words: the top call, and the exit code.

ghost use Rattle.std.specs.Prelude.{◌≡◌, map, string_bytes, IfOk, IsErr, IsErrOf};
ghost use Rattle.std.specs.Process.{exit_status};
ghost use Rattle.kb_refusals.specs.StatusNumber.{status_number};
ghost use Rattle.kb_refusals.specs.declared.status.Status.{Status};
ghost use Rattle.kb_outside.specs.declared.words.WordsStop.{WordsStop};
ghost use Rattle.kiasan_main.specs.Program.{EndsWith, not_utf8};

use kb_outside::{Shelf, Sink, WordsStop};
use kiasan::{Status, kiasan};
use std::process::ExitCode;
use std::thread::Threads;

/// Does what the words ask for, and ends with the number of the status. Where there are no words to go by, nothing is
/// written.
pub fn run<R: AllocGlobal + Threads + Sync, S: Shelf, K: Sink>(
    rt: &R,
    words: Result<Vec<String>, WordsStop>,
    shelf: &mut S,
    out: &mut K,
) -> ExitCode
    ensures called { IfOk words (λ given. EndsWith (map string_bytes given.items) (S.holds shelf.old) (S.sound shelf.old) (S.faults shelf.old, S.faults shelf.new) (K.written out.old, K.written out.new) (K.faults out.old, K.faults out.new) (exit_status result)) }
    ensures no_utf8 { IsErrOf words WordsStop.NotUtf8 → exit_status result ≡ not_utf8 }
    ensures no_memory { IsErrOf words WordsStop.NoMemory → exit_status result ≡ status_number Status.Memory }
    ensures nothing { IsErr words → K.written out.new ≡ K.written out.old }
{
    match words {
        Ok(words) => exit_code(kiasan(rt, words.as_slice(), shelf, out)),
        Err(stop) => ExitCode::from(stop.code()),
    }
}

/// The exit code of a status is its number.
fn exit_code(status: Status) -> ExitCode
    ensures { exit_status result ≡ status_number status }
{
    ExitCode::from(status.number())
}
