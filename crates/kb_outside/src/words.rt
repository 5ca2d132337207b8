//! The words of the command line.
ghost use Rattle.std.specs.Prelude.{◌≡◌, ◌≢◌, ◌↔◌, drop, IfErr, IfOk, IsErrOf};
ghost use Rattle.std.specs.Vec.Iter.{into_iter_items};
ghost use Rattle.kb_outside.specs.Words.{AreWordsOf, IsErrorOfKind, exit_code};

use std::alloc::Global;
use std::env::Args;
use std::io::{self, ErrorKind};

/// Why there are no words to go by.
#[derive(Clone, Copy, Debug, PartialEq, Eq)]
pub enum WordsStop {
    /// A word is not UTF-8.
    NotUtf8,
    /// Memory ran out.
    NoMemory,
}

impl WordsStop {
    /// The exit code of a program that stops so: 71, which is no status, where a word is not UTF-8, else 8.
    pub fn code(self) -> u8
        ensures { result ≡ exit_code self }
    {
        match self {
            WordsStop::NotUtf8 => 71,
            WordsStop::NoMemory => 8,
        }
    }
}

/// The words after the program's name, of what the system says that the words are (`std::env::args`).
pub fn command_words(alloc: Global, given: io::Result<Args>) -> Result<Vec<String>, WordsStop>
    ensures words { IfOk result (AreWordsOf given) }

    // Nothing else stops than memory that runs out.
    ensures not_utf8 { IsErrOf result WordsStop.NotUtf8 ↔ IsErrorOfKind given ErrorKind.InvalidData }
{
    match given {
        Ok(all) => words_behind_name(alloc, all),
        Err(error) => Err(stop_of(error.kind())),
    }
}

// The words behind the first one, which is the program's name.
fn words_behind_name(alloc: Global, all: Args) -> Result<Vec<String>, WordsStop>
    ensures words { IfOk result (λ words. words.items ≡ drop 1 (into_iter_items all)) }
    ensures no_memory { IfErr result (λ stop. stop ≡ WordsStop.NoMemory) }
{
    let mut given = all;
    let mut words = Vec::new(alloc);
    let Some(_) = given.next() else {
        return Ok(words);
    };
    for word in given {
        let Ok(()) = words.push(word) else {
            return Err(WordsStop::NoMemory);
        };
    }
    Ok(words)
}

// Why there are no words, by the kind of the error that told so.
fn stop_of(kind: ErrorKind) -> WordsStop
    ensures not_utf8 { kind ≡ ErrorKind.InvalidData → result ≡ WordsStop.NotUtf8 }
    ensures no_memory { kind ≢ ErrorKind.InvalidData → result ≡ WordsStop.NoMemory }
{
    if kind == ErrorKind::InvalidData {
        WordsStop::NotUtf8
    } else {
        WordsStop::NoMemory
    }
}
