//! Texts that are read byte by byte.
ghost use Rattle.std.specs.Prelude.{◌≡◌, ℕ, Option, Some, IfOk, IfErr};
ghost use Rattle.kb_names.specs.Reading.{reached, value_of_text};
ghost use Rattle.kb_names.specs.Refusals.{StopsAs, RefusesAs};

use crate::NoMemory;
use std::alloc::Global;

// Where a reader stands after some bytes, with what it has read so far.
pub(crate) trait Stage: Drop {
    // What a whole text is read as.
    type Value: Drop;

    ghost step: { Self → ℕ → Option Self };

    ghost read: { Self → Option Self.Value };

    // Where it stands after one more byte, or `None` where that byte has no place.
    fn next(self, alloc: Global, byte: u8) -> Result<Option<Self>, NoMemory>
    where
        Self: Sized,
        ensures { IfOk result (λ next. next ≡ step self byte) };

    // What has been read, if the text may end here.
    fn whole(self) -> Option<Self::Value>
    where
        Self: Sized,
        ensures { result ≡ read self };
}

// Why a text was not read.
#[derive(Drop)]
pub(crate) enum TextStop {
    // The byte at this offset is the first that has no place; the text's length where it ends too early.
    At(usize),
    NoMemory,
}

// Reads a whole text.
pub(crate) fn read_text<S: Stage>(
    alloc: Global,
    start: S,
    text: &[u8],
) -> Result<S::Value, TextStop>
    ensures whole { IfOk result (λ value. value_of_text S.step S.read start text.now ≡ Some value) }
    ensures stop { IfErr result (RefusesAs S.step S.read start text.now) }
{
    let stage = read_all(alloc, start, text)?;
    match stage.whole() {
        Some(value) => Ok(value),
        None => Err(TextStop::At(text.len())),
    }
}

// Where a reader stands after all bytes of the text.
fn read_all<S: Stage>(alloc: Global, start: S, text: &[u8]) -> Result<S, TextStop>
    ensures whole { IfOk result (λ stage. reached S.step start text.now ≡ Some stage) }
    ensures stop { IfErr result (StopsAs S.step start text.now) }
{
    let mut stage = start;
    for (at, byte) in text.iter().enumerate() {
        stage = match stage.next(alloc, *byte) {
            Ok(Some(next)) => next,
            Ok(None) => return Err(TextStop::At(at)),
            Err(NoMemory) => return Err(TextStop::NoMemory),
        };
    }
    Ok(stage)
}
