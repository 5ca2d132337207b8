//! Texts of lines, read one line after the other by whoever says what may stand behind what.
ghost use Rattle.std.specs.Prelude.{◌≡◌, ℕ, List, [], ◌∷◌, ◌++◌, IfOk, IfErr, MatchOption};
ghost use Rattle.kb_grammar.specs.Lines.{Lacks};
ghost use Rattle.kb_grammar.specs.LineFormats.{IsLineFormat, SpellsByLines, ReadsByLines, RefusesLines};

use crate::words::cut;

/// Why a text of lines was not read.
#[derive(Clone, Copy, PartialEq, Eq)]
pub enum LineRefusal<S> {
    /// The first line, from 1, at which no text of the format goes on. A line that is cut short, and one that is
    /// missing at the end, count as lines.
    BadLine(usize),
    /// What the reader of a line stopped for, as memory that ran out.
    Stopped(S),
}

/// A format whose texts are lines, each with one line feed behind it.
pub trait LineFormat {
    /// What is read of the lines before the next one.
    type Front: Drop;

    /// What a whole text says.
    type Whole: Drop;

    /// Why reading stops for a cause that is not in the text.
    type Stop;

    /// The lines spell what a whole text says.
    ghost spells: { Self → Self.Whole → List (List ℕ) → Type 0 };

    /// The front is what is read of these lines.
    ghost stands_behind: { Self → Self.Front → List (List ℕ) → Type 0 };

    /// The front before the first line.
    fn start(&self) -> Self::Front
        ensures { stands_behind self.now result [] };

    /// The front behind one line more, or nothing where no text of the format has that line there.
    fn read_line(&self, front: Self::Front, line: &[u8]) -> Result<Option<Self::Front>, Self::Stop>
        ensures { IfOk result (λ read. (before : List (List ℕ)) → stands_behind self.now front before → MatchOption read
            ((after : List (List ℕ)) (whole : _) → spells self.now whole (before ++ line.now ∷ after) → ⊥)
            (λ next. stands_behind self.now next (before ++ line.now ∷ []))) };

    /// What the text says, if it may end behind the lines that are read.
    fn end(&self, front: Self::Front) -> Option<Self::Whole>
        ensures { (before : List (List ℕ)) → stands_behind self.now front before → MatchOption result
            ((whole : _) → spells self.now whole before → ⊥)
            (λ whole. spells self.now whole before) };
}

/// Reads a whole text of the format. Its last line ends with a line feed too.
pub fn read_lines<F: LineFormat>(format: &F, text: &[u8]) -> Result<F::Whole, LineRefusal<F::Stop>>
    requires { IsLineFormat (F.spells format.now) (F.stands_behind format.now) }
    ensures found { IfOk result (λ whole. SpellsByLines (F.spells format.now) whole text.now) }
    ensures only { (whole : _) → SpellsByLines (F.spells format.now) whole text.now → ReadsByLines result whole }
    ensures bad { IfErr result (RefusesLines (F.spells format.now) text.now) }
{
    let mut front = format.start();
    let mut rest = text;
    let mut number = 1;
    while let Some((line, others)) = cut(rest, b'\n') {
        front = match format.read_line(front, line) {
            Ok(Some(next)) => next,
            Ok(None) => return Err(LineRefusal::BadLine(number)),
            Err(stop) => return Err(LineRefusal::Stopped(stop)),
        };
        rest = others;
        number += 1;
    }
    if !rest.is_empty() {
        return Err(LineRefusal::BadLine(number));
    }
    match format.end(front) {
        Some(whole) => Ok(whole),
        None => Err(LineRefusal::BadLine(number)),
    }
}
