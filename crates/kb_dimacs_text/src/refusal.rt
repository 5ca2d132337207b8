//! Why an input was not read.
ghost use Rattle.std.specs.Prelude.{◌≡◌, ℕ, List};
ghost use Rattle.kb_dimacs_text.specs.Texts.{cause_text};
ghost use Rattle.kb_dimacs_text.specs.Refusals.{RefusesText};
ghost use Rattle.kb_dimacs_text.specs.declared.refusal.Cause.{Cause};
ghost use Rattle.kb_dimacs_text.specs.declared.refusal.Refusal.TheVariants.{Line};

use crate::NoMemory;

/// What is wrong with a line.
#[derive(Clone, Copy, PartialEq, Eq)]
pub enum Cause {
    /// The first line that has words is no header.
    Header,
    /// A word is no number of 32 bits.
    NoNumber,
    /// A variable is above the announced ones.
    HighVariable,
    /// There is a number behind the last announced clause.
    MoreClauses,
    /// The text ends before the header, in a clause, or before the last announced clause.
    EarlyEnd,
}

impl Cause {
    /// What it says to a reader.
    pub fn text(self) -> &'static str
        ensures { result.now ≡ cause_text self }
    {
        match self {
            Cause::Header => "the first line of words is not p cnf VARIABLES CLAUSES",
            Cause::NoNumber => "a word is no number of 32 bits",
            Cause::HighVariable => "a variable is above the announced ones",
            Cause::MoreClauses => "there are more clauses than announced",
            Cause::EarlyEnd => "the text ends before the announced clauses do",
        }
    }
}

/// Why a line or a word was not read.
#[derive(Clone, Copy, PartialEq, Eq)]
pub enum ReadingStop {
    Bad(Cause),
    NoMemory,
}

impl From<NoMemory> for ReadingStop {
    ghost use Rattle.std.specs.Prelude.{◌≡◌, ℕ, List};
    ghost use Rattle.kb_dimacs_text.specs.declared.refusal.ReadingStop.TheVariants.{NoMemory};

    ghost from_gives = { λ _ e. e ≡ NoMemory };

    fn from(_want: NoMemory) -> ReadingStop {
        ReadingStop::NoMemory
    }
}

/// Why a text was not read.
#[derive(Clone, Copy, PartialEq, Eq)]
pub enum Refusal {
    /// The number of the line, from 1, at which the text stops being DIMACS.
    Line(usize, Cause),
    NoMemory,
}

/// A text is refused at one line alone, and by one cause.
pub fn is_refused_once()
    ensures line { (text : List ℕ) (line other : ℕ) (cause why : Cause) → RefusesText text (Line line cause) → RefusesText text (Line other why)
        → line ≡ other }
    ensures cause { (text : List ℕ) (line other : ℕ) (cause why : Cause) → RefusesText text (Line line cause) → RefusesText text (Line other why)
        → cause ≡ why }
{}
