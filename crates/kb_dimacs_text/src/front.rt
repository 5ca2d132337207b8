//! How far a text is read.
ghost use Rattle.std.specs.Prelude.{◌≡◌, ◌++◌, ◌∷◌, [], List, ℕ, map, IfOk, IfErr, MatchOption};
ghost use Rattle.kb_chain.specs.Cnf.{Cnf};
ghost use Rattle.kb_dimacs_text.specs.Lines.{line_words};
ghost use Rattle.kb_dimacs_text.specs.Dimacs.{AreDimacs};
ghost use Rattle.kb_dimacs_text.specs.Fronts.{HasRead, StopsAtLine};

use crate::body::Body;
use crate::lines::line_words;
use crate::numbers::read_header;
use crate::refusal::{Cause, ReadingStop};
use kb_chain::Formula;
use std::alloc::Global;

/// How far a text is read, at the end of a line.
#[derive(Drop)]
pub enum Front {
    /// Nothing but comments and white space.
    Start,
    /// The header, and clauses behind it.
    Behind(Body),
}

impl Front {
    /// Where the reader stands after one more line.
    pub fn next(self, alloc: Global, line: &[u8]) -> Result<Front, ReadingStop>
        ensures ok { IfOk result (λ next. (ls : List (List ℕ)) → HasRead self ls → HasRead next (ls ++ line.now ∷ [])) }
        ensures bad { IfErr result (StopsAtLine self line.now) }
    {
        let words = line_words(alloc, line)?;
        match self {
            Front::Start => begin(alloc, words.as_slice()),
            Front::Behind(body) => go_on(alloc, body, words.as_slice()),
        }
    }

    /// The formula, if the text may end here.
    pub fn finish(self) -> Option<Formula>
        ensures { MatchOption result
            ((ls : List (List ℕ)) (formula : Cnf) → HasRead self ls → AreDimacs formula ls → ⊥)
            (λ formula. (ls : List (List ℕ)) → HasRead self ls → AreDimacs formula ls) }
    {
        match self {
            Front::Start => None,
            Front::Behind(body) => body.whole(),
        }
    }
}

/// Where the reader stands after the words of a line before the header.
fn begin(alloc: Global, words: &[&[u8]]) -> Result<Front, ReadingStop>
    ensures ok { IfOk result (λ next. (ls : List (List ℕ)) (line : List ℕ) → line_words line ≡ map (λ w. w.now) words.now →
        HasRead Front.Start ls → HasRead next (ls ++ line ∷ [])) }
    ensures bad { (line : List ℕ) → line_words line ≡ map (λ w. w.now) words.now → IfErr result (StopsAtLine Front.Start line) }
{
    if words.is_empty() {
        return Ok(Front::Start);
    }
    match read_header(words) {
        Some((vars, count)) => Ok(Front::Behind(Body::new(alloc, vars, count))),
        None => Err(ReadingStop::Bad(Cause::Header)),
    }
}

/// Where the reader stands after the words of a line behind the header.
fn go_on(alloc: Global, body: Body, words: &[&[u8]]) -> Result<Front, ReadingStop>
    ensures ok { IfOk result (λ next. (ls : List (List ℕ)) (line : List ℕ) → line_words line ≡ map (λ w. w.now) words.now →
        HasRead (Front.Behind body) ls → HasRead next (ls ++ line ∷ [])) }
    ensures bad { (line : List ℕ) → line_words line ≡ map (λ w. w.now) words.now → IfErr result (StopsAtLine (Front.Behind body) line) }
{
    let mut body = body;
    body.read_words(alloc, words)?;
    Ok(Front::Behind(body))
}
