//! A text is read.
ghost use Rattle.std.specs.Prelude.{IfOk, IfErr};
ghost use Rattle.kb_chain.specs.Cnf.{Cnf};
ghost use Rattle.kb_dimacs_text.specs.Dimacs.{IsDimacs};
ghost use Rattle.kb_dimacs_text.specs.Refusals.{RefusesText, Reads};

use crate::front::Front;
use crate::lines::{Separator, cut};
use crate::refusal::{Cause, ReadingStop, Refusal};
use kb_chain::Formula;
use std::alloc::Global;

/// Reads a whole text as a formula in the DIMACS format. A line that begins with `c` is a comment, wherever it stands. The
/// header `p cnf VARIABLES CLAUSES` is a line of its own; behind it stand numbers, each clause ended by 0, on as many lines
/// as one likes. A clause may repeat literals and hold both of a variable.
pub fn read_dimacs(alloc: Global, text: &[u8]) -> Result<Formula, Refusal>
    ensures found { IfOk result (λ formula. IsDimacs formula text.now) }
    ensures only { (formula : Cnf) → IsDimacs formula text.now → Reads result formula }
    ensures bad { IfErr result (RefusesText text.now) }
{
    let mut front = Front::Start;
    let mut rest = Some(text);
    let mut number = 0;
    while let Some(left) = rest {
        let (line, others) = cut(left, Separator::LineFeed);
        number += 1;
        front = match front.next(alloc, line) {
            Ok(next) => next,
            Err(ReadingStop::Bad(cause)) => return Err(Refusal::Line(number, cause)),
            Err(ReadingStop::NoMemory) => return Err(Refusal::NoMemory),
        };
        rest = others;
    }
    match front.finish() {
        Some(formula) => Ok(formula),
        None => Err(Refusal::Line(number, Cause::EarlyEnd)),
    }
}
