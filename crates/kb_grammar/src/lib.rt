//! Formats that are read from left to right, tied to a grammar that is stated apart from the reader.
//!
//! `specs/Reading.antt` has the readers, `specs/Grammar.antt` the grammars and what it means that a
//! reader is exact for one, and `proofs/Laws.antt` the laws by which a reader is built that is.
//!
//! Texts of lines have their own definitions in `specs/Lines.antt` and `specs/Numbers.antt`, and a reader
//! that goes line by line, `read_lines`.
#![tactic(auto)]

mod lines;
mod numbers;
mod words;

ghost use Rattle.std.specs.Prelude.{◌≡◌, ◌<◌, ℕ, List, length, Err};
ghost use Rattle.kb_grammar.specs.Reading.{number, run};
ghost use Rattle.kb_grammar.specs.Grammar.{Exact, IsNumber, IsRunOf};

pub use lines::{LineFormat, LineRefusal, read_lines};
pub use numbers::{
    last_number, number_before, number_behind, number_within, read_int, read_number,
};
pub use words::{behind, cut, first_part, is_line};

/// A number of any width is read exactly where its bytes are whole, and a run of bytes likewise. One that is not whole has the
/// offset at which it begins.
pub fn numbers_and_runs()
    ensures numbers { (width : ℕ) → Exact (λ at. at) (number (λ at. at) width) (IsNumber width) }
    ensures runs { (n : ℕ) → Exact (λ at. at) (run (λ at. at) n) (IsRunOf n) }
    ensures short { (n at : ℕ) (front : List ℕ) → length front < n → run (λ at. at) n (record { rest = front; at = at }) ≡ Err at }
{}
