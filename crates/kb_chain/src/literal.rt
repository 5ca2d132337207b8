//! Literals of propositional logic.

ghost use Rattle.std.specs.Prelude.{◌≡◌, ◌^◌, ◌<◌, ◌↔◌, IsSome, IfSome};
ghost use Rattle.kb_chain.specs.Literal.{negated, place_of, literal, literal_of, number_of};

use std::marker::Model;

/// A variable or its negation, kept as its place in the order of literals. The variables are 1 to 2^31 - 1, as in the DIMACS
/// format, whose number n is the variable n and -n its negation.
#[derive(Clone, Copy, PartialEq, Eq)]
pub struct Lit(u32);

impl Model for Lit {
    ghost use Rattle.std.specs.Prelude.{◌<◌, ◌^◌};
    ghost use Rattle.std.proofs.Common.{ap};
    ghost use Rattle.kb_chain.specs.Literal.{Literal, literal_at, place_of};
    ghost use Rattle.kb_chain.specs.Places.{place_of-literal_at};

    ghost Value = { Literal };

    ghost view = { λ s. literal_at s.0 };

    ghost invariant = { λ s. (0 < (literal_at s.0).variable) × ((literal_at s.0).variable < 2 ^ 31) };

    ghost inverse = { λ l. record { 0 = place_of l } };

    ghost inverse_ok = { λ s h. ap (λ p. record { 0 = p }) (place_of-literal_at s.0) };
}

impl Default for Lit {
    fn default() -> Lit {
        Lit(2)
    }
}

impl Lit {
    /// The literal of a DIMACS number.
    pub fn from_number(number: i32) -> Option<Lit>
        ensures some { IfSome result (λ l. l ≡ literal_of number) }
        ensures exists { IsSome result ↔ ((0 < (literal_of number).variable) × ((literal_of number).variable < 2 ^ 31)) }
    {
        if number == 0 || number == i32::MIN {
            return None;
        }
        Some(Lit::new(number.unsigned_abs(), number > 0))
    }

    pub fn new(variable: u32, positive: bool) -> Lit
        requires above { 0 < variable }
        requires below { variable < 2 ^ 31 }
        ensures { result ≡ literal variable positive }
    {
        Lit(place_of(variable, positive) as u32)
    }

    /// The DIMACS number.
    pub fn number(self) -> i32
        ensures { result ≡ number_of self }
    {
        let number = self.variable() as i32;
        if self.is_positive() { number } else { -number }
    }

    pub fn variable(self) -> u32
        ensures value { result ≡ self.variable }
        ensures positive { 0 < result }
        ensures bound { result < 2 ^ 31 }
    {
        self.0 / 2
    }

    pub fn is_positive(self) -> bool
        ensures { result ≡ self.positive }
    {
        self.0 % 2 == 0
    }

    pub fn negated(self) -> Lit
        ensures { result ≡ negated self }
    {
        Lit(self.0 ^ 1)
    }

    /// The place in the order of literals: by rising variable, the positive one first. A table by literal of the variables
    /// up to n has 2 n + 2 places.
    pub fn place(self) -> usize
        ensures value { result ≡ place_of self }
        ensures bound { result < 2 ^ 32 }
    {
        self.0 as usize
    }
}

/// The place of this literal of a variable.
pub(crate) fn place_of(variable: u32, positive: bool) -> usize
    ensures { result ≡ place_of (literal variable positive) }
{
    let sign = if positive { 0 } else { 1 };
    2 * variable as usize + sign
}
