//! Conditions that the alternatives of a choice ask for.
ghost use Rattle.std.specs.Prelude.{◌≡◌, ◌<◌, ◌^◌, pos, true, false};
ghost use Rattle.kb_ways.specs.Asked.{branch_condition, equal_sides, less_sides, unsigned_sides};
ghost use Rattle.kb_ways.specs.declared.condition.Side.TheVariants.{Number, Term};

use kb_code::Cond;
use kb_terms::{Op, TermId};

/// One side of a comparison.
#[derive(Clone, Copy)]
pub enum Side {
    Term(TermId),
    Number(i32),
}

/// A comparison, and the truth that it is to have.
#[derive(Clone, Copy)]
pub struct Condition {
    pub op: Op,
    pub left: Side,
    pub right: Side,
    pub truth: bool,
}

// That two sides are equal, or are not.
fn equal(left: Side, right: Side, truth: bool) -> Condition
    ensures { result ≡ equal_sides left right truth }
{
    Condition {
        op: Op::Eq,
        left,
        right,
        truth,
    }
}

/// That an int is a number, or is not.
pub fn equals_number(x: TermId, number: i32, truth: bool) -> Condition
    ensures { result ≡ equal_sides (Term x) (Number number) truth }
{
    equal(Side::Term(x), Side::Number(number), truth)
}

// That the first side is less than the second, with sign, or is not.
fn less(left: Side, right: Side, truth: bool) -> Condition
    ensures { result ≡ less_sides left right truth }
{
    Condition {
        op: Op::Lt,
        left,
        right,
        truth,
    }
}

// A count as an int.
fn int_of(count: u32) -> i32
    requires { count < 2 ^ 31 }
    ensures { result ≡ pos count }
{
    match i32::try_from(count) {
        Ok(number) => number,
        Err(_) => unreachable!(),
    }
}

/// That an int is the number.
pub fn equals_count(x: TermId, count: u32) -> Condition
    requires { count < 2 ^ 31 }
    ensures { result ≡ equal_sides (Term x) (Number (pos count)) true }
{
    equals_number(x, int_of(count), true)
}

/// That an int is none of the numbers from 0 up to below the count: without sign it is not less.
pub fn outside_count(x: TermId, count: u32) -> Condition
    requires { count < 2 ^ 31 }
    ensures { result ≡ unsigned_sides (Term x) (Number (pos count)) false }
{
    Condition {
        op: Op::Ult,
        left: Side::Term(x),
        right: Side::Number(int_of(count)),
        truth: false,
    }
}

/// That an int is negative, or is not.
pub fn negative(x: TermId, truth: bool) -> Condition
    ensures { result ≡ less_sides (Term x) (Number (pos 0)) truth }
{
    less(Side::Term(x), Side::Number(0), truth)
}

/// That an int is above the number.
pub fn above_count(x: TermId, count: u32) -> Condition
    requires { count < 2 ^ 31 }
    ensures { result ≡ less_sides (Number (pos count)) (Term x) true }
{
    less(Side::Number(int_of(count)), Side::Term(x), true)
}

/// That a condition holds of two sides, or does not.
pub fn branch_condition(cond: Cond, left: Side, right: Side, so: bool) -> Condition
    ensures { result ≡ branch_condition cond left right so }
{
    match cond {
        Cond::Eq => equal(left, right, so),
        Cond::Ne => equal(left, right, !so),
        Cond::Lt => less(left, right, so),
        Cond::Ge => less(left, right, !so),
        Cond::Gt => less(right, left, so),
        Cond::Le => less(right, left, !so),
    }
}
