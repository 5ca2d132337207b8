//! What instructions on ints compute and compare (JVMS 8 section 6.5).

ghost use Rattle.std.specs.Prelude.{◌≡◌};
ghost use Rattle.kb_semantics.specs.Comparisons.{holds};
ghost use Rattle.kb_code.specs.declared.instruction.IntOp.TheVariants as ops;
ghost use Rattle.kb_semantics.specs.Instructions.{int2_value, narrowed};

use kb_code::{Cond, IntCut, IntOp};

/// The value of an instruction on two ints: None by a divisor of 0.
pub fn int2_value(op: IntOp, left: i32, right: i32) -> Option<i32>
    ensures { result ≡ int2_value op left right }
{
    match op {
        IntOp::Add => Some(kb_arith::add(left, right)),
        IntOp::Sub => Some(kb_arith::sub(left, right)),
        IntOp::Mul => Some(kb_arith::mul(left, right)),
        IntOp::Div => quotient(left, right),
        IntOp::Rem => remainder(left, right),
        IntOp::Shl => Some(kb_arith::shl(left, right)),
        IntOp::Shr => Some(kb_arith::shr(left, right)),
        IntOp::Ushr => Some(kb_arith::ushr(left, right)),
        IntOp::And => Some(kb_arith::and(left, right)),
        IntOp::Or => Some(kb_arith::or(left, right)),
        IntOp::Xor => Some(kb_arith::xor(left, right)),
    }
}

fn quotient(left: i32, right: i32) -> Option<i32>
    ensures { result ≡ int2_value ops.Div left right }
{
    if right == 0 {
        return None;
    }
    Some(kb_arith::div(left, right))
}

fn remainder(left: i32, right: i32) -> Option<i32>
    ensures { result ≡ int2_value ops.Rem left right }
{
    if right == 0 {
        return None;
    }
    Some(kb_arith::rem(left, right))
}

/// An int that is narrowed.
pub fn narrowed(cut: IntCut, value: i32) -> i32
    ensures { result ≡ narrowed cut value }
{
    match cut {
        IntCut::Byte => kb_arith::to_byte(value),
        IntCut::Char => kb_arith::to_char(value),
        IntCut::Short => kb_arith::to_short(value),
    }
}

/// Whether the condition holds of two ints.
pub fn holds(cond: Cond, left: i32, right: i32) -> bool
    ensures { result ≡ holds cond left right }
{
    match cond {
        Cond::Eq => left == right,
        Cond::Ne => left != right,
        Cond::Lt => left < right,
        Cond::Ge => left >= right,
        Cond::Gt => left > right,
        Cond::Le => left <= right,
    }
}
