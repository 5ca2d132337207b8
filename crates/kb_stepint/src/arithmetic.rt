//! Instructions that compute ints (JVMS 8 section 6.5).
ghost use Rattle.std.specs.Prelude.{◌≡◌, false, true, IfOk};
ghost use Rattle.kb_terms.specs.Op.{is_binary};
ghost use Rattle.kb_stepint.specs.Effects.{computes, computes_two, op_of, op_of_cut};
ghost use Rattle.kb_ways.specs.Needs.{HasTerms, IsFor};
ghost use Rattle.kb_semantics.specs.Ways.{arithmetic};
ghost use Rattle.kb_ways.specs.Turns.{told, led, led_by};
ghost use Rattle.kb_ways.specs.Ways.{Throws};

use crate::NoMemory;
use kb_code::{IntCut, IntOp};
use kb_frames::{Outcome, SymState, SymValue};
use kb_picture::Choice;
use kb_terms::Op;
use kb_ways::{Turn, an_int, ill_typed, make, replaces, throws, two_ints};

const ARITHMETIC: &[u8] = b"java/lang/ArithmeticException";

fn op_of(op: IntOp) -> Op
    ensures op { result ≡ op_of op }
    ensures binary { is_binary result ≡ true }
{
    match op {
        IntOp::Add => Op::Add,
        IntOp::Sub => Op::Sub,
        IntOp::Mul => Op::Mul,
        IntOp::Div => Op::Div,
        IntOp::Rem => Op::Rem,
        IntOp::Shl => Op::Shl,
        IntOp::Shr => Op::Shr,
        IntOp::Ushr => Op::Ushr,
        IntOp::And => Op::And,
        IntOp::Or => Op::Or,
        IntOp::Xor => Op::Xor,
    }
}

/// The operation of i2b, i2c and i2s.
pub(crate) fn op_of_cut(cut: IntCut) -> Op
    ensures op { result ≡ op_of_cut cut }
    ensures unary { is_binary result ≡ false }
{
    match cut {
        IntCut::Byte => Op::Byte,
        IntCut::Char => Op::Char,
        IntCut::Short => Op::Short,
    }
}

/// ineg, i2b, i2c, i2s
pub(crate) fn compute(turn: &Turn<'_>, state: &mut SymState, op: Op) -> Result<Outcome, NoMemory>
    requires terms { HasTerms state.old }
    requires stands { IsFor turn.now state.old }
    requires unary { is_binary op ≡ false }
    ensures { IfOk result (λ outcome. told state.new outcome ≡ led_by turn.now (computes state.old op)) }
{
    let Some(term) = an_int(state) else {
        return ill_typed(turn, state);
    };
    let value = make(state, op, term, None)?;
    replaces(turn, state, 1, &[SymValue::Int(value)])
}

// An ArithmeticException is thrown.
fn throw_arithmetic(turn: &Turn<'_>, state: &mut SymState) -> Result<Outcome, NoMemory>
    requires { IsFor turn.now state.old }
    ensures { IfOk result (λ outcome. told state.new outcome ≡ led turn.now state.old (Throws arithmetic)) }
{
    throws(turn, state, ARITHMETIC)
}

/// iadd, isub, imul, idiv, irem, ishl, ishr, iushr, iand, ior, ixor
pub(crate) fn compute_two(
    turn: &Turn<'_>,
    state: &mut SymState,
    op: IntOp,
    choice: &Choice,
) -> Result<Outcome, NoMemory>
    requires terms { HasTerms state.old }
    requires stands { IsFor turn.now state.old }
    ensures { IfOk result (λ outcome. told state.new outcome ≡ led_by turn.now (computes_two state.old op choice.now)) }
{
    let Some((left, right)) = two_ints(state) else {
        return ill_typed(turn, state);
    };
    if let Choice::Zero = choice {
        return throw_arithmetic(turn, state);
    }
    let value = make(state, op_of(op), left, Some(right))?;
    replaces(turn, state, 2, &[SymValue::Int(value)])
}
