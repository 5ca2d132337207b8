//! What an instruction on ints must be told before it can be carried out.
ghost use Rattle.std.specs.Prelude.{◌≡◌, IfSome};
ghost use Rattle.kb_frames.specs.Lent.{stack_of};
ghost use Rattle.kb_picture.specs.declared.choice.Choice.{Choice};
ghost use Rattle.kb_stepint.specs.Choices.{conditions_of, offered};
ghost use Rattle.kb_stepint.specs.Questions.{HasTermsOf, conditions_by, offered_by};
ghost use Rattle.kb_ways.specs.Needs.{HasTerms};

use crate::keys::Keys;
use kb_code::{Cond, Instr, IntOp};
use kb_frames::SymState;
use kb_terms::TermId;
use kb_ways::{Side, an_int, two_ints};

/// What an instruction must be told before it can be carried out.
#[derive(Clone, Copy)]
pub(crate) enum IntQuestion<'w> {
    /// Whether a branch is taken: whether that holds of two ints.
    Branch(Cond, Side, Side),
    /// Which key of a switch the int is.
    Key(TermId, Keys<'w>),
    /// Whether a divisor is 0.
    Divisor(TermId),
}

/// What an instruction must be told in a state. Where its operands are no ints it is ill-typed, and nothing is to be told.
#[tactic(auto, using(kb_ways::proofs::OperandLaws::one_there, kb_ways::proofs::OperandLaws::left_there, kb_ways::proofs::OperandLaws::right_there))]
pub(crate) fn question_of<'w>(state: &SymState, instr: &'w Instr) -> Option<IntQuestion<'w>>
    requires { HasTerms state.now }
    ensures offered { offered state.now (stack_of state.now.stage) instr.now ≡ offered_by state.now result }
    ensures conditions { (choice : Choice) → conditions_of instr.now (stack_of state.now.stage) choice ≡ conditions_by result choice }
    ensures terms { IfSome result (HasTermsOf state.now.nodes) }
{
    match instr {
        Instr::IfInt(cond, _) => {
            let x = an_int(state)?;
            Some(IntQuestion::Branch(*cond, Side::Term(x), Side::Number(0)))
        }
        Instr::IfPair(cond, _) => {
            let (left, right) = two_ints(state)?;
            Some(IntQuestion::Branch(*cond, Side::Term(left), Side::Term(right)))
        }
        Instr::Table(low, _, targets) => {
            let x = an_int(state)?;
            Some(IntQuestion::Key(x, Keys::Table(*low, targets.as_slice())))
        }
        Instr::Lookup(_, keys) => {
            let x = an_int(state)?;
            Some(IntQuestion::Key(x, Keys::Lookup(keys.as_slice())))
        }
        Instr::Int2(op) => {
            let (_, right) = two_ints(state)?;
            match op {
                IntOp::Div | IntOp::Rem => Some(IntQuestion::Divisor(right)),
                _ => None,
            }
        }
        _ => None,
    }
}
