//! What each instruction on ints does to a state (JVMS 8 section 6.5).
ghost use Rattle.std.specs.Prelude.{◌≡◌, IfOk};
ghost use Rattle.kb_ways.specs.Needs.{HasTerms, IsFor};
ghost use Rattle.kb_ways.specs.Turns.{told, led_by};
ghost use Rattle.kb_stepint.specs.Effects.{effect_of};

use crate::NoMemory;
use crate::arithmetic::{compute, compute_two, op_of_cut};
use crate::branching::{if_int, if_pair, switch};
use crate::constants::{load_constant, push_int};
use crate::keys::Keys;
use crate::locals::{increase, load, store};
use crate::rearranging::{dup, dup_x1, dup_x2, dup2, dup2_x1, dup2_x2, pop, pop2, swap};
use crate::returns::{return_int, return_nothing};
use kb_code::Instr;
use kb_frames::{Outcome, SymState};
use kb_picture::Choice;
use kb_terms::Op;
use kb_ways::{Turn, ill_typed, jumps, replaces};

/// Carries out the instruction of a turn by the alternative that was chosen, whose conditions the state has.
pub(crate) fn carry_out(
    turn: &Turn<'_>,
    state: &mut SymState,
    choice: &Choice,
) -> Result<Outcome, NoMemory>
    requires terms { HasTerms state.old }
    requires stands { IsFor turn.now state.old }
    ensures { IfOk result (λ outcome. told state.new outcome ≡ led_by turn.now (effect_of turn.now.world.now state.old choice.now turn.now.instr.now)) }
{
    match turn.instr {
        Instr::Nop => replaces(turn, state, 0, &[]),
        Instr::PushInt(value) => push_int(turn, state, *value),
        Instr::Ldc(entry) => load_constant(turn, state, *entry),
        Instr::LoadInt(local) => load(turn, state, *local),
        Instr::StoreInt(local) => store(turn, state, *local),
        Instr::Inc(local, by) => increase(turn, state, *local, *by),
        Instr::Pop => pop(turn, state),
        Instr::Pop2 => pop2(turn, state),
        Instr::Dup => dup(turn, state),
        Instr::DupX1 => dup_x1(turn, state),
        Instr::DupX2 => dup_x2(turn, state),
        Instr::Dup2 => dup2(turn, state),
        Instr::Dup2X1 => dup2_x1(turn, state),
        Instr::Dup2X2 => dup2_x2(turn, state),
        Instr::Swap => swap(turn, state),
        Instr::Int2(op) => compute_two(turn, state, *op, choice),
        Instr::Neg => compute(turn, state, Op::Neg),
        Instr::Narrow(cut) => compute(turn, state, op_of_cut(*cut)),
        Instr::IfInt(_, target) => if_int(turn, state, *target, choice),
        Instr::IfPair(_, target) => if_pair(turn, state, *target, choice),
        Instr::Goto(target) => jumps(turn, state, 0, *target),
        Instr::Table(low, default, targets) => {
            let keys = Keys::Table(*low, targets.as_slice());
            switch(turn, state, &keys, *default, choice)
        }
        Instr::Lookup(default, keys) => {
            let keys = Keys::Lookup(keys.as_slice());
            switch(turn, state, &keys, *default, choice)
        }
        Instr::ReturnInt => return_int(turn, state),
        Instr::Return => return_nothing(turn, state),
        // Those on references, arrays and objects, and calls, are no instructions on ints.
        Instr::PushNull | Instr::LoadRef(_) | Instr::StoreRef(_) => ill_typed(turn, state),
        Instr::IfSame(..) | Instr::IfNull(..) | Instr::ReturnRef => ill_typed(turn, state),
        Instr::LoadElem(_) | Instr::StoreElem(_) | Instr::Length => ill_typed(turn, state),
        Instr::NewPrim(_) | Instr::NewRefs(_) | Instr::New(_) => ill_typed(turn, state),
        Instr::GetField(_) | Instr::PutField(_) | Instr::Throw => ill_typed(turn, state),
        Instr::Cast(_) | Instr::InstanceOf(_) | Instr::Other(_) => ill_typed(turn, state),
        Instr::Virtual(_) | Instr::Special(_) => ill_typed(turn, state),
        Instr::Static(_) | Instr::Interface(_) => ill_typed(turn, state),
    }
}
