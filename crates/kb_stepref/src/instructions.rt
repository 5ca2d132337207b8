//! What each instruction on references does to a state (JVMS 8 section 6.5).
ghost use Rattle.std.specs.Prelude.{◌≡◌, IfOk};
ghost use Rattle.kb_ways.specs.Needs.{HasTerms, IsFor};
ghost use Rattle.kb_ways.specs.Turns.{told, led_by};
ghost use Rattle.kb_steparray.specs.Arrays.{HasCounts};
ghost use Rattle.kb_stepref.specs.Effects.{plan_of};
ghost use Rattle.kb_stepref.specs.Looks.{IsReady};

use crate::NoMemory;
use crate::comparing::{if_null, if_same};
use crate::fields::{FieldAt, get_field, get_found, put_field};
use crate::locals::{load, store};
use crate::returns::return_reference;
use crate::throwing::throw;
use crate::types::{cast, instance_of, load_literal};
use kb_code::Instr;
use kb_frames::{Outcome, SymState, SymValue};
use kb_picture::Choice;
use kb_steparray::{array_length, load_element, make_primitives, make_references, store_element};
use kb_stepcall::{Call, invoke, make_object};
use kb_ways::{Turn, ill_typed, replaces};

/// Carries out the instruction of a turn, to which nothing is left to be told, by the alternative that was chosen and the field
/// that it was found to read.
pub(crate) fn carry_out(
    turn: &Turn<'_>,
    state: &mut SymState,
    choice: &Choice,
    field: &Option<FieldAt<'_>>,
) -> Result<Outcome, NoMemory>
    requires { IsReady turn.now field.now state.old }
    ensures { IfOk result (λ outcome. told state.new outcome ≡ led_by turn.now (plan_of turn.now.world.now state.old choice.now turn.now.instr.now)) }
{
    match field {
        Some(at) => get_found(turn, state, at),
        None => by_instruction(turn, state, choice),
    }
}

// Carries out the instruction of a turn.
fn by_instruction(
    turn: &Turn<'_>,
    state: &mut SymState,
    choice: &Choice,
) -> Result<Outcome, NoMemory>
    requires terms { HasTerms state.old }
    requires counts { HasCounts state.old }
    requires stands { IsFor turn.now state.old }
    ensures { IfOk result (λ outcome. told state.new outcome ≡ led_by turn.now (plan_of turn.now.world.now state.old choice.now turn.now.instr.now)) }
{
    match turn.instr {
        Instr::PushNull => replaces(turn, state, 0, &[SymValue::Null]),
        Instr::LoadRef(local) => load(turn, state, *local),
        Instr::StoreRef(local) => store(turn, state, *local),
        Instr::IfSame(want, target) => if_same(turn, state, *want, *target),
        Instr::IfNull(want, target) => if_null(turn, state, *want, *target),
        Instr::ReturnRef => return_reference(turn, state),
        Instr::Throw => throw(turn, state),
        Instr::GetField(entry) => get_field(turn, state, *entry),
        Instr::PutField(entry) => put_field(turn, state, *entry),
        Instr::Virtual(entry) => invoke(turn, state, Call::BySelection, *entry),
        Instr::Special(entry) => invoke(turn, state, Call::Special, *entry),
        Instr::Static(entry) => invoke(turn, state, Call::Static, *entry),
        Instr::Interface(entry) => invoke(turn, state, Call::BySelection, *entry),
        Instr::New(entry) => make_object(turn, state, *entry),
        Instr::LoadElem(elem) => load_element(turn, state, *elem),
        Instr::StoreElem(elem) => store_element(turn, state, *elem),
        Instr::Length => array_length(turn, state),
        Instr::NewPrim(code) => make_primitives(turn, state, choice, *code),
        Instr::NewRefs(entry) => make_references(turn, state, choice, *entry),
        Instr::Cast(entry) => cast(turn, state, *entry),
        Instr::InstanceOf(entry) => instance_of(turn, state, *entry),
        Instr::Ldc(entry) => load_literal(turn, state, *entry),
        // Those on ints are none on references.
        Instr::Nop | Instr::PushInt(_) => ill_typed(turn, state),
        Instr::LoadInt(_) | Instr::StoreInt(_) | Instr::Inc(..) => ill_typed(turn, state),
        Instr::Pop | Instr::Pop2 | Instr::Dup | Instr::DupX1 => ill_typed(turn, state),
        Instr::DupX2 | Instr::Dup2 | Instr::Dup2X1 => ill_typed(turn, state),
        Instr::Dup2X2 | Instr::Swap => ill_typed(turn, state),
        Instr::Int2(_) | Instr::Neg | Instr::Narrow(_) => ill_typed(turn, state),
        Instr::IfInt(..) | Instr::IfPair(..) | Instr::Goto(_) => ill_typed(turn, state),
        Instr::Table(..) | Instr::Lookup(..) => ill_typed(turn, state),
        Instr::ReturnInt | Instr::Return => ill_typed(turn, state),
        Instr::Other(_) => ill_typed(turn, state),
    }
}
