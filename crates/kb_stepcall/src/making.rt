//! The making of objects (JVMS 8 section 6.5, new).
ghost use Rattle.std.specs.Prelude.{◌≡◌, IfOk};
ghost use Rattle.kb_ways.specs.Needs.{IsFor};
ghost use Rattle.kb_ways.specs.Turns.{led_by, told};
ghost use Rattle.kb_stepcall.specs.Making.{makes, makes_object};

use crate::NoMemory;
use kb_frames::{Outcome, SymState, SymValue};
use kb_lookups::declaring_class;
use kb_names::ExactType;
use kb_ways::{Turn, has_room, ill_typed, replaces};

/// new. It takes time in proportion to the slots of the object.
pub fn make_object(turn: &Turn<'_>, state: &mut SymState, entry: u16) -> Result<Outcome, NoMemory>
    requires { IsFor turn.now state.old }
    ensures { IfOk result (λ outcome. told state.new outcome ≡ led_by turn.now (makes_object turn.now.world.now state.old entry)) }
{
    let class = declaring_class(turn.world, turn.method);
    match turn.world.find_type(class, entry) {
        Some(ExactType::Class(name)) => make(turn, state, name.as_slice()),
        Some(ExactType::Array(_)) | None => ill_typed(turn, state),
    }
}

// Where the stack has no room for the reference, no object is made.
fn make(turn: &Turn<'_>, state: &mut SymState, class: &[u8]) -> Result<Outcome, NoMemory>
    requires { IsFor turn.now state.old }
    ensures { IfOk result (λ outcome. told state.new outcome ≡ led_by turn.now (makes turn.now.world.now state.old class.now)) }
{
    let height = state.height();
    if !has_room(turn, state, height, 1) {
        return ill_typed(turn, state);
    }
    let number = state.make_object(turn.world, class)?;
    replaces(turn, state, 0, &[SymValue::New(number)])
}
