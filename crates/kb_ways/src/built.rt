//! Which instructions are carried out for now.
ghost use Rattle.std.specs.Prelude.{◌≡◌};
ghost use Rattle.kb_ways.specs.Built.{is_built_instruction, is_reference_instruction};

use kb_class::MethodId;
use kb_code::Instr;
use kb_frames::is_int_instruction;
use kb_semantics::World;

/// Whether the instruction is one that is built: one of ints, or one on references.
pub fn is_built_instruction(world: &World, method: MethodId, instr: &Instr) -> bool
    ensures { result ≡ is_built_instruction world.now method instr.now }
{
    if is_int_instruction(world, method, instr) {
        return true;
    }
    is_reference_instruction(instr)
}

fn is_reference_instruction(instr: &Instr) -> bool
    ensures { result ≡ is_reference_instruction instr.now }
{
    match instr {
        Instr::PushNull | Instr::LoadRef(_) | Instr::StoreRef(_) => true,
        Instr::IfSame(..) | Instr::IfNull(..) => true,
        Instr::ReturnRef | Instr::Throw => true,
        Instr::GetField(_) | Instr::PutField(_) => true,
        Instr::Virtual(_) | Instr::Special(_) => true,
        Instr::Static(_) | Instr::Interface(_) | Instr::New(_) => true,
        Instr::LoadElem(_) | Instr::StoreElem(_) | Instr::Length => true,
        Instr::NewPrim(_) | Instr::NewRefs(_) => true,
        Instr::Cast(_) | Instr::InstanceOf(_) | Instr::Ldc(_) => true,
        _ => false,
    }
}
