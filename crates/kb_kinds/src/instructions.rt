//! Which instructions are those of ints.
ghost use Rattle.std.specs.Prelude.{◌≡◌};
ghost use Rattle.kb_kinds.specs.Kinds.{is_int_entry, is_int_instruction};

use kb_class::MethodId;
use kb_code::Instr;
use kb_semantics::World;

/// Whether an instruction of the method is one of those on ints, on locals that are ints and on the stack, a branch on ints, or
/// a return of an int or of nothing. An ldc is one of them where its constant is an int.
pub fn is_int_instruction(world: &World, method: MethodId, instr: &Instr) -> bool
    ensures { result ≡ is_int_instruction world.now method instr.now }
{
    match instr {
        Instr::Ldc(entry) => is_int_entry(world, method, *entry),
        Instr::Nop | Instr::PushInt(_) | Instr::LoadInt(_) | Instr::StoreInt(_) => true,
        Instr::Pop | Instr::Pop2 | Instr::Dup | Instr::DupX1 | Instr::DupX2 => true,
        Instr::Dup2 | Instr::Dup2X1 | Instr::Dup2X2 | Instr::Swap => true,
        Instr::Int2(_) | Instr::Neg | Instr::Inc(..) | Instr::Narrow(_) => true,
        Instr::IfInt(..) | Instr::IfPair(..) | Instr::Goto(_) => true,
        Instr::Table(..) | Instr::Lookup(..) | Instr::ReturnInt | Instr::Return => true,
        _ => false,
    }
}

// Whether the entry of the method's class is an Integer.
fn is_int_entry(world: &World, method: MethodId, entry: u16) -> bool
    ensures { result ≡ is_int_entry world.now method entry }
{
    match world.find_method(method) {
        Some(info) => world.find_int(info.class, entry).is_some(),
        None => false,
    }
}
