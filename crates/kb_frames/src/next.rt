//! What a state comes to next.
ghost use Rattle.std.specs.Prelude.{◌≡◌, IfOk, option_map};
ghost use Rattle.kb_semantics.specs.Config.{class_number};
ghost use Rattle.kb_frames.specs.Next.{type_of, kind_of, argument_next, method_now, offset_now, instruction_next, is_int_next, next_is_int};

use crate::NoMemory;
use crate::state::{Stage, SymState};
use kb_class::MethodId;
use kb_kinds::{Argument, argument_at, is_int_instruction, is_reference, variable_kind};
use kb_lookups::{declaring_class, instruction_at};
use kb_names::{JType, Name};
use kb_semantics::World;
use kb_terms::VarKind;
use std::alloc::Global;

impl SymState {
    /// Whether the next step is one of ints: the next argument to be read is no reference, or all are read, and the next
    /// instruction works on ints and the stack alone, or there is none. It takes no memory.
    pub fn next_is_int(&self, world: &World) -> bool
        ensures { result ≡ next_is_int world.now self.now }
    {
        match self.next_argument(world) {
            Some(Argument::Receiver) => false,
            Some(Argument::Typed(kind)) => !is_reference(kind),
            None => self.is_at_int(world),
        }
    }

    /// The kind of the variable that the next argument is to be, where it is an int or a boolean; None where all arguments are
    /// read. It takes no memory.
    pub fn next_kind(&self, world: &World) -> Option<VarKind>
        ensures { result ≡ option_map kind_of (argument_next world.now self.now.method self.now.stage) }
    {
        match self.next_argument(world)? {
            Argument::Receiver => Some(VarKind::Int),
            Argument::Typed(kind) => Some(variable_kind(kind)),
        }
    }

    /// The type of the next argument, that of a receiver being its method's class; None where all arguments are read.
    pub fn next_type(&self, alloc: Global, world: &World) -> Result<Option<JType>, NoMemory>
        ensures { IfOk result (λ next. next ≡ argument_next world.now self.now.method self.now.stage) }
    {
        match self.next_argument(world) {
            Some(Argument::Receiver) => {
                let class = world.find_name(declaring_class(world, self.method));
                Ok(Some(JType::Class(Name::from_slice(alloc, class)?)))
            }
            Some(Argument::Typed(kind)) => Ok(Some(kind.copied(alloc)?)),
            None => Ok(None),
        }
    }

    /// The method and the offset at which the run stands, or begins.
    pub fn stands_at(&self) -> (MethodId, u32)
        ensures { result ≡ (method_now self.now.method self.now.stage, offset_now self.now.stage) }
    {
        match &self.stage {
            Stage::Begins(_) => (self.method, 0),
            Stage::Runs(frame, _) => (frame.method, frame.at),
        }
    }

    // The argument that is read next: None where all are read.
    fn next_argument<'w>(&self, world: &'w World) -> Option<Argument<'w>>
        ensures { option_map (type_of world.now (class_number world.now self.now.method)) result ≡ argument_next world.now self.now.method self.now.stage }
    {
        match &self.stage {
            Stage::Begins(read) => match world.find_method(self.method) {
                Some(info) => argument_at(world, info, read.as_slice().len()),
                None => None,
            },
            Stage::Runs(..) => None,
        }
    }

    // Whether the run, its arguments being read, stands at an instruction of ints or behind its code.
    fn is_at_int(&self, world: &World) -> bool
        ensures { result ≡ is_int_next world.now (method_now self.now.method self.now.stage) (instruction_next world.now self.now.method self.now.stage) }
    {
        let (method, at) = self.stands_at();
        match instruction_at(world, method, at) {
            Some(found) => is_int_instruction(world, method, found.instr),
            None => true,
        }
    }
}
