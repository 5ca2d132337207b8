//! What is wrong with a target and with instructions, and its refusal.
ghost use Rattle.std.specs.Prelude.{◌≡◌, ◌⊎◌, ◌<◌, None, length, option_map, IfOk};
ghost use Rattle.kb_classes.specs.World.{methods_in};
ghost use Rattle.kb_link.specs.Targets.{Declares};
ghost use Rattle.kb_classes.specs.declared.refusal.LinkRefusal.TheVariants as refusals;
ghost use Rattle.kb_universe.specs.Faults.{plain_fault};
ghost use Rattle.kb_world.specs.Calls.{fault_of};
ghost use Rattle.kb_universe.specs.Uses.{use_of};
ghost use Rattle.kb_world.specs.Reach.{static_fault, fault_of_target};
ghost use Rattle.kb_world.specs.Walks.{Tells};

use crate::world::World;
use kb_class::{ClassId, MethodId, MethodInfo, is_static};
use kb_code::Instr;
use kb_link::{LinkRefusal, What};
use kb_names::{NoMemory, Target};
use kb_resolution::has_left_out;
use kb_universe::{Fault, initialised, missing, primitive_fault};
use std::alloc::Global;

impl World {
    /// What is wrong with a target itself: a class that code initialises, where it is static, and then its type.
    pub(crate) fn target_fault(&self, id: MethodId) -> Option<Fault<'_>>
        requires { id.0 < length (methods_in self.now.classes) }
        ensures { option_map plain_fault result ≡ fault_of_target self.now id.0 }
    {
        let method = self.method_of(id);
        if let Some(fault) = self.static_fault(method) {
            return Some(fault);
        }
        if has_left_out(&method.kind) {
            return Some(Fault::Outside(What::Kind));
        }
        None
    }

    // The class of a static method, where code initialises it.
    fn static_fault(&self, method: &MethodInfo) -> Option<Fault<'_>>
        requires { method.now.class.0 < length self.now.classes }
        ensures { option_map plain_fault result ≡ static_fault self.now method.now }
    {
        if !is_static(method.access) {
            return None;
        }
        self.initialiser_fault(method.class)
    }

    /// What is wrong with an instruction of a class that does no more with an entry than to read it.
    #[tactic(auto, unfolding(crate::specs::Calls::fault_of))]
    pub(crate) fn other_fault(&self, class: ClassId, instr: &Instr) -> Option<Fault<'_>>
        requires class { class.0 < length self.now.classes }
        requires other { use_of instr.now ≡ None }
        ensures { option_map plain_fault result ≡ fault_of self.now class.0 instr.now }
    {
        match instr {
            Instr::Other(op) => Some(Fault::Outside(What::Opcode(*op))),
            Instr::Ldc(entry) => self.constant_fault(class, *entry),
            Instr::GetField(entry) | Instr::PutField(entry) => self.field_fault(class, *entry),
            Instr::NewPrim(code) => primitive_fault(*code),
            _ => None,
        }
    }

    /// The refusal of a fault of a method at an offset.
    pub(crate) fn refusal(
        &self,
        alloc: Global,
        method: MethodId,
        at: u32,
        fault: Fault<'_>,
    ) -> LinkRefusal
        requires { method.0 < length (methods_in self.now.classes) }
        ensures { (result ≡ refusals.NoMemory) ⊎ Tells self.now method.0 at (plain_fault fault.entry) result }
    {
        match fault {
            Fault::NoField => match self.target_of(alloc, method) {
                Ok(target) => LinkRefusal::NoField(target, at),
                Err(_) => LinkRefusal::NoMemory,
            },
            Fault::Outside(what) => match self.target_of(alloc, method) {
                Ok(target) => LinkRefusal::Outside(target, at, what),
                Err(_) => LinkRefusal::NoMemory,
            },
            Fault::Missing(name) => missing(alloc, name),
            Fault::Initialiser(name) => initialised(alloc, name),
        }
    }

    // The target that names the method.
    fn target_of(&self, alloc: Global, method: MethodId) -> Result<Target, NoMemory>
        requires { method.0 < length (methods_in self.now.classes) }
        ensures { IfOk result (Declares self.now method) }
    {
        let info = self.method_of(method);
        let class = self.name_of(info.class).copied(alloc)?;
        let name = info.name.copied(alloc)?;
        let kind = info.kind.copied(alloc)?;
        Ok(Target { class, name, kind })
    }
}
