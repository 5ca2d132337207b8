//! What a target reaches, and the first thing there that cannot be carried out.
ghost use Rattle.std.specs.Prelude.{◌≡◌, ◌<◌, length, None, OnOk, IfOk, IfErr};
ghost use Rattle.kb_classes.specs.World.{methods_in};
ghost use Rattle.kb_link.specs.Targets.{IsTargetOf};
ghost use Rattle.kb_world.specs.Reach.{HasNoFaults, IsFirstFault, IsAccepted, Refuses, fault_of_target};
ghost use Rattle.kb_world.specs.Walks.{StopsAt};

use crate::world::World;
use kb_class::MethodId;
use kb_link::LinkRefusal;
use kb_names::Target;
use kb_universe::{Found, Looked, no_method};
use std::alloc::Global;

impl World {
    /// The method that the target names, where all that it reaches can be carried out.
    ///
    /// The methods that are reached are looked at in order of first mention, each method's instructions by rising offset; the
    /// first fault is the answer.
    pub fn reach(&self, alloc: Global, target: &Target) -> Result<MethodId, LinkRefusal>
        ensures found { IfOk result (IsTargetOf self.now target.now) }
        ensures accepted { IfOk result (IsAccepted self.now) }
        ensures refused { IfErr result (Refuses self.now target.now) }
    {
        let Some(id) = self.find_target(target) else {
            return Err(no_method(alloc, target));
        };
        match self.check_reached(alloc, id) {
            Ok(()) => Ok(id),
            Err(refusal) => Err(refusal),
        }
    }

    // Refuses the first fault of what the method reaches.
    fn check_reached(&self, alloc: Global, id: MethodId) -> Result<(), LinkRefusal>
        requires { id.0 < length (methods_in self.now.classes) }
        ensures none { OnOk result (HasNoFaults self.now id.0) }
        ensures refused { IfErr result (StopsAt self.now (IsFirstFault self.now id.0)) }
    {
        match self.target_fault(id) {
            Some(fault) => Err(self.refusal(alloc, id, 0, fault)),
            None => self.check_methods(alloc, id),
        }
    }

    // Refuses the first fault of the methods that are reached.
    fn check_methods(&self, alloc: Global, id: MethodId) -> Result<(), LinkRefusal>
        requires there { id.0 < length (methods_in self.now.classes) }
        requires itself { fault_of_target self.now id.0 ≡ None }
        ensures none { OnOk result (HasNoFaults self.now id.0) }
        ensures refused { IfErr result (StopsAt self.now (IsFirstFault self.now id.0)) }
    {
        let Ok(mut found) = Found::new(alloc, self.linked().method_count(), id.0) else {
            return Err(LinkRefusal::NoMemory);
        };
        let mut looked = Looked::new(alloc);
        let mut place = 0;
        while let Some(number) = found.at(place) {
            match self.check_method(alloc, MethodId(number), &mut found, &mut looked) {
                Ok(()) => place += 1,
                Err(refusal) => return Err(refusal),
            }
        }
        Ok(())
    }
}
