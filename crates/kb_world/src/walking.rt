//! The walk over the code of a method that is reached: the first fault, and what is mentioned. An entry is looked at once for each
//! use of it.
ghost use Rattle.std.specs.Prelude.{◌≡◌, ◌<◌, length, None, OnOk, IfErr};
ghost use Rattle.kb_classes.specs.World.{methods_in};
ghost use Rattle.std.specs.Option.{option_map};
ghost use Rattle.kb_universe.specs.Uses.{use_of};
ghost use Rattle.kb_world.specs.Calls.{use_fault, use_mentions, fault_of, mentions};
ghost use Rattle.kb_universe.specs.Faults.{plain_fault};
ghost use Rattle.kb_world.specs.Reach.{HasNoFault, fault_in, mentions_in, method_mentions};
ghost use Rattle.kb_world.specs.Walks.{with_all, StopsAt, IsFaultOfMethod, IsFaultIn, IsFaultAt, IsFaultOfUse, AreSettled};

use crate::world::World;
use kb_class::{ClassId, MethodId};
use kb_code::Instr;
use kb_link::LinkRefusal;
use kb_universe::{Asked, EntryCall, Fault, Found, Looked, Use, use_of};
use std::alloc::Global;

impl World {
    /// Refuses the first fault of a method, and adds the methods that it mentions.
    pub(crate) fn check_method(
        &self,
        alloc: Global,
        method: MethodId,
        found: &mut Found,
        looked: &mut Looked,
    ) -> Result<(), LinkRefusal>
        requires there { method.0 < length (methods_in self.now.classes) }
        requires all { found.old.all ≡ length (methods_in self.now.classes) }
        requires settled { AreSettled self.now found.old.numbers looked.old }
        ensures none { OnOk result (HasNoFault self.now method.0) }
        ensures added { OnOk result (found.new ≡ with_all found.old (method_mentions self.now method.0)) }
        ensures settled { OnOk result (AreSettled self.now found.new.numbers looked.new) }
        ensures refused { IfErr result (StopsAt self.now (IsFaultOfMethod self.now method.0)) }
    {
        let info = self.method_of(method);
        match &info.code {
            Some(code) => {
                let items = code.listing.items.as_slice();
                self.check_items(alloc, method, info.class, items, found, looked)
            }
            None => Ok(()),
        }
    }

    // Refuses the first fault of these instructions of a method, and adds the methods that they mention.
    fn check_items(
        &self,
        alloc: Global,
        method: MethodId,
        class: ClassId,
        items: &[(u32, Instr)],
        found: &mut Found,
        looked: &mut Looked,
    ) -> Result<(), LinkRefusal>
        requires there { method.0 < length (methods_in self.now.classes) }
        requires class { class.0 < length self.now.classes }
        requires all { found.old.all ≡ length (methods_in self.now.classes) }
        requires settled { AreSettled self.now found.old.numbers looked.old }
        ensures none { OnOk result (fault_in self.now class.0 items.now ≡ None) }
        ensures added { OnOk result (found.new ≡ with_all found.old (mentions_in self.now class.0 items.now)) }
        ensures settled { OnOk result (AreSettled self.now found.new.numbers looked.new) }
        ensures refused { IfErr result (StopsAt self.now (IsFaultIn self.now method.0 class.0 items.now)) }
    {
        let mut rest = items;
        while let [item, others @ ..] = rest {
            match self.check_item(alloc, method, class, item, found, looked) {
                Ok(()) => rest = others,
                Err(refusal) => return Err(refusal),
            }
        }
        Ok(())
    }

    // Refuses the fault of an instruction of a method, or adds the methods that it mentions.
    fn check_item(
        &self,
        alloc: Global,
        method: MethodId,
        class: ClassId,
        item: &(u32, Instr),
        found: &mut Found,
        looked: &mut Looked,
    ) -> Result<(), LinkRefusal>
        requires there { method.0 < length (methods_in self.now.classes) }
        requires class { class.0 < length self.now.classes }
        requires all { found.old.all ≡ length (methods_in self.now.classes) }
        requires settled { AreSettled self.now found.old.numbers looked.old }
        ensures none { OnOk result (fault_of self.now class.0 item.now.1 ≡ None) }
        ensures added { OnOk result (found.new ≡ with_all found.old (mentions self.now class.0 item.now.1)) }
        ensures settled { OnOk result (AreSettled self.now found.new.numbers looked.new) }
        ensures refused { IfErr result (StopsAt self.now (IsFaultAt self.now method.0 class.0 item.now)) }
    {
        match use_of(&item.1) {
            Some((usage, entry)) => {
                let asked = Asked {
                    class: class.0,
                    entry,
                    usage,
                };
                self.check_use(alloc, method, item.0, asked, found, looked)
            }
            None => self.check_other(alloc, method, class, item),
        }
    }

    // Refuses the fault of an instruction that does no more with an entry than to read it.
    fn check_other(
        &self,
        alloc: Global,
        method: MethodId,
        class: ClassId,
        item: &(u32, Instr),
    ) -> Result<(), LinkRefusal>
        requires there { method.0 < length (methods_in self.now.classes) }
        requires class { class.0 < length self.now.classes }
        requires other { use_of item.now.1 ≡ None }
        ensures none { OnOk result (fault_of self.now class.0 item.now.1 ≡ None) }
        ensures refused { IfErr result (StopsAt self.now (IsFaultAt self.now method.0 class.0 item.now)) }
    {
        match self.other_fault(class, &item.1) {
            Some(fault) => Err(self.refusal(alloc, method, item.0, fault)),
            None => Ok(()),
        }
    }

    // Refuses the fault of a use of an entry at that offset of a method, or adds the methods that it mentions: at the first such use
    // of the entry.
    fn check_use(
        &self,
        alloc: Global,
        method: MethodId,
        at: u32,
        asked: Asked,
        found: &mut Found,
        looked: &mut Looked,
    ) -> Result<(), LinkRefusal>
        requires there { method.0 < length (methods_in self.now.classes) }
        requires class { asked.class < length self.now.classes }
        requires all { found.old.all ≡ length (methods_in self.now.classes) }
        requires settled { AreSettled self.now found.old.numbers looked.old }
        ensures none { OnOk result (use_fault self.now asked.class asked.usage asked.entry ≡ None) }
        ensures added { OnOk result (found.new ≡ with_all found.old (use_mentions self.now asked.class asked.usage asked.entry)) }
        ensures settled { OnOk result (AreSettled self.now found.new.numbers looked.new) }
        ensures refused { IfErr result (StopsAt self.now (IsFaultOfUse self.now method.0 at asked)) }
    {
        if looked.has(asked) {
            return Ok(());
        }
        match self.look_at(alloc, method, at, asked, found) {
            Ok(()) => {}
            Err(refusal) => return Err(refusal),
        }
        match looked.add(asked) {
            Ok(()) => Ok(()),
            Err(_) => Err(LinkRefusal::NoMemory),
        }
    }

    // Refuses the fault of a use of an entry at that offset of a method, or adds the methods that it mentions.
    fn look_at(
        &self,
        alloc: Global,
        method: MethodId,
        at: u32,
        asked: Asked,
        found: &mut Found,
    ) -> Result<(), LinkRefusal>
        requires there { method.0 < length (methods_in self.now.classes) }
        requires class { asked.class < length self.now.classes }
        requires all { found.old.all ≡ length (methods_in self.now.classes) }
        ensures none { OnOk result (use_fault self.now asked.class asked.usage asked.entry ≡ None) }
        ensures added { OnOk result (found.new ≡ with_all found.old (use_mentions self.now asked.class asked.usage asked.entry)) }
        ensures refused { IfErr result (StopsAt self.now (IsFaultOfUse self.now method.0 at asked)) }
    {
        if let Some(fault) = self.use_fault(ClassId(asked.class), asked.usage, asked.entry) {
            return Err(self.refusal(alloc, method, at, fault));
        }
        let Use::Call(call) = asked.usage else {
            return Ok(());
        };
        let called = EntryCall {
            class: asked.class,
            entry: asked.entry,
            call,
        };
        match self.add_called(called, found) {
            Ok(()) => Ok(()),
            Err(_) => Err(LinkRefusal::NoMemory),
        }
    }

    // What is wrong with a use of the entry, in code of the class.
    fn use_fault(&self, class: ClassId, usage: Use, entry: u16) -> Option<Fault<'_>>
        requires { class.0 < length self.now.classes }
        ensures { option_map plain_fault result ≡ use_fault self.now class.0 usage entry }
    {
        match usage {
            Use::Call(call) => self.call_fault(class, call, entry),
            Use::Object => self.new_fault(class, entry),
            Use::Array => self.array_fault(class, entry),
            Use::Cast => self.cast_fault(class, entry),
        }
    }
}
