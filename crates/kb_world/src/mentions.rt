//! The methods that calls mention.
ghost use Rattle.std.specs.Prelude.{◌≡◌, ◌<◌, ◌∷◌, [], length, filter_map, option_map, OnOk, IfSome};
ghost use Rattle.kb_classes.specs.World.{methods_in};
ghost use Rattle.kb_world.specs.Calls.{called, called_on, if_code, call_mentions};
ghost use Rattle.kb_resolution.specs.Lookup.{class_number};
ghost use Rattle.kb_world.specs.Receivers.{called_below, receivers_in};
ghost use Rattle.kb_world.specs.Walks.{with_all};

use crate::world::World;
use kb_class::{ClassId, MethodId};
use kb_names::{ExactType, NoMemory};
use kb_universe::{Call, EntryCall, Found, takes};

impl World {
    /// Adds the methods that a call of the entry may call, in code of the class.
    pub(crate) fn add_called(&self, asked: EntryCall, found: &mut Found) -> Result<(), NoMemory>
        requires class { asked.class < length self.now.classes }
        requires all { found.old.all ≡ length (methods_in self.now.classes) }
        ensures { OnOk result (found.new ≡ with_all found.old (call_mentions self.now asked.class asked.call asked.entry)) }
    {
        let class = ClassId(asked.class);
        let Some(sought) = self.linked().class_of(class).reference_entry(asked.entry) else {
            return Ok(());
        };
        if !takes(asked.call, sought.what) {
            return Ok(());
        }
        let owner = self.entry_at(class, asked.entry).owner;
        match self.resolve_method(class, asked.entry) {
            Some(method) => self.add_for(asked, sought.class, owner, method, found),
            None => Ok(()),
        }
    }

    // Adds what a call of the method, which is sought in the type, may call.
    fn add_for(
        &self,
        asked: EntryCall,
        of: &ExactType,
        owner: Option<u32>,
        method: MethodId,
        found: &mut Found,
    ) -> Result<(), NoMemory>
        requires class { asked.class < length self.now.classes }
        requires owner { owner ≡ class_number self.now of.now }
        requires method { method.0 < length (methods_in self.now.classes) }
        requires all { found.old.all ≡ length (methods_in self.now.classes) }
        ensures { OnOk result (found.new ≡ with_all found.old (filter_map (if_code self.now) (called self.now asked.class asked.call asked.entry of.now method.0))) }
    {
        match asked.call {
            Call::Virtual | Call::Interface => self.add_selected(of, owner, method, found),
            Call::Special => {
                let class = ClassId(asked.class);
                self.add_method(self.select_special(class, asked.entry), found)
            }
            Call::Static => self.add_method(Some(method), found),
        }
    }

    // Adds for each receiver what is called in place of the method, which is sought in the type.
    fn add_selected(
        &self,
        of: &ExactType,
        owner: Option<u32>,
        method: MethodId,
        found: &mut Found,
    ) -> Result<(), NoMemory>
        requires owner { owner ≡ class_number self.now of.now }
        requires method { method.0 < length (methods_in self.now.classes) }
        requires all { found.old.all ≡ length (methods_in self.now.classes) }
        ensures { OnOk result (found.new ≡ with_all found.old (filter_map (if_code self.now) (called_on self.now of.now method.0))) }
    {
        self.add_for_classes(owner, method, found)?;
        if !self.has_array_receiver(of) {
            return Ok(());
        }
        self.add_method(self.select_on_array(method), found)
    }

    // Adds for each receiver that is a class what is called in place of the method.
    fn add_for_classes(
        &self,
        owner: Option<u32>,
        method: MethodId,
        found: &mut Found,
    ) -> Result<(), NoMemory>
        requires method { method.0 < length (methods_in self.now.classes) }
        requires all { found.old.all ≡ length (methods_in self.now.classes) }
        ensures { OnOk result (found.new ≡ with_all found.old (filter_map (if_code self.now) (called_below self.now owner method.0 (receivers_in self.now)))) }
    {
        let mut rest = self.receivers();
        while let [receiver, others @ ..] = rest {
            if self.receives_at(owner, *receiver) {
                self.add_method(self.select(ClassId(*receiver), method), found)?;
            }
            rest = others;
        }
        Ok(())
    }

    // Adds the method, where it is one with code.
    fn add_method(&self, method: Option<MethodId>, found: &mut Found) -> Result<(), NoMemory>
        requires method { IfSome method (λ id. id.0 < length (methods_in self.now.classes)) }
        requires all { found.old.all ≡ length (methods_in self.now.classes) }
        ensures { OnOk result (found.new ≡ with_all found.old (filter_map (if_code self.now) (option_map (λ (id : MethodId). id.0) method ∷ []))) }
    {
        let Some(method) = method else {
            return Ok(());
        };
        if self.method_of(method).code.is_none() {
            return Ok(());
        }
        found.add(method.0)
    }
}
