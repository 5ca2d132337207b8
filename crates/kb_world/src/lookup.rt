//! Resolution and selection (JVMS 8 sections 5.4.3 and 5.4.6).
ghost use Rattle.std.specs.Prelude.{◌≡◌, ◌<◌, length, option_map};
ghost use Rattle.std.specs.Option.{option_copied};
ghost use Rattle.kb_classes.specs.World.{methods_in};
ghost use Rattle.kb_resolution.specs.Lookup.{resolved_field, resolved_field_class, resolved_method, selected, selected_special};

use crate::world::World;
use kb_class::{ClassId, MethodId};
use kb_link::FieldSlot;
use kb_resolution::slot_in;

impl World {
    /// The class that declares the field which a Fieldref entry names: the class that the entry names, or the first of its
    /// superclasses that does. None where there is no such field, or where the entry is none of a field.
    pub fn field_class(&self, class: ClassId, entry: u16) -> Option<ClassId>
        requires { class.0 < length self.now.classes }
        ensures { option_map (λ (id : ClassId). id.0) result ≡ resolved_field_class self.now class.0 entry }
    {
        match self.entry_at(class, entry).declaring {
            Some(number) => Some(ClassId(number)),
            None => None,
        }
    }

    /// The slot of the field which a Fieldref entry names. None where there is no such field, where it has no slot, or where
    /// the entry is none of a field.
    pub fn resolve_field(&self, class: ClassId, entry: u16) -> Option<&FieldSlot>
        requires { class.0 < length self.now.classes }
        ensures { option_copied result ≡ resolved_field self.now class.0 entry }
    {
        let told = self.entry_at(class, entry);
        slot_in(self.linked(), told.declaring, told.slot)
    }

    /// The method which a Methodref or InterfaceMethodref entry names. None where there is no such method, or where the entry
    /// is none of a method.
    pub fn resolve_method(&self, class: ClassId, entry: u16) -> Option<MethodId>
        requires { class.0 < length self.now.classes }
        ensures there { option_map (λ (id : MethodId). id.0) result ≡ resolved_method self.now class.0 entry }
    {
        method_id(self.entry_at(class, entry).method)
    }

    /// What invokespecial of a Methodref or InterfaceMethodref entry calls, in code of the class of the entry.
    pub fn select_special(&self, class: ClassId, entry: u16) -> Option<MethodId>
        requires { class.0 < length self.now.classes }
        ensures { option_map (λ (id : MethodId). id.0) result ≡ selected_special self.now class.0 entry }
    {
        method_id(self.entry_at(class, entry).special)
    }

    /// What is called in place of the method where the receiver is of the class: the first method of its name and type from
    /// the class upwards that is neither private nor static.
    pub fn select(&self, class: ClassId, method: MethodId) -> Option<MethodId>
        requires class { class.0 < length self.now.classes }
        requires method { method.0 < length (methods_in self.now.classes) }
        ensures { option_map (λ (id : MethodId). id.0) result ≡ selected self.now class.0 method.0 }
    {
        method_id(self.selected(class, method))
    }
}

fn method_id(number: Option<u32>) -> Option<MethodId>
    ensures { option_map (λ (id : MethodId). id.0) result ≡ number }
{
    match number {
        Some(number) => Some(MethodId(number)),
        None => None,
    }
}
