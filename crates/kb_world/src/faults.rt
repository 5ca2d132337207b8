//! What is wrong with an instruction that is no call.
ghost use Rattle.std.specs.Prelude.{◌≡◌, ◌<◌, Some, length, option_map};
ghost use Rattle.kb_names.specs.declared.types.ExactType.TheVariants as exact;
ghost use Rattle.kb_resolution.specs.Lookup.{resolved_field_class, resolved_field};
ghost use Rattle.kb_universe.specs.Faults.{plain_fault, missing_class, entry_at, constant_fault, cast_fault, fault_of_initialiser, fault_of_object, fault_of_new, new_fault, array_fault};
ghost use Rattle.kb_world.specs.FieldFaults.{fault_of_slot, field_fault};

use crate::world::World;
use kb_class::{ClassId, ReferenceKind};
use kb_link::{What, is_concrete};
use kb_names::{ExactType, Name};
use kb_universe::{Fault, class_in_type, is_deepest};

impl World {
    /// What is wrong with an ldc of the entry, in code of the class.
    pub(crate) fn constant_fault(&self, class: ClassId, entry: u16) -> Option<Fault<'_>>
        requires { class.0 < length self.now.classes }
        ensures { option_map plain_fault result ≡ constant_fault (entry_at self.now class.0 entry) }
    {
        let loaded = self.linked().class_of(class);
        if loaded.int_entry(entry).is_some() {
            return None;
        }
        if loaded.text_entry(entry).is_some() {
            return None;
        }
        Some(Fault::Outside(What::Constant))
    }

    /// What is wrong with a getfield or putfield of the entry, in code of the class.
    pub(crate) fn field_fault(&self, class: ClassId, entry: u16) -> Option<Fault<'_>>
        requires { class.0 < length self.now.classes }
        ensures { option_map plain_fault result ≡ field_fault self.now class.0 entry }
    {
        let Some(sought) = self.linked().class_of(class).reference_entry(entry) else {
            return Some(Fault::Outside(What::Operand));
        };
        match sought.what {
            ReferenceKind::Field => self.slot_fault(class, entry),
            _ => Some(Fault::Outside(What::Operand)),
        }
    }

    // What is wrong with the field that the entry names.
    fn slot_fault(&self, class: ClassId, entry: u16) -> Option<Fault<'_>>
        requires { class.0 < length self.now.classes }
        ensures { option_map plain_fault result ≡ fault_of_slot (resolved_field_class self.now class.0 entry) (resolved_field self.now class.0 entry) }
    {
        if self.field_class(class, entry).is_none() {
            return Some(Fault::NoField);
        }
        match self.resolve_field(class, entry) {
            Some(_) => None,
            None => Some(Fault::Outside(What::Kind)),
        }
    }

    /// What is wrong with a checkcast or instanceof of the entry, in code of the class.
    pub(crate) fn cast_fault(&self, class: ClassId, entry: u16) -> Option<Fault<'_>>
        requires { class.0 < length self.now.classes }
        ensures { option_map plain_fault result ≡ cast_fault self.now class.0 entry }
    {
        match self.type_entry(class, entry) {
            Some(of) => self.missing_class(of),
            None => Some(Fault::Outside(What::Operand)),
        }
    }

    // The class that the type names, where it is not there.
    fn missing_class<'a>(&self, of: &'a ExactType) -> Option<Fault<'a>>
        ensures { option_map plain_fault result ≡ missing_class self.now of.now }
    {
        let name = class_in_type(of)?;
        match self.class_named(name) {
            Some(_) => None,
            None => Some(Fault::Missing(name)),
        }
    }

    /// What is wrong with a new of the entry, in code of the class.
    pub(crate) fn new_fault(&self, class: ClassId, entry: u16) -> Option<Fault<'_>>
        requires { class.0 < length self.now.classes }
        ensures { option_map plain_fault result ≡ new_fault self.now class.0 entry }
    {
        match self.type_entry(class, entry) {
            Some(of) => self.new_type_fault(of),
            None => Some(Fault::Outside(What::Operand)),
        }
    }

    // What is wrong with making an object of the type.
    fn new_type_fault<'a>(&'a self, of: &'a ExactType) -> Option<Fault<'a>>
        ensures { option_map plain_fault result ≡ fault_of_new self.now (Some of.now) }
    {
        match of {
            ExactType::Class(name) => self.new_class_fault(name),
            ExactType::Array(_) => match self.missing_class(of) {
                Some(fault) => Some(fault),
                None => Some(Fault::Outside(What::Kind)),
            },
        }
    }

    // What is wrong with making an object of the class of that name, which is looked up once.
    fn new_class_fault<'a>(&'a self, name: &'a Name) -> Option<Fault<'a>>
        ensures { option_map plain_fault result ≡ fault_of_new self.now (Some (exact.Class name.now)) }
    {
        match self.class_named(name) {
            Some(class) => self.object_fault(class),
            None => Some(Fault::Missing(name)),
        }
    }

    // What is wrong with making an object of the class.
    fn object_fault(&self, class: ClassId) -> Option<Fault<'_>>
        requires { class.0 < length self.now.classes }
        ensures { option_map plain_fault result ≡ fault_of_object self.now class.0 }
    {
        if !is_concrete(self.linked().class_of(class)) {
            return Some(Fault::Outside(What::Kind));
        }
        self.initialiser_fault(class)
    }

    /// The class, where code initialises it.
    pub(crate) fn initialiser_fault(&self, class: ClassId) -> Option<Fault<'_>>
        requires { class.0 < length self.now.classes }
        ensures { option_map plain_fault result ≡ fault_of_initialiser self.now class.0 }
    {
        if self.linked().has_initialiser(class) {
            return Some(Fault::Initialiser(self.name_of(class)));
        }
        None
    }

    /// What is wrong with an anewarray of the entry, in code of the class.
    pub(crate) fn array_fault(&self, class: ClassId, entry: u16) -> Option<Fault<'_>>
        requires { class.0 < length self.now.classes }
        ensures { option_map plain_fault result ≡ array_fault self.now class.0 entry }
    {
        let Some(of) = self.type_entry(class, entry) else {
            return Some(Fault::Outside(What::Operand));
        };
        if let Some(fault) = self.missing_class(of) {
            return Some(fault);
        }
        if is_deepest(of) {
            return Some(Fault::Outside(What::Kind));
        }
        None
    }
}
