//! What a call may call, and what is wrong with it.
ghost use Rattle.std.specs.Prelude.{◌≡◌, ◌<◌, length, not, option_map, IfSome};
ghost use Rattle.std.specs.List.{list_any};
ghost use Rattle.kb_class.specs.Platform.{object_name};
ghost use Rattle.kb_classes.specs.World.{methods_in, number_in};
ghost use Rattle.kb_link.specs.Links.{IsLinked};
ghost use Rattle.kb_resolution.specs.Lookup.{class_number, class_of, resolved_method};
ghost use Rattle.kb_universe.specs.declared.calls.Call.TheVariants as calls;
ghost use Rattle.kb_resolution.specs.LeftOut.{kind_left_out};
ghost use Rattle.kb_universe.specs.Faults.{plain_fault};
ghost use Rattle.kb_resolution.specs.Tables.{kind_owner};
ghost use Rattle.kb_world.specs.Receivers.{called_below, receivers_in, receives_at, selected_on_array};
ghost use Rattle.kb_world.specs.Calls.{selected_on, called_on, called, is_callable_method, is_callable, is_for, fault_of_kind, fault_of_number, call_fault};

use crate::world::World;
use kb_class::{ClassId, MemberKind, MethodId, MethodInfo, is_static};
use kb_link::What;
use kb_names::ExactType;
use kb_resolution::{OBJECT, Resolved, is_open};
use kb_universe::{Call, Fault, takes};

impl World {
    /// What is wrong with a call of the entry, in code of the class.
    pub(crate) fn call_fault(&self, class: ClassId, call: Call, entry: u16) -> Option<Fault<'_>>
        requires { class.0 < length self.now.classes }
        ensures { option_map plain_fault result ≡ call_fault self.now class.0 call entry }
    {
        let Some(sought) = self.linked().class_of(class).reference_entry(entry) else {
            return Some(Fault::Outside(What::Operand));
        };
        if !takes(call, sought.what) {
            return Some(Fault::Outside(What::Operand));
        }
        let resolved = self.entry_at(class, entry);
        self.kind_fault(class, call, entry, sought.class, sought.kind, resolved)
    }

    // What is wrong with a call of the entry, which names a member of that kind; whether a part of a method's type is left out,
    // and in which class it is sought, was found before.
    fn kind_fault(
        &self,
        class: ClassId,
        call: Call,
        entry: u16,
        of: &ExactType,
        kind: &MemberKind,
        known: Resolved,
    ) -> Option<Fault<'_>>
        requires class { class.0 < length self.now.classes }
        requires left_out { known.left_out ≡ kind_left_out kind.now }
        requires owner { known.owner ≡ kind_owner self.now of.now kind.now }
        ensures { option_map plain_fault result ≡ fault_of_kind self.now class.0 call entry of.now kind.now }
    {
        let MemberKind::Method(_) = kind else {
            return Some(Fault::Outside(What::Method));
        };
        if known.left_out {
            return Some(Fault::Outside(What::Kind));
        }
        self.resolved_fault(class, call, entry, of, known.owner)
    }

    // What is wrong with a call of the method that the entry names.
    fn resolved_fault(
        &self,
        class: ClassId,
        call: Call,
        entry: u16,
        of: &ExactType,
        owner: Option<u32>,
    ) -> Option<Fault<'_>>
        requires class { class.0 < length self.now.classes }
        requires owner { owner ≡ class_number self.now of.now }
        ensures { option_map plain_fault result ≡ fault_of_number self.now class.0 call entry of.now (resolved_method self.now class.0 entry) }
    {
        match self.resolve_method(class, entry) {
            Some(method) => self.method_fault(class, call, entry, of, owner, method),
            None => Some(Fault::Outside(What::Method)),
        }
    }

    // What is wrong with a call of the method.
    fn method_fault(
        &self,
        class: ClassId,
        call: Call,
        entry: u16,
        of: &ExactType,
        owner: Option<u32>,
        method: MethodId,
    ) -> Option<Fault<'_>>
        requires class { class.0 < length self.now.classes }
        requires owner { owner ≡ class_number self.now of.now }
        requires method { method.0 < length (methods_in self.now.classes) }
        ensures { option_map plain_fault result ≡ fault_of_number self.now class.0 call entry of.now (Some method.0) }
    {
        let info = self.method_of(method);
        if !self.is_for(class, call, entry, info) {
            return Some(Fault::Outside(What::Method));
        }
        if self.is_any_uncallable(class, call, entry, of, owner, method) {
            return Some(Fault::Outside(What::Method));
        }
        match call {
            Call::Static => self.initialiser_fault(info.class),
            _ => None,
        }
    }

    // Whether the method that is named is one for the call.
    fn is_for(&self, class: ClassId, call: Call, entry: u16, method: &MethodInfo) -> bool
        requires { class.0 < length self.now.classes }
        ensures { result ≡ is_for self.now class.0 call entry method.now }
    {
        match call {
            Call::Virtual | Call::Interface => is_open(method),
            Call::Special => self.is_for_special(class, entry, method),
            Call::Static => is_static(method.access),
        }
    }

    // Whether neither the method that is named nor the one that invokespecial selects is static.
    fn is_for_special(&self, class: ClassId, entry: u16, method: &MethodInfo) -> bool
        requires { class.0 < length self.now.classes }
        ensures { result ≡ is_for self.now class.0 calls.Special entry method.now }
    {
        if is_static(method.access) {
            return false;
        }
        match self.select_special(class, entry) {
            Some(selected) => !is_static(self.method_of(selected).access),
            None => true,
        }
    }

    // Whether the call may call what is no callable method.
    fn is_any_uncallable(
        &self,
        class: ClassId,
        call: Call,
        entry: u16,
        of: &ExactType,
        owner: Option<u32>,
        method: MethodId,
    ) -> bool
        requires class { class.0 < length self.now.classes }
        requires owner { owner ≡ class_number self.now of.now }
        requires method { method.0 < length (methods_in self.now.classes) }
        ensures { result ≡ list_any (λ found. not (is_callable self.now found)) (called self.now class.0 call entry of.now method.0) }
    {
        match call {
            Call::Virtual | Call::Interface => self.is_any_receiver_uncallable(of, owner, method),
            Call::Special => !self.is_callable(self.select_special(class, entry)),
            Call::Static => !self.is_callable(Some(method)),
        }
    }

    // Whether for some receiver what is called in place of the method is no callable method.
    fn is_any_receiver_uncallable(
        &self,
        of: &ExactType,
        owner: Option<u32>,
        method: MethodId,
    ) -> bool
        requires owner { owner ≡ class_number self.now of.now }
        requires method { method.0 < length (methods_in self.now.classes) }
        ensures { result ≡ list_any (λ found. not (is_callable self.now found)) (called_on self.now of.now method.0) }
    {
        if self.is_any_class_uncallable(owner, method) {
            return true;
        }
        if !self.has_array_receiver(of) {
            return false;
        }
        !self.is_callable(self.select_on_array(method))
    }

    // Whether for some receiver that is a class what is called in place of the method is no callable method.
    fn is_any_class_uncallable(&self, owner: Option<u32>, method: MethodId) -> bool
        requires { method.0 < length (methods_in self.now.classes) }
        ensures told { result ≡ list_any (λ found. not (is_callable self.now found)) (called_below self.now owner method.0 (receivers_in self.now)) }
        ensures linked { IsLinked self.now }
    {
        let mut rest = self.receivers();
        while let [receiver, others @ ..] = rest {
            if self.receives_at(owner, *receiver) {
                if !self.is_callable(self.select(ClassId(*receiver), method)) {
                    return true;
                }
            }
            rest = others;
        }
        false
    }

    /// Whether an object of the class of that number may be the receiver of a method that is sought in the other class: a look
    /// into a table, by numbers alone.
    pub(crate) fn receives_at(&self, owner: Option<u32>, low: u32) -> bool
        ensures { result ≡ receives_at self.now owner low }
    {
        match owner {
            Some(high) => self.linked().is_above(ClassId(low), ClassId(high)),
            None => false,
        }
    }

    /// The method that is called in place of another one where the receiver is an array: an array selects as java/lang/Object
    /// does.
    pub(crate) fn select_on_array(&self, method: MethodId) -> Option<MethodId>
        requires { method.0 < length (methods_in self.now.classes) }
        ensures { option_map (λ (id : MethodId). id.0) result ≡ selected_on_array self.now method.0 }
    {
        let class = self.object_class()?;
        self.select(class, method)
    }

    // The number of java/lang/Object.
    fn object_class(&self) -> Option<ClassId>
        ensures number { option_map (λ (id : ClassId). id.0) result ≡ number_in self.now.classes object_name }
        ensures inside { IfSome result (λ id. id.0 < length self.now.classes) }
    {
        self.linked().class_of_text(OBJECT)
    }

    /// The method that is called in place of another one where the receiver is of the exact type.
    pub(crate) fn select_on(&self, method: MethodId, receiver: &ExactType) -> Option<MethodId>
        requires { method.0 < length (methods_in self.now.classes) }
        ensures { option_map (λ (id : MethodId). id.0) result ≡ selected_on self.now method.0 receiver.now }
    {
        let class = self.class_sought(receiver)?;
        self.select(class, method)
    }

    // The class in which the members of a type are sought: those of an array in java/lang/Object.
    fn class_sought(&self, of: &ExactType) -> Option<ClassId>
        ensures number { option_map (λ (id : ClassId). id.0) result ≡ class_of self.now of.now }
        ensures inside { IfSome result (λ id. id.0 < length self.now.classes) }
    {
        match of {
            ExactType::Class(name) => self.linked().class_of_text(name.as_slice()),
            ExactType::Array(_) => self.object_class(),
        }
    }

    // Whether it is a method that has code, or is one of a platform class.
    fn is_callable(&self, found: Option<MethodId>) -> bool
        requires { IfSome found (λ id. id.0 < length (methods_in self.now.classes)) }
        ensures { result ≡ is_callable self.now (option_map (λ (id : MethodId). id.0) found) }
    {
        match found {
            Some(method) => self.is_callable_method(self.method_of(method)),
            None => false,
        }
    }

    // Whether the method has code, or is one of a platform class.
    fn is_callable_method(&self, method: &MethodInfo) -> bool
        requires { method.now.class.0 < length self.now.classes }
        ensures { result ≡ is_callable_method self.now method.now }
    {
        if method.code.is_some() {
            return true;
        }
        self.file_of(method.class).is_none()
    }
}
