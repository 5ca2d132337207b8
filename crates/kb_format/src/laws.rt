//! What the rules and the first fault are to one another.

ghost use Rattle.std.specs.Prelude.{◌≡◌, ◌↔◌, Option};
ghost use Rattle.std.specs.List.{AllByRecursion};
ghost use Rattle.kb_classfile.specs.declared.file.ClassFile.{ClassFile};
ghost use Rattle.kb_format.specs.declared.fault.FormatFault.{FormatFault};
ghost use Rattle.kb_format.specs.Rules.{HasAllowedNames, HasDescriptors};
ghost use Rattle.kb_format.specs.Places.{IsMet, name_places, type_places};
ghost use Rattle.kb_format.specs.Faults.{Tells};

/// A class file has one first fault, or none: no two answers fit it, so one that keeps the rules has no fault.
pub fn one_fault()
    ensures { (file : ClassFile) (one other : Option FormatFault) → Tells file one → Tells file other → one ≡ other }
{}

/// The names, or the descriptors, are as the rules ask exactly where each of their places is met.
pub fn places_are_met()
    ensures names { (file : ClassFile) → HasAllowedNames file ↔ AllByRecursion (IsMet file.pool) (name_places file) }
    ensures descriptors { (file : ClassFile) → HasDescriptors file ↔ AllByRecursion (IsMet file.pool) (type_places file) }
{}
