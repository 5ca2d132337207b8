//! What holds of every class that is given.

ghost use Rattle.std.specs.Prelude.{◌≡◌, ℕ, IfSome};
ghost use Rattle.std.specs.List.{AllByRecursion};
ghost use Rattle.kb_class.specs.declared.given.GivenClass.{GivenClass};
ghost use Rattle.kb_class.specs.Class.{Class};
ghost use Rattle.kb_class.specs.Given.{IsGiven};
ghost use Rattle.kb_class.specs.Loading.{IsClassOf, IsWhole};

/// A given class is one class: two that it could be are equal.
pub fn one_class_of()
    ensures { (id : ℕ) (given : GivenClass) (one other : Class) → IsClassOf id given one → IsClassOf id given other → one ≡ other }
{}

/// Code of a given class has 1 to 65,535 bytes, and its listing is laid out over them.
pub fn code_is_whole()
    ensures { (id : ℕ) (given : GivenClass) (class : Class) → IsGiven given → IsClassOf id given class → AllByRecursion (λ method. IfSome method.code IsWhole) class.methods }
{}
