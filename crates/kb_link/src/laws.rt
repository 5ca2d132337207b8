//! What holds of every world of class files.

ghost use Rattle.std.specs.Prelude.{◌≡◌, List};
ghost use Rattle.kb_class.specs.declared.given.GivenClass.{GivenClass};
ghost use Rattle.kb_link.specs.Links.{Links, RefusesLink};
ghost use Rattle.kb_classes.specs.World.{World};
ghost use Rattle.kb_classes.specs.declared.refusal.LinkRefusal.{LinkRefusal};
ghost use Rattle.kb_classes.specs.declared.refusal.LinkRefusal.TheVariants as refusals;

/// Class files have one world.
pub fn one_world()
    ensures { (given : List GivenClass) (one other : World) → Links given one → Links given other → one ≡ other }
{}

/// Class files that are not linked have one reason, but that memory ran out.
pub fn one_reason()
    ensures { (given : List GivenClass) (one other : LinkRefusal) → RefusesLink given one → RefusesLink given other → (one ≡ refusals.NoMemory → ⊥) → (other ≡ refusals.NoMemory → ⊥) → one ≡ other }
{}

/// Class files that have a world have no reason against it but that memory ran out.
pub fn linked_or_refused()
    ensures { (given : List GivenClass) (world : World) (refusal : LinkRefusal) → Links given world → RefusesLink given refusal → refusal ≡ refusals.NoMemory }
{}
