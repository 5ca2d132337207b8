//! What holds of every target.

ghost use Rattle.std.specs.Prelude.{◌≡◌, ℕ, List};
ghost use Rattle.kb_names.specs.declared.types.Target.{Target};
ghost use Rattle.kb_class.specs.declared.ids.MethodId.{MethodId};
ghost use Rattle.kb_classes.specs.declared.refusal.LinkRefusal.{LinkRefusal};
ghost use Rattle.kb_classes.specs.declared.refusal.LinkRefusal.TheVariants as refusals;
ghost use Rattle.kb_classes.specs.World.{World as PlainWorld};
ghost use Rattle.kb_link.specs.Links.{IsLinked};
ghost use Rattle.kb_link.specs.Targets.{IsTargetOf};
ghost use Rattle.kb_world.specs.Reach.{IsReached, IsAccepted, Refuses};

/// What a method reaches is one list.
pub fn one_reached()
    ensures { (world : PlainWorld) (target : ℕ) (one other : List ℕ) → IsReached world target one → IsReached world target other → one ≡ other }
{}

/// A target has one answer but that memory ran out: one refusal, or a method that is accepted.
pub fn one_answer()
    ensures refusal { (world : PlainWorld) → IsLinked world → (target : Target) (one other : LinkRefusal) → Refuses world target one → Refuses world target other → (one ≡ refusals.NoMemory → ⊥) → (other ≡ refusals.NoMemory → ⊥) → one ≡ other }
    ensures accepted { (world : PlainWorld) → IsLinked world → (target : Target) (refusal : LinkRefusal) (id : MethodId) → Refuses world target refusal → (refusal ≡ refusals.NoMemory → ⊥) → IsTargetOf world target id → IsAccepted world id → ⊥ }
{}
