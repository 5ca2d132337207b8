//! That steps lead on, and what follows from a list of paths that covers a method. The functions do nothing: they carry the laws.
ghost use Rattle.std.specs.Prelude.{◌≡◌, ℕ, true, false, List};
ghost use Rattle.kb_class.specs.Naming.{Has};
ghost use Rattle.kb_class.specs.declared.ids.MethodId.{MethodId};
ghost use Rattle.kb_heap.specs.declared.bounds.Bounds.{Bounds};
ghost use Rattle.kb_heap.specs.declared.ending.Ending.TheVariants.{Threw};
ghost use Rattle.kb_heap.specs.declared.heap.Input.{Input};
ghost use Rattle.kb_link.specs.Links.{IsLinked};
ghost use Rattle.kb_classes.specs.World.{World};
ghost use Rattle.kb_terms.specs.Terms.{IsPool};
ghost use Rattle.kb_semantics.specs.Inputs.{IsTypeCorrect};
ghost use Rattle.kb_semantics.specs.Step.{run_of};
ghost use Rattle.kb_picture.specs.declared.choice.Choice.{Choice};
ghost use Rattle.kb_picture.specs.declared.choice.Init.TheVariants.{Lazy};
ghost use Rattle.kb_picture.specs.declared.path.Path.{Path};
ghost use Rattle.kb_frames.specs.Cuts.{setting_of};
ghost use Rattle.kb_frames.specs.Next.{next_is_int};
ghost use Rattle.kb_frames.specs.State.{State, start_state};
ghost use Rattle.kb_lazy.specs.Laws.{AreInRange};
ghost use Rattle.kb_stepint.specs.Laws.{OfTakes as IntTakes};
ghost use Rattle.kb_stepint.specs.Takes.{taken as int_taken};
ghost use Rattle.kb_stepref.specs.Choices.{choices_of as reference_choices};
ghost use Rattle.kb_stepref.specs.Laws.{IsAtReferences, OfTakes as ReferenceTakes};
ghost use Rattle.kb_stepref.specs.Takes.{taken as reference_taken};
ghost use Rattle.kb_drive.specs.HeapMethods.{is_heap_method};
ghost use Rattle.kb_drive.specs.Reached.{GoesOnReached, IsHeapReached};
ghost use Rattle.kb_drive.specs.Steps.{EndsIn};
ghost use Rattle.kb_drive.specs.Covers.{Covers};
ghost use Rattle.kb_drive.specs.Within.{AreDecided, EndsOnPath, IsWithin, NoneThrows};

/// A method over heaps begins with a state from which steps lead on (`begins`), and its int steps leave such states (`ints`). So
/// do its steps on references, where the state is not cut (`references`); of each such state whose next step is none of ints the
/// laws of these steps speak (`at`).
pub fn heap_methods_stay()
    ensures begins { (world : World) (method : MethodId) → IsLinked world → is_heap_method world method ≡ true → IsHeapReached world (start_state Lazy method) }
    ensures ints { (world : World) (bounds : Bounds) (state : State) (choice : Choice) → IsHeapReached world state → next_is_int world state ≡ true → IsPool (int_taken world bounds state choice).state.nodes → IsHeapReached world (int_taken world bounds state choice).state }
    ensures references { (world : World) (bounds : Bounds) (state : State) (choice : Choice) → AreInRange bounds → IsHeapReached world state → next_is_int world state ≡ false → Has (reference_choices world state bounds) choice → IsPool (reference_taken world bounds state choice).state.nodes → GoesOnReached world (reference_taken world bounds state choice).state (reference_taken world bounds state choice).outcome }
    ensures at { (world : World) (state : State) → IsHeapReached world state → next_is_int world state ≡ false → IsAtReferences world state }
{}

/// Where a step ends a run, the ending states what is there in the state, and what is thrown is an object: so it is of steps of ints
/// (`ints`) and on references (`references`), whatever instruction comes next.
pub fn endings_state_what_is_there()
    ensures ints { IntTakes (λ world bounds state take. EndsIn world take.state take.outcome) }
    ensures references { ReferenceTakes (λ world bounds state take. EndsIn world take.state take.outcome) }
{}

/// Where no listed path is undecided or open, each type-correct input that passes none of the bounds lies on an ended path,
/// which states the ending and the heap of its run.
pub fn inputs_within_the_bounds_end()
    ensures { (world : World) (target : MethodId) (bounds : Bounds) (paths budget : ℕ) (listed : List Path) (input : Input) → Covers world target bounds paths budget listed → AreDecided listed → IsTypeCorrect world target input → IsWithin world target bounds input → EndsOnPath world target bounds listed input }
{}

/// Where besides no listed path throws, the run of no such input ends by an exception.
pub fn none_throws_within_the_bounds()
    ensures { (world : World) (target : MethodId) (bounds : Bounds) (paths budget : ℕ) (listed : List Path) (input : Input) → Covers world target bounds paths budget listed → AreDecided listed → NoneThrows listed → IsTypeCorrect world target input → IsWithin world target bounds input → (object : ℕ) → (run_of (setting_of world bounds) target input).ending ≡ Threw object → ⊥ }
{}
