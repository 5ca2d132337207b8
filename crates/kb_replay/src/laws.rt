//! What holds of every list of tests.
ghost use Rattle.std.specs.Prelude.{◌≡◌, List, length};
ghost use Rattle.kb_class.specs.declared.ids.MethodId.{MethodId};
ghost use Rattle.kb_link.specs.Links.{IsLinked};
ghost use Rattle.kb_classes.specs.World.{World};
ghost use Rattle.kb_test.specs.declared.test_case.Test.{Test};
ghost use Rattle.kb_replay.specs.declared.checks.BadTest.{BadTest};
ghost use Rattle.kb_replay.specs.declared.checks.ReplayStop.TheVariants.{NoMemory};
ghost use Rattle.kb_replay.specs.declared.replays.Replayed.{Replayed};
ghost use Rattle.kb_semantics.specs.Config.{Setting};
ghost use Rattle.kb_semantics.specs.Step.{run_of};
ghost use Rattle.kb_heap.specs.declared.heap.Input.{Input};
ghost use Rattle.kb_replay.specs.Ends.{IsRunEnding, KeepsInput};
ghost use Rattle.kb_replay.specs.Replays.{AreReplayed, AreRunnable, StopsAt};

/// Tests have one answer in a linked world, but that memory may run out: one of them is the first that is stopped, or each has a
/// method; and of runs there is one that is told.
pub fn tests_have_one_answer()
    ensures stop { (world : World) → IsLinked world → (tests : List Test) (one other : BadTest) → StopsAt world tests one → StopsAt world tests other → (one.stop ≡ NoMemory → ⊥) → (other.stop ≡ NoMemory → ⊥) → one ≡ other }
    ensures apart { (world : World) → IsLinked world → (tests : List Test) (bad : BadTest) (ids : List MethodId) → StopsAt world tests bad → (bad.stop ≡ NoMemory → ⊥) → AreRunnable world tests ids → ⊥ }
    ensures methods { (world : World) → IsLinked world → (tests : List Test) (ids others : List MethodId) → AreRunnable world tests ids → AreRunnable world tests others → ids ≡ others }
    ensures replayed { (world : World) → IsLinked world → (tests : List Test) (one other : List Replayed) → AreReplayed world tests one → AreReplayed world tests other → one ≡ other }
{}

/// No run ends past a bound of explorations, and each leaves a heap that begins with its input's objects and the literals.
pub fn runs_end_as_tests()
    ensures ending { (setting : Setting) (id : MethodId) (input : Input) → IsRunEnding (run_of setting id input).ending }
    ensures heap { (setting : Setting) (id : MethodId) (input : Input) → KeepsInput (length setting.world.literals) input.heap.objects (run_of setting id input).heap }
{}
