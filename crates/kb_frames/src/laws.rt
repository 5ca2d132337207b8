//! Laws of states. Each function does nothing: it carries its law.
ghost use Rattle.std.specs.Prelude.{◌≡◌, ℕ, List, Some};
ghost use Rattle.kb_class.specs.declared.ids.MethodId.{MethodId};
ghost use Rattle.kb_class.specs.declared.members.MethodInfo.{MethodInfo};
ghost use Rattle.kb_classes.specs.World.{World};
ghost use Rattle.kb_semantics.specs.Config.{info_of};
ghost use Rattle.kb_terms.specs.Terms.{AreTerms};
ghost use Rattle.kb_picture.specs.declared.choice.Init.{Init};
ghost use Rattle.kb_picture.specs.declared.path.Leaf.{Leaf};
ghost use Rattle.kb_picture.specs.WellFormed.{IsWellFormed};
ghost use Rattle.kb_frames.specs.Bindings.{StatesBind, ValuesResolve};
ghost use Rattle.kb_frames.specs.Paths.{path_roots, path_of};
ghost use Rattle.kb_frames.specs.State.{State, start_state};
ghost use Rattle.kb_frames.specs.States.{IsState, IsLeafIn};

/// The state before the arguments are read is one of those to which `start` and later calls lead.
pub fn states_begin()
    ensures { (world : World) (init : Init) (method : MethodId) (info : MethodInfo) → info_of world method ≡ Some info → IsState world (start_state init method) }
{}

/// The path of a state to which `start` and later calls lead is well-formed, whatever its decisions, with each leaf that a path
/// of the state may have. What its conditions and its leaf state are terms of the state's pool.
pub fn paths_are_well_formed()
    ensures terms { (world : World) (state : State) (leaf : Leaf) → IsState world state → IsLeafIn world state leaf → AreTerms state.nodes (path_roots state leaf) }
    ensures formed { (world : World) (state : State) (decisions : List ℕ) (leaf : Leaf) → IsState world state → IsLeafIn world state leaf → IsWellFormed world state.method (path_of state decisions leaf) }
{}

/// A value that is looked up names what is there, and has at each instance the value that it had; where it is a location still,
/// that is bound to no object.
pub fn values_resolve()
    ensures { ValuesResolve }
{}

/// A state whose location is bound by a choice is one of those to which calls lead. Where it stood for a configuration of an
/// input's run, it stands for the same one exactly where the input takes the choice.
pub fn states_bind()
    ensures { StatesBind }
{}
