//! What the paths of states say of inputs. The functions do nothing: they carry the laws.
ghost use Rattle.std.specs.Prelude.{ℕ, List};
ghost use Rattle.kb_classes.specs.World.{World};
ghost use Rattle.kb_picture.specs.declared.path.Leaf.{Leaf};
ghost use Rattle.kb_frames.specs.State.{State};
ghost use Rattle.kb_frames.specs.States.{IsState, IsLeafIn};
ghost use Rattle.kb_frames_laws.specs.Endings.{EndingsMean};
ghost use Rattle.kb_frames_laws.specs.Meant.{PathMeans};

/// The path of a state says of inputs what the state says: it has the state's instances, also with the first so many conditions
/// alone, what is asked about it is what the state asks, and its conditions make the comparisons that the state's make.
pub fn paths_mean_their_states()
    ensures { (world : World) (state : State) (decisions : List ℕ) (leaf : Leaf) → IsState world state → IsLeafIn world state leaf → PathMeans world state decisions leaf }
{}

/// The path of a state that has ended states that ending, and the heap that the run leaves: for each heap for which the state
/// stands, all objects of the input with what the run wrote into them, the literals, and the objects that the run made. It is a
/// leaf that a path of the state may have. Of a state with a location that is known to be beyond a bound nothing is said: its
/// path is cut.
pub fn endings_mean_their_states()
    ensures { EndingsMean }
{}
