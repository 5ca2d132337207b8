//! The path of a state.
ghost use Rattle.std.specs.Prelude.{◌≡◌, IfOk, IfErr};
ghost use Rattle.kb_classes.specs.World.{World};
ghost use Rattle.kb_terms.specs.Terms.{AreTerms};
ghost use Rattle.kb_picture.specs.WellFormed.{IsWellFormed};
ghost use Rattle.kb_frames.specs.States.{IsState, IsLeafIn};
ghost use Rattle.kb_frames.specs.Paths.{path_roots, path_of};

use crate::state::SymState;
use kb_numbered::{PathStop, numbered_path};
use kb_picture::{Leaf, Path};

impl SymState {
    /// The path with the state's picture and conditions, and with these decisions and this leaf. In the leaf that is handed in,
    /// the terms have their numbers in the state's pool; the path numbers those that its conditions and its leaf meet. It takes
    /// time in proportion to what it gives. Refused only where memory runs out, and then the leaf is handed back.
    #[tactic(auto, unfolding(crate::specs::Paths::path_of))]
    pub fn path(&self, decisions: &[u32], leaf: Leaf) -> Result<Path, PathStop>
        requires terms { AreTerms self.now.nodes (path_roots self.now leaf) }
        ensures path { IfOk result (λ p. p ≡ path_of self.now decisions.now leaf) }
        ensures formed { IfOk result (λ p. (world : World) → IsState world self.now → IsLeafIn world self.now leaf → IsWellFormed world self.now.method p) }
        ensures back { IfErr result (λ stop. stop.leaf ≡ leaf) }
    {
        let when = self.when.as_slice();
        numbered_path(
            self.alloc,
            self.picture.get(),
            &self.pool,
            when,
            decisions,
            leaf,
        )
    }
}
