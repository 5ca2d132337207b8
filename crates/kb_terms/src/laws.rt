//! What a cut leaves of a pool. The function does nothing: it carries the law.
ghost use Rattle.std.specs.Prelude.{ℕ, ◌≤◌, List, length};
ghost use Rattle.kb_terms.specs.declared.node.Node.{Node};
ghost use Rattle.kb_terms.specs.Terms.{IsPool};
ghost use Rattle.kb_terms.specs.Cuts.{LeavesTerms};

/// Each term that a cut leaves has its number and its value, equal terms are one term still, and terms that were cut can be made
/// again.
pub fn a_cut_leaves_terms()
    ensures { (nodes : List Node) (terms : ℕ) → IsPool nodes → terms ≤ length nodes → LeavesTerms nodes terms }
{}
