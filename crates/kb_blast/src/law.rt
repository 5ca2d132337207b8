//! What the conditions' formula says, of any listed conditions.
ghost use Rattle.kb_blast.specs.Query.{Query};
ghost use Rattle.kb_blast.specs.Conditions.{formula_of, words_of};
ghost use Rattle.kb_blast.specs.Meaning.{SaysExactly, Meets, IsQuery};

/// The assignments that satisfy the formula of listed conditions, read back, are exactly the inputs that meet them. The
/// function does nothing: it carries the law.
pub fn formula_says_conditions()
    ensures { (q : Query) → IsQuery q → SaysExactly (words_of q) (formula_of q) (Meets q) }
{}
