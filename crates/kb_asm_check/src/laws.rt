//! What holds of the answers of `read_text`.

ghost use Rattle.std.specs.Prelude.{◌≡◌, ℕ, List};
ghost use Rattle.kb_asm_text.specs.declared.line.Line.{Line};
ghost use Rattle.kb_asm_check.specs.Faults.{IsText, IsFirstUnfit};

/// A text is that of the lines of one class, or one line is its first that does not fit, and not both.
pub fn one_answer()
    ensures lines { (one other : List Line) (text : List ℕ) → IsText one text → IsText other text → one ≡ other }
    ensures number { (text : List ℕ) (one other : ℕ) → IsFirstUnfit text one → IsFirstUnfit text other → one ≡ other }
    ensures apart { (of : List Line) (text : List ℕ) (number : ℕ) → IsText of text → IsFirstUnfit text number → ⊥ }
{}
