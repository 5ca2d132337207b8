//! What the words have in common.
ghost use Rattle.std.specs.Prelude.{◌≡◌, ℕ, List};
ghost use Rattle.kb_heap.specs.declared.heap.Value.{Value};
ghost use Rattle.kb_terms.specs.declared.listing.Term.{Term};
ghost use Rattle.kb_picture.specs.declared.path.Out.{Out};
ghost use Rattle.kb_picture.specs.declared.picture.Seen.{Seen};
ghost use Rattle.kb_picture.specs.declared.picture.Standing.{Standing};
ghost use Rattle.kb_path_words.specs.Spelled.{SpellsSeen, SpellsStanding, SpellsTerm, SpellsOut, SpellsValue, SpellsDecisions};

/// A text is that of one word alone: of what a slot is seen as, what a location stands for, terms, values that are stated, values
/// of inputs, and decisions. The function does nothing: it carries the law.
pub fn each_word_is_of_one()
    ensures seen { (one other : Seen) (text : List ℕ) → SpellsSeen one text → SpellsSeen other text → one ≡ other }
    ensures standing { (one other : Standing) (text : List ℕ) → SpellsStanding one text → SpellsStanding other text → one ≡ other }
    ensures term { (one other : Term) (text : List ℕ) → SpellsTerm one text → SpellsTerm other text → one ≡ other }
    ensures out { (one other : Out) (text : List ℕ) → SpellsOut one text → SpellsOut other text → one ≡ other }
    ensures value { (one other : Value) (text : List ℕ) → SpellsValue one text → SpellsValue other text → one ≡ other }
    ensures decisions { (one other : List ℕ) (text : List ℕ) → SpellsDecisions one text → SpellsDecisions other text → one ≡ other }
{}
