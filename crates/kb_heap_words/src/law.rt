//! What the words have in common.
ghost use Rattle.std.specs.Prelude.{◌≡◌, ◌<◌, ◌^◌};
ghost use Rattle.kb_heap.specs.declared.bounds.Bound.{Bound};
ghost use Rattle.kb_heap.specs.declared.ending.Place.{Place};
ghost use Rattle.kb_names.specs.declared.types.ExactType.{ExactType};
ghost use Rattle.kb_heap_words.specs.Words.{exact_text, place_text, bound_name};

/// A word is that of one type, place or bound alone. The function does nothing: it carries the law.
pub fn each_has_its_word()
    ensures types { (one other : ExactType) → exact_text one ≡ exact_text other → one ≡ other }
    ensures places { (one other : Place) → one.at < 2 ^ 32 → other.at < 2 ^ 32 → place_text one ≡ place_text other → one ≡ other }
    ensures bounds { (one other : Bound) → bound_name one ≡ bound_name other → one ≡ other }
{}
