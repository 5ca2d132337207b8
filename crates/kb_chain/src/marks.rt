//! Tables that mark literals by their places.

ghost use Rattle.std.specs.Prelude.{◌≡◌, slice_index_or, false, not, ◌&&◌};
ghost use Rattle.kb_chain.specs.Literal.{Literal, has};
ghost use Rattle.kb_chain.specs.Working.{marked};

use crate::literal::Lit;

pub(crate) fn is_marked(marks: &[bool], place: usize) -> bool
    ensures { result ≡ slice_index_or marks.now place false }
{
    marks.get(place).copied().unwrap_or(false)
}

/// Takes the marks from these literals.
pub(crate) fn unmark(marks: &mut [bool], literals: &[Lit])
    ensures { (l : Literal) → marked marks.new l ≡ (marked marks.old l && not (has literals.now l)) }
{
    for literal in literals {
        let place = literal.place();
        if place < marks.len() {
            marks[place] = false;
        }
    }
}
