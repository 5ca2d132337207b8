//! What holds of the alternatives. The functions do nothing: they carry the laws.
ghost use Rattle.kb_lazy.specs.Laws.{TakesExactlyOne, ChoicesFit, TakesOneObject, ObjectsFit};

/// Each input of a method that has the shape of a picture takes exactly one of the alternatives of a slot that is read for the
/// first time.
pub fn takes_exactly_one()
    ensures { TakesExactlyOne }
{}

/// Each alternative is a choice for its slot, so that a picture that grows by it stays well-formed and keeps its types.
pub fn choices_fit()
    ensures { ChoicesFit }
{}

/// Each input of a method that has the shape of a picture takes exactly one of the alternatives of a location that is looked
/// into.
pub fn takes_one_object()
    ensures { TakesOneObject }
{}

/// Each of these is a choice for its location, so that the picture stays well-formed and keeps its types.
pub fn objects_fit()
    ensures { ObjectsFit }
{}
