//! What has a text, of worlds and of runs. The functions do nothing: they carry the laws.
ghost use Rattle.kb_test_laws.specs.Laws.{RunsHaveNames, WorldsHaveNames};

/// In a world of class files that are spelled by bytes, each type that an object of an input may have has a text, and so has
/// each type that a Class entry names and each method.
pub fn worlds_have_names()
    ensures { WorldsHaveNames }
{}

/// In such a world, for a method that may be run and a type-correct input of it, each object that the run leaves is of a type
/// that has a text, and an ending that names a method names one that has a text. No run ends past a bound on inputs.
pub fn runs_have_names()
    ensures { RunsHaveNames }
{}
