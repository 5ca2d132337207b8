//! What holds of the inputs of pictures. The functions do nothing: they carry the laws.
ghost use Rattle.kb_input.specs.Laws.{InputsAreOfPictures, InputsAreInstances};

/// The input of a picture that keeps its types is type-correct, has the picture's shape, and has the given values in its
/// variables.
pub fn inputs_are_of_pictures()
    ensures { InputsAreOfPictures }
{}

/// The input of a path's picture is an instance of the path, where the values make its conditions true.
pub fn inputs_are_instances()
    ensures { InputsAreInstances }
{}
