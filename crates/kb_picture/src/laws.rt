//! What holds of the places, the shapes and the instances of every picture and path. The functions do nothing: they carry the
//! laws.
ghost use Rattle.kb_picture.specs.Examples.{ExamplesAreFormed};
ghost use Rattle.kb_picture.specs.Laws.{PlacesStay, OnePlaces, FrontsHaveInstances, DepthsAreChains, FinalHeapsAreWhole};

/// A picture that grows keeps the places that it had. Each object and location that is new has the place to which its own
/// origin leads, and which objects the locations are changes no place.
pub fn places_stay()
    ensures { PlacesStay }
{}

/// An input has a picture's shape at one pair of lists of places, so that a path states one ending and one heap of it.
pub fn one_places()
    ensures { OnePlaces }
{}

/// An instance of a path is one of the path with any front of its conditions, so that it is among its short instances for every
/// number of conditions.
pub fn fronts_have_instances()
    ensures { FrontsHaveInstances }
{}

/// In an input that has a picture's shape, an object of depth d is the end of a chain of d different objects, the first held by
/// an argument and each next by the one before. So an input is past the bounds that a picture states.
pub fn depths_are_chains()
    ensures { DepthsAreChains }
{}

/// The heap that an ended path states of an instance begins with objects of the exact types and lengths of the input's, and
/// goes on with the literals and the objects that the run made; every reference in it and in the ending is to one of its
/// objects.
pub fn final_heaps_are_whole()
    ensures { FinalHeapsAreWhole }
{}

/// The paths that stand in `specs/Examples.antt` are well-formed: on them locations are objects of the picture, open and beyond,
/// and on one a slot stands before the one in which its object was found.
pub fn examples_are_formed()
    ensures { ExamplesAreFormed }
{}
