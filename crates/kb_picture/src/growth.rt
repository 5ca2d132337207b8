//! What holds of each picture that grows. The functions do nothing: they carry the laws.
ghost use Rattle.kb_picture.specs.Accesses.{PicturesBind};
ghost use Rattle.kb_picture.specs.Growing.{PicturesGrow, PicturesGrowByInts};

/// A picture that grows by what is chosen where a reference is read for the first time stays well-formed and keeps its types.
/// Whoever has its shape had the one before, and earlier objects and locations have the places that they had. A new object is
/// none of the earlier ones.
pub fn pictures_grow()
    ensures { PicturesGrow }
{}

/// The same of a picture that grows by the first read of an int or a boolean.
pub fn pictures_grow_by_ints()
    ensures { PicturesGrowByInts }
{}

/// A picture in which it was chosen which object a location is stays well-formed and keeps its types. Whoever has its shape had
/// the one before, and every earlier object and every location has the place that it had: that of the location is the place of
/// the object that it is. A new object is none of the earlier ones.
pub fn pictures_bind()
    ensures { PicturesBind }
{}
