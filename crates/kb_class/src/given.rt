//! What a class is made of.
use kb_classfile::ClassFile;
use kb_code::Listing;
use kb_names::Row;

/// A class file with the listing of each method's code, in file order: None where a method has no code.
#[derive(Drop)]
pub struct GivenClass {
    pub file: ClassFile,
    pub listings: Row<Option<Listing>>,
}
