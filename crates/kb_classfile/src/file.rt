//! A class file that was read.

use kb_rows::Row;

/// An entry of the constant pool (JVMS 8 section 4.4). Numbers in it are numbers of other entries.
#[derive(Debug, Drop)]
pub enum PoolEntry {
    /// The bytes of a text.
    Utf8(Row<u8>),
    Integer(i32),
    /// A Long or Double, which takes two numbers.
    Wide,
    /// The second number of a Long or Double.
    Second,
    /// A class or array type, by its name.
    Class(u16),
    /// A string constant, by its text.
    Str(u16),
    /// A field, by its class and its name and type.
    Field(u16, u16),
    /// A method of a class, by its class and its name and type.
    Method(u16, u16),
    /// A method of an interface, by its interface and its name and type.
    InterfaceMethod(u16, u16),
    /// A name and a descriptor.
    NameType(u16, u16),
    /// An entry whose content is not looked at, and the number 0, which is no entry.
    Skipped,
}

/// A row of a handler table (JVMS 8 section 4.7.3): offsets into the code, and the entry of the class
/// that is caught, or 0 for any.
#[derive(Clone, Copy, PartialEq, Eq)]
pub struct Handler {
    pub start: u16,
    pub end: u16,
    pub target: u16,
    pub catch: u16,
}

/// The Code attribute of a method (JVMS 8 section 4.7.3).
#[derive(Drop)]
pub struct Code {
    pub max_stack: u16,
    pub max_locals: u16,
    pub bytes: Row<u8>,
    pub handlers: Row<Handler>,
}

/// A field: its access flags, and the entries of its name and descriptor (JVMS 8 section 4.5).
#[derive(Clone, Copy, PartialEq, Eq)]
pub struct Field {
    pub access: u16,
    pub name: u16,
    pub kind: u16,
}

/// The access flag of a static method or field, ACC_STATIC (JVMS 8 tables 4.5-A and 4.6-A).
pub const STATIC: u16 = 0x0008;

/// A method: its access flags, the entries of its name and descriptor, and its code, where it has some
/// (JVMS 8 section 4.6).
#[derive(Drop)]
pub struct Method {
    pub access: u16,
    pub name: u16,
    pub kind: u16,
    pub code: Option<Code>,
}

/// A class file (JVMS 8 section 4.1), without its minor version and the attributes that are skipped.
///
/// `pool` has the entry of each number, and Skipped at 0. `this` and `parent` are the numbers of the
/// entries of the class and its superclass.
#[derive(Drop)]
pub struct ClassFile {
    pub major: u16,
    pub pool: Row<PoolEntry>,
    pub access: u16,
    pub this: u16,
    pub parent: u16,
    pub interfaces: Row<u16>,
    pub fields: Row<Field>,
    pub methods: Row<Method>,
}

impl ClassFile {
    ghost use Rattle.std.specs.Prelude.{◌≡◌};
    ghost use Rattle.std.specs.Option.{option_copied};
    ghost use Rattle.kb_classfile.specs.Pool.{utf8_of, class_name_of};

    /// The bytes of the Utf8 entry with this number, if there is one.
    pub fn utf8(&self, index: u16) -> Option<&[u8]>
        ensures { option_copied result ≡ utf8_of self.now index }
    {
        crate::pool::utf8_in(self.pool.as_slice(), index)
    }

    /// The bytes of the name of the Class entry with this number, if there is one (JVMS 8 section 4.4.1).
    pub fn class_name(&self, index: u16) -> Option<&[u8]>
        ensures { option_copied result ≡ class_name_of self.now index }
    {
        crate::pool::class_name_in(self.pool.as_slice(), index)
    }
}
