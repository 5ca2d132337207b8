//! A class loaded: given as a file, or of the platform.

ghost use Rattle.std.specs.Prelude.{◌≡◌, ◌↔◌, ◌<◌, ℕ, List, Some, IfOk, length, slice_get, option_map, option_and_then};
ghost use Rattle.std.specs.Option.{option_copied};
ghost use Rattle.kb_classfile.specs.declared.file.ClassFile.{ClassFile};
ghost use Rattle.kb_classfile.specs.Pool.{utf8_of};
ghost use Rattle.kb_names.specs.declared.types.ExactType.{ExactType};
ghost use Rattle.kb_format.specs.Rules.{KeepsRules};
ghost use Rattle.kb_class.specs.declared.members.MemberKind.{MemberKind};
ghost use Rattle.kb_class.specs.Given.{IsGiven, given_of};
ghost use Rattle.kb_class.specs.Loading.{IsClassOf};
ghost use Rattle.kb_class.specs.Class.{TextEntry, TypeEntry, type_of_entry, text_of_entry, int_of_entry, reference_of_entry};
ghost use Rattle.kb_class.specs.References.{sought_of};
ghost use Rattle.kb_class.specs.Naming.{Has, HasKind};
ghost use Rattle.kb_class.specs.Platform.{PlatformClass, platform_table, IsPlatform};

use crate::entries::{Reference, int_entry, reference_entry, text_entry, type_entry};
use crate::given::GivenClass;
use crate::ids::ClassId;
use crate::loading::{literals_of, members_of, named_of};
use crate::members::{FieldInfo, MemberKind, MethodInfo};
use crate::platform::{kind_at, kinds_of_methods, name_at};
use kb_classfile::ClassFile;
use kb_code::Listing;
use kb_names::{ExactType, Name, NoMemory, Row};
use kb_rows::Held;
use std::alloc::Global;
use std::marker::Model;

/// How many platform classes there are.
pub const PLATFORM_CLASSES: usize = 20;

// Where a class comes from.
#[derive(Drop)]
pub(crate) enum Origin {
    File(Held<ClassFile>),
    // The platform, with the names of its interfaces.
    Platform(Row<Name>),
}

/// A class loaded. Contracts see it as the class that it is, whatever it keeps.
#[derive(Drop)]
pub struct LoadedClass {
    name: Name,
    access: u16,
    parent: Option<Name>,
    fields: Row<FieldInfo>,
    methods: Row<MethodInfo>,
    origin: Origin,
    // By the number of a Utf8 entry, the type that a Class entry names by it.
    types: Row<Option<ExactType>>,
    // By the number of a Utf8 entry, the type of a field or method that it describes.
    kinds: Row<Option<MemberKind>>,
}

impl Model for LoadedClass {
    ghost use Rattle.kb_class.specs.Class.{Class};
    ghost use Rattle.kb_class.specs.Loaded.{interfaces_of, entries_of, file_of, HasInterfaces, IsIndexed};

    ghost Value = { Class };

    ghost view = { λ c. record {
      name = c.name;
      access = c.access;
      parent = c.parent;
      interfaces = interfaces_of c.origin;
      fields = c.fields;
      methods = c.methods;
      entries = entries_of c.origin c.types c.kinds;
      file = file_of c.origin;
    } };

    ghost invariant = { λ c. HasInterfaces c.origin × IsIndexed (record {
      name = c.name;
      access = c.access;
      parent = c.parent;
      interfaces = interfaces_of c.origin;
      fields = c.fields;
      methods = c.methods;
      entries = entries_of c.origin c.types c.kinds;
      file = file_of c.origin;
    }) c.types c.kinds };
}

impl LoadedClass {
    /// The class that is given, with that number. Each text of its constant pool is read at most once as a name of a type and
    /// at most once as a descriptor.
    pub fn load(alloc: Global, id: ClassId, given: GivenClass) -> Result<LoadedClass, NoMemory>
        requires given { IsGiven given }
        requires rules { KeepsRules given.file }
        ensures { IfOk result (λ class. IsClassOf id.0 given class) }
    {
        let GivenClass { file, listings } = given;
        let file = Held::new(alloc, file)?;
        LoadedClass::of_file(alloc, id, file, listings.into_vec())
    }

    fn of_file(
        alloc: Global,
        id: ClassId,
        file: Held<ClassFile>,
        listings: Vec<Option<Listing>>,
    ) -> Result<LoadedClass, NoMemory>
        requires given { IsGiven (given_of file listings.items) }
        requires rules { KeepsRules file }
        ensures { IfOk result (λ class. IsClassOf id.0 (given_of file listings.items) class) }
    {
        let named = named_of(alloc, file.get())?;
        let members = members_of(alloc, id, file.get(), named.kinds.as_slice(), listings)?;
        Ok(LoadedClass {
            name: named.name,
            access: file.get().access,
            parent: Some(named.parent),
            fields: members.fields,
            methods: members.methods,
            origin: Origin::File(file),
            types: named.types,
            kinds: named.kinds,
        })
    }

    /// The platform class at that place of the table, from 0 to below [`PLATFORM_CLASSES`], with that number.
    pub fn platform(alloc: Global, id: ClassId, place: usize) -> Result<LoadedClass, NoMemory>
        requires { place < length platform_table }
        ensures { IfOk result (λ class. (row : PlatformClass) → slice_get platform_table place ≡ Some row → IsPlatform id.0 row class) }
    {
        let kind = kind_at(place);
        let methods = kind.methods(alloc, id)?;
        let kinds = kinds_of_methods(alloc, methods.as_slice())?;
        Ok(LoadedClass {
            name: Name::from_slice(alloc, name_at(place))?,
            access: kind.access(),
            parent: kind.parent(alloc)?,
            fields: Row::new(alloc),
            methods,
            origin: Origin::Platform(kind.interfaces(alloc)?),
            types: Row::new(alloc),
            kinds,
        })
    }

    /// Its name.
    pub fn name(&self) -> &Name
        ensures { result.now ≡ self.now.name }
    {
        &self.name
    }

    /// Its access flags (JVMS 8 table 4.1-A).
    pub fn access(&self) -> u16
        ensures { result ≡ self.now.access }
    {
        self.access
    }

    /// The name of its superclass; none of java/lang/Object.
    pub fn parent(&self) -> Option<&Name>
        ensures { option_copied result ≡ self.now.parent }
    {
        self.parent.as_ref()
    }

    /// How many interfaces it names itself.
    pub fn interface_count(&self) -> usize
        ensures { result ≡ length self.now.interfaces }
    {
        match &self.origin {
            Origin::File(file) => file.get().interfaces.as_slice().len(),
            Origin::Platform(interfaces) => interfaces.as_slice().len(),
        }
    }

    /// The name of the interface at that place, from 0.
    pub fn interface(&self, place: usize) -> Option<&[u8]>
        ensures { option_copied result ≡ slice_get self.now.interfaces place }
    {
        match &self.origin {
            Origin::File(file) => {
                let file = file.get();
                file.class_name(*file.interfaces.as_slice().get(place)?)
            }
            Origin::Platform(interfaces) => Some(interfaces.as_slice().get(place)?.as_slice()),
        }
    }

    /// The fields that it declares, in file order.
    pub fn fields(&self) -> &[FieldInfo]
        ensures { result.now ≡ self.now.fields }
    {
        self.fields.as_slice()
    }

    /// The methods that it declares, in file order.
    pub fn methods(&self) -> &[MethodInfo]
        ensures { result.now ≡ self.now.methods }
    {
        self.methods.as_slice()
    }

    /// Its file; none of a platform class.
    pub fn file(&self) -> Option<&ClassFile>
        ensures { option_copied result ≡ self.now.file }
    {
        match &self.origin {
            Origin::File(file) => Some(file.get()),
            Origin::Platform(_) => None,
        }
    }

    /// The type of the Class entry with that number.
    pub fn type_entry(&self, entry: u16) -> Option<&ExactType>
        ensures { option_copied result ≡ type_of_entry (slice_get self.now.entries entry) }
    {
        match &self.origin {
            Origin::File(file) => type_entry(file.get(), self.types.as_slice(), entry),
            Origin::Platform(_) => None,
        }
    }

    /// The text of the String entry with that number.
    pub fn text_entry(&self, entry: u16) -> Option<&[u8]>
        ensures { option_copied result ≡ text_of_entry (slice_get self.now.entries entry) }
    {
        match &self.origin {
            Origin::File(file) => text_entry(file.get(), entry),
            Origin::Platform(_) => None,
        }
    }

    /// The int of the Integer entry with that number.
    pub fn int_entry(&self, entry: u16) -> Option<i32>
        ensures { result ≡ int_of_entry (slice_get self.now.entries entry) }
    {
        match &self.origin {
            Origin::File(file) => int_entry(file.get(), entry),
            Origin::Platform(_) => None,
        }
    }

    /// The field or method that the Fieldref, Methodref or InterfaceMethodref entry with that number names.
    pub fn reference_entry(&self, entry: u16) -> Option<Reference<'_>>
        ensures { option_map sought_of result ≡ reference_of_entry (slice_get self.now.entries entry) }
    {
        match &self.origin {
            Origin::File(file) => {
                reference_entry(
                    file.get(),
                    self.types.as_slice(),
                    self.kinds.as_slice(),
                    entry,
                )
            }
            Origin::Platform(_) => None,
        }
    }

    /// The types that its Class entries name, between empty places.
    pub fn named_types(&self) -> &[Option<ExactType>]
        ensures { (type : ExactType) → Has result.now (Some type) ↔ Has self.now.entries (TypeEntry type) }
    {
        self.types.as_slice()
    }

    /// What its descriptors say, those of its fields, its methods and its NameAndType entries, between empty places.
    pub fn named_kinds(&self) -> &[Option<MemberKind>]
        ensures { (kind : MemberKind) → Has result.now (Some kind) ↔ HasKind self.now kind }
    {
        self.kinds.as_slice()
    }

    /// The texts of its String entries, between empty places. The text of a Utf8 entry is copied once, however many String entries
    /// name it, and stands at the number of that entry.
    pub fn literals(&self, alloc: Global) -> Result<Row<Option<Row<u8>>>, NoMemory>
        ensures texts { IfOk result (λ texts. (text : List ℕ) → Has texts (Some text) ↔ Has self.now.entries (TextEntry text)) }
        ensures once { IfOk result (λ texts. (number : ℕ) (text : List ℕ) → slice_get texts number ≡ Some (Some text)
            → option_and_then (λ (file : ClassFile). utf8_of file number) self.now.file ≡ Some text) }
    {
        match &self.origin {
            Origin::File(file) => literals_of(alloc, file.get()),
            Origin::Platform(_) => Ok(Row::new(alloc)),
        }
    }

    /// How many entries its constant pool has, that of number 0 among them: none of a platform class.
    pub fn entry_count(&self) -> usize
        ensures { result ≡ length self.now.entries }
    {
        match &self.origin {
            Origin::File(file) => file.get().pool.as_slice().len(),
            Origin::Platform(_) => 0,
        }
    }
}
