//! The classes that are there without a file.

ghost use Rattle.std.specs.Prelude.{◌≡◌, ◌<◌, ◌∷◌, [], Some, None, IfOk, map, slice_get};
ghost use Rattle.std.specs.List.{AllZip};
ghost use Rattle.kb_names.specs.declared.types.JType.TheVariants as types;
ghost use Rattle.kb_class.specs.Platform.{IsPlatformMethod, constructor, constructor_of_text, equals};
ghost use Rattle.kb_class.specs.PlatformRows.{superclass_name, kind_access, kind_parent, kind_interfaces, kind_methods, platform_names, platform_kinds, method_kind};

use crate::ids::ClassId;
use crate::members::{MemberKind, MethodInfo};
use kb_names::{JType, MethodType, Name, NoMemory, Row, SharedRow};
use std::alloc::Global;

// A class that others are below.
#[derive(Clone, Copy)]
pub(crate) enum Superclass {
    Throwable,
    Exception,
    RuntimeException,
    IndexOutOfBounds,
}

// What a platform class is, but for its name.
#[derive(Clone, Copy)]
pub(crate) enum PlatformKind {
    Object,
    // java/lang/String.
    Text,
    Throwable,
    // Below java/lang/Throwable, by its superclass.
    Thrown(Superclass),
    Interface,
}

const OBJECT: &[u8] = b"java/lang/Object";

const COMPARABLE: &[u8] = b"java/lang/Comparable";

const SERIALIZABLE: &[u8] = b"java/io/Serializable";

/// The name of the class at that place.
#[tactic(auto, unfolding(crate::specs::PlatformRows::platform_names))]
pub(crate) fn name_at(place: usize) -> &'static [u8]
    requires { place < 20 }
    ensures { slice_get platform_names place ≡ Some result.now }
{
    let names: [&'static [u8]; 20] = [
        OBJECT,
        b"java/lang/String",
        b"java/lang/Throwable",
        b"java/lang/Exception",
        b"java/lang/RuntimeException",
        b"java/lang/Error",
        b"java/lang/ArithmeticException",
        b"java/lang/IndexOutOfBoundsException",
        b"java/lang/ArrayIndexOutOfBoundsException",
        b"java/lang/ArrayStoreException",
        b"java/lang/ClassCastException",
        b"java/lang/IllegalArgumentException",
        b"java/lang/IllegalStateException",
        b"java/lang/NegativeArraySizeException",
        b"java/lang/NullPointerException",
        b"java/lang/UnsupportedOperationException",
        b"java/util/NoSuchElementException",
        b"java/lang/Cloneable",
        COMPARABLE,
        SERIALIZABLE,
    ];
    names[place]
}

/// What the class at that place is.
#[tactic(auto, unfolding(crate::specs::PlatformRows::platform_kinds))]
pub(crate) fn kind_at(place: usize) -> PlatformKind
    requires { place < 20 }
    ensures { slice_get platform_kinds place ≡ Some result }
{
    let kinds = [
        PlatformKind::Object,
        PlatformKind::Text,
        PlatformKind::Throwable,
        PlatformKind::Thrown(Superclass::Throwable),
        PlatformKind::Thrown(Superclass::Exception),
        PlatformKind::Thrown(Superclass::Throwable),
        PlatformKind::Thrown(Superclass::RuntimeException),
        PlatformKind::Thrown(Superclass::RuntimeException),
        PlatformKind::Thrown(Superclass::IndexOutOfBounds),
        PlatformKind::Thrown(Superclass::RuntimeException),
        PlatformKind::Thrown(Superclass::RuntimeException),
        PlatformKind::Thrown(Superclass::RuntimeException),
        PlatformKind::Thrown(Superclass::RuntimeException),
        PlatformKind::Thrown(Superclass::RuntimeException),
        PlatformKind::Thrown(Superclass::RuntimeException),
        PlatformKind::Thrown(Superclass::RuntimeException),
        PlatformKind::Thrown(Superclass::RuntimeException),
        PlatformKind::Interface,
        PlatformKind::Interface,
        PlatformKind::Interface,
    ];
    kinds[place]
}

impl Superclass {
    fn name(self) -> &'static [u8]
        ensures { result.now ≡ superclass_name self }
    {
        match self {
            Superclass::Throwable => b"java/lang/Throwable",
            Superclass::Exception => b"java/lang/Exception",
            Superclass::RuntimeException => b"java/lang/RuntimeException",
            Superclass::IndexOutOfBounds => b"java/lang/IndexOutOfBoundsException",
        }
    }
}

impl PlatformKind {
    pub(crate) fn access(self) -> u16
        ensures { result ≡ kind_access self }
    {
        match self {
            PlatformKind::Object | PlatformKind::Throwable | PlatformKind::Thrown(_) => 0x0001,
            PlatformKind::Text => 0x0011,
            PlatformKind::Interface => 0x0601,
        }
    }

    pub(crate) fn parent(self, alloc: Global) -> Result<Option<Name>, NoMemory>
        ensures { IfOk result (λ parent. parent ≡ kind_parent self) }
    {
        match self {
            PlatformKind::Object => Ok(None),
            PlatformKind::Thrown(above) => Ok(Some(Name::from_slice(alloc, above.name())?)),
            PlatformKind::Text | PlatformKind::Throwable | PlatformKind::Interface => {
                Ok(Some(Name::from_slice(alloc, OBJECT)?))
            }
        }
    }

    pub(crate) fn interfaces(self, alloc: Global) -> Result<Row<Name>, NoMemory>
        ensures { IfOk result (λ interfaces. interfaces ≡ kind_interfaces self) }
    {
        let none = Row::new(alloc);
        match self {
            PlatformKind::Text => {
                let first = none.with(Name::from_slice(alloc, SERIALIZABLE)?)?;
                first.with(Name::from_slice(alloc, COMPARABLE)?)
            }
            PlatformKind::Throwable => none.with(Name::from_slice(alloc, SERIALIZABLE)?),
            PlatformKind::Object | PlatformKind::Thrown(_) | PlatformKind::Interface => Ok(none),
        }
    }

    /// The methods of it that can be called, if its class has that number.
    pub(crate) fn methods(self, alloc: Global, id: ClassId) -> Result<Row<MethodInfo>, NoMemory>
        ensures { IfOk result (AllZip (IsPlatformMethod id.0) (kind_methods self)) }
    {
        let none = Row::new(alloc);
        match self {
            PlatformKind::Object => {
                let first = none.with(constructor(alloc, id)?)?;
                first.with(equals(alloc, id)?)
            }
            PlatformKind::Throwable | PlatformKind::Thrown(_) => {
                let first = none.with(constructor(alloc, id)?)?;
                first.with(constructor_of_text(alloc, id)?)
            }
            PlatformKind::Text | PlatformKind::Interface => Ok(none),
        }
    }
}

fn method(id: ClassId, name: Name, params: SharedRow<JType>, returned: Option<JType>) -> MethodInfo
    ensures { result ≡ record { class = id; access = 0x0001; name = name; kind = record { params = params; result = returned }; code = None } }
{
    MethodInfo {
        class: id,
        access: 0x0001,
        name,
        kind: MethodType {
            params,
            result: returned,
        },
        code: None,
    }
}

fn constructor(alloc: Global, id: ClassId) -> Result<MethodInfo, NoMemory>
    ensures { IfOk result (IsPlatformMethod id.0 constructor) }
{
    let name = Name::from_slice(alloc, b"<init>")?;
    Ok(method(id, name, SharedRow::new(), None))
}

fn constructor_of_text(alloc: Global, id: ClassId) -> Result<MethodInfo, NoMemory>
    ensures { IfOk result (IsPlatformMethod id.0 constructor_of_text) }
{
    let name = Name::from_slice(alloc, b"<init>")?;
    let params = one_class(alloc, b"java/lang/String")?;
    Ok(method(id, name, params, None))
}

fn equals(alloc: Global, id: ClassId) -> Result<MethodInfo, NoMemory>
    ensures { IfOk result (IsPlatformMethod id.0 equals) }
{
    let name = Name::from_slice(alloc, b"equals")?;
    let params = one_class(alloc, OBJECT)?;
    Ok(method(id, name, params, Some(JType::Bool)))
}

// One parameter of that class.
fn one_class(alloc: Global, name: &[u8]) -> Result<SharedRow<JType>, NoMemory>
    ensures { IfOk result (λ params. params ≡ types.Class name.now ∷ []) }
{
    let class = JType::Class(Name::from_slice(alloc, name)?);
    SharedRow::from_row(Row::new(alloc).with(class)?)
}

/// What the descriptors of the methods say.
pub(crate) fn kinds_of_methods(
    alloc: Global,
    methods: &[MethodInfo],
) -> Result<Row<Option<MemberKind>>, NoMemory>
    ensures { IfOk result (λ kinds. kinds ≡ map method_kind methods.now) }
{
    let mut kinds = Row::new(alloc);
    for method in methods {
        kinds.push(Some(MemberKind::Method(method.kind.copied(alloc)?)))?;
    }
    Ok(kinds)
}
