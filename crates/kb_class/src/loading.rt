//! The fields and methods of a class file in plain terms.

ghost use Rattle.std.specs.Prelude.{◌≡◌, ℕ, List, Some, IfOk, IfSome, IsSome};
ghost use Rattle.std.specs.List.{AllByRecursion, AllZip};
ghost use Rattle.kb_class.specs.declared.members.MemberKind.TheVariants as kinds;
ghost use Rattle.kb_names.specs.declared.types.JType.{JType};
ghost use Rattle.kb_names.specs.declared.types.MethodType.{MethodType};
ghost use Rattle.kb_class.specs.Given.{IsListing, AreListings};
ghost use Rattle.kb_classfile.specs.Pool.{class_name_of};
ghost use Rattle.kb_format.specs.Rules.{KeepsRules};
ghost use Rattle.kb_class.specs.Loading.{SpellsExact, SpellsKind, IsFieldOf, IsCodeOf, IsMethodOf, AreMethodsOf};
ghost use Rattle.kb_class.specs.Loaded.{told_at};
ghost use Rattle.kb_class.specs.Tables.{type_numbers, name_numbers, kind_numbers, literal_numbers, SpellsItself, IsTable, IsSound, HasSize, IsFieldTold, IsMethodTold};

use crate::handlers::handlers_of;
use crate::ids::ClassId;
use crate::members::{FieldInfo, MemberKind, MethodCode, MethodInfo};
use crate::tables::{kind_numbers, literal_numbers, name_numbers, table_of, type_numbers};
use kb_classfile::{ClassFile, Code, Field, Method};
use kb_code::Listing;
use kb_names::{ExactType, JType, MethodType, Name, NoMemory, Row};
use std::alloc::Global;

// The name of the class that the entry with that number names.
fn class_name(alloc: Global, file: &ClassFile, entry: u16) -> Result<Name, NoMemory>
    requires { IsSome (class_name_of file.now entry) }
    ensures { IfOk result (λ name. class_name_of file.now entry ≡ Some name) }
{
    match file.class_name(entry) {
        Some(name) => Name::from_slice(alloc, name),
        None => unreachable!(),
    }
}

/// What a class file names: itself, its superclass, the types of its Class entries, and by its descriptors.
#[derive(Drop)]
pub(crate) struct Named {
    pub(crate) name: Name,
    pub(crate) parent: Name,
    pub(crate) types: Row<Option<ExactType>>,
    pub(crate) kinds: Row<Option<MemberKind>>,
}

/// What the file names.
pub(crate) fn named_of(alloc: Global, file: &ClassFile) -> Result<Named, NoMemory>
    requires own { IsSome (class_name_of file.now file.now.this) }
    requires above { IsSome (class_name_of file.now file.now.parent) }
    requires rules { KeepsRules file.now }
    ensures name { IfOk result (λ named. class_name_of file.now file.now.this ≡ Some named.name) }
    ensures parent { IfOk result (λ named. class_name_of file.now file.now.parent ≡ Some named.parent) }
    ensures types { IfOk result (λ named. IsTable SpellsExact file.now.pool (type_numbers file.now.pool) named.types) }
    ensures kinds { IfOk result (λ named. IsTable SpellsKind file.now.pool (kind_numbers file.now) named.kinds) }
{
    let name = class_name(alloc, file, file.this)?;
    let parent = class_name(alloc, file, file.parent)?;
    let types = named_types(alloc, file)?;
    let kinds = named_kinds(alloc, file)?;
    Ok(Named {
        name,
        parent,
        types,
        kinds,
    })
}

// The types that Class entries name.
fn named_types(alloc: Global, file: &ClassFile) -> Result<Row<Option<ExactType>>, NoMemory>
    requires { KeepsRules file.now }
    ensures { IfOk result (IsTable SpellsExact file.now.pool (type_numbers file.now.pool)) }
{
    let numbers = type_numbers(alloc, file.pool.as_slice())?;
    table_of(alloc, file, numbers.as_slice())
}

// What the descriptors say.
fn named_kinds(alloc: Global, file: &ClassFile) -> Result<Row<Option<MemberKind>>, NoMemory>
    requires { KeepsRules file.now }
    ensures { IfOk result (IsTable SpellsKind file.now.pool (kind_numbers file.now)) }
{
    let numbers = kind_numbers(alloc, file)?;
    table_of(alloc, file, numbers.as_slice())
}

// The names of fields and methods.
fn member_names(alloc: Global, file: &ClassFile) -> Result<Row<Option<Name>>, NoMemory>
    requires { KeepsRules file.now }
    ensures { IfOk result (IsTable SpellsItself file.now.pool (name_numbers file.now)) }
{
    let numbers = name_numbers(alloc, file)?;
    table_of(alloc, file, numbers.as_slice())
}

/// The texts of String entries.
pub(crate) fn literals_of(alloc: Global, file: &ClassFile) -> Result<Row<Option<Row<u8>>>, NoMemory>
    ensures { IfOk result (IsTable SpellsItself file.now.pool (literal_numbers file.now.pool)) }
{
    let numbers = literal_numbers(alloc, file)?;
    table_of(alloc, file, numbers.as_slice())
}

/// The fields and methods of a class.
#[derive(Drop)]
pub(crate) struct Members {
    pub(crate) fields: Row<FieldInfo>,
    pub(crate) methods: Row<MethodInfo>,
}

/// The fields and methods of the class with that number, by a table of the descriptors. Members of one name share it.
pub(crate) fn members_of(
    alloc: Global,
    id: ClassId,
    file: &ClassFile,
    kinds: &[Option<MemberKind>],
    listings: Vec<Option<Listing>>,
) -> Result<Members, NoMemory>
    requires rules { KeepsRules file.now }
    requires sound { IsSound file.now }
    requires described { IsTable SpellsKind file.now.pool (kind_numbers file.now) kinds.now }
    requires listed { AreListings file.now.methods listings.items }
    ensures fields { IfOk result (λ members. AllZip (IsFieldOf file.now) file.now.fields members.fields) }
    ensures methods { IfOk result (λ members. AreMethodsOf id.0 file.now file.now.methods listings.items members.methods) }
{
    let names = member_names(alloc, file)?;
    let fields = fields_of(alloc, file, names.as_slice(), kinds)?;
    let methods = methods_of(alloc, id, file, names.as_slice(), kinds, listings)?;
    Ok(Members { fields, methods })
}

// The fields, by tables of the names and descriptors.
fn fields_of(
    alloc: Global,
    file: &ClassFile,
    names: &[Option<Name>],
    kinds: &[Option<MemberKind>],
) -> Result<Row<FieldInfo>, NoMemory>
    requires { AllByRecursion (IsFieldTold file.now names.now kinds.now) file.now.fields }
    ensures { IfOk result (AllZip (IsFieldOf file.now) file.now.fields) }
{
    let mut infos = Row::new(alloc);
    let mut rest = file.fields.as_slice();
    while let [field, others @ ..] = rest {
        infos.push(field_of(alloc, file, names, kinds, field)?)?;
        rest = others;
    }
    Ok(infos)
}

fn field_of(
    alloc: Global,
    file: &ClassFile,
    names: &[Option<Name>],
    kinds: &[Option<MemberKind>],
    field: &Field,
) -> Result<FieldInfo, NoMemory>
    requires { IsFieldTold file.now names.now kinds.now field.now }
    ensures { IfOk result (IsFieldOf file.now field.now) }
{
    Ok(FieldInfo {
        access: field.access,
        name: name_told(alloc, names, field.name)?,
        kind: field_type(alloc, kinds, field.kind)?,
    })
}

// The name that the table has at the number.
fn name_told(alloc: Global, names: &[Option<Name>], number: u16) -> Result<Name, NoMemory>
    requires { (name : List ℕ) × (told_at names.now number ≡ Some name) }
    ensures { IfOk result (λ name. told_at names.now number ≡ Some name) }
{
    match names.get(number as usize) {
        Some(Some(name)) => name.copied(alloc),
        _ => unreachable!(),
    }
}

// The type that the table has for a field at the number.
fn field_type(alloc: Global, table: &[Option<MemberKind>], number: u16) -> Result<JType, NoMemory>
    requires { (type : JType) × (told_at table.now number ≡ Some (kinds.Field type)) }
    ensures { IfOk result (λ type. told_at table.now number ≡ Some (kinds.Field type)) }
{
    match table.get(number as usize) {
        Some(Some(MemberKind::Field(of))) => of.copied(alloc),
        _ => unreachable!(),
    }
}

// The methods of the class with that number, with their listings, by tables of the names and descriptors.
fn methods_of(
    alloc: Global,
    id: ClassId,
    file: &ClassFile,
    names: &[Option<Name>],
    kinds: &[Option<MemberKind>],
    listings: Vec<Option<Listing>>,
) -> Result<Row<MethodInfo>, NoMemory>
    requires told { AllByRecursion (IsMethodTold file.now names.now kinds.now) file.now.methods }
    requires listed { AreListings file.now.methods listings.items }
    ensures { IfOk result (AreMethodsOf id.0 file.now file.now.methods listings.items) }
{
    let mut infos = Row::new(alloc);
    let mut rest = file.methods.as_slice();
    for listing in listings {
        let [method, others @ ..] = rest else {
            unreachable!()
        };
        infos.push(method_of(alloc, id, file, names, kinds, method, listing)?)?;
        rest = others;
    }
    Ok(infos)
}

fn method_of(
    alloc: Global,
    id: ClassId,
    file: &ClassFile,
    names: &[Option<Name>],
    kinds: &[Option<MemberKind>],
    method: &Method,
    listing: Option<Listing>,
) -> Result<MethodInfo, NoMemory>
    requires told { IsMethodTold file.now names.now kinds.now method.now }
    requires listed { IsListing method.now.code listing }
    ensures { IfOk result (IsMethodOf id.0 file.now method.now listing) }
{
    Ok(MethodInfo {
        class: id,
        access: method.access,
        name: name_told(alloc, names, method.name)?,
        kind: method_type(alloc, kinds, method.kind)?,
        code: code_of(alloc, &method.code, listing)?,
    })
}

// The type that the table has for a method at the number.
fn method_type(
    alloc: Global,
    table: &[Option<MemberKind>],
    number: u16,
) -> Result<MethodType, NoMemory>
    requires { (type : MethodType) × (told_at table.now number ≡ Some (kinds.Method type)) }
    ensures { IfOk result (λ type. told_at table.now number ≡ Some (kinds.Method type)) }
{
    match table.get(number as usize) {
        Some(Some(MemberKind::Method(of))) => of.copied(alloc),
        _ => unreachable!(),
    }
}

fn code_of(
    alloc: Global,
    code: &Option<Code>,
    listing: Option<Listing>,
) -> Result<Option<MethodCode>, NoMemory>
    requires sized { IfSome code.now HasSize }
    requires listed { IsListing code.now listing }
    ensures { IfOk result (IsCodeOf code.now listing) }
{
    match (code, listing) {
        (Some(code), Some(listing)) => Ok(Some(MethodCode {
            max_stack: code.max_stack,
            max_locals: code.max_locals,
            size: code.bytes.as_slice().len() as u32,
            listing,
            handlers: Row::from_vec(handlers_of(alloc, code)?),
        })),
        (None, None) => Ok(None),
        _ => unreachable!(),
    }
}
