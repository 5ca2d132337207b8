//! What a class is once it is loaded, from a file or of the platform.
ghost use Rattle.std.specs.Prelude.{◌≡◌, ◌<◌};
ghost use Rattle.kb_class.specs.Given.{IsGiven};

use crate::texts::{
    add, add_access, add_number, add_origin, read_entry, write_exact, write_kind, write_none,
    write_text, write_type_entry,
};
use kb_class::{
    ClassId, FieldInfo, GivenClass, LoadedClass, MethodInfo, PLATFORM_CLASSES, Reference,
    ReferenceKind,
};
use kb_format::format_fault;
use kb_load::given_class;
use kb_names::{MethodType, Name, Spelling, write_method_type};
use kb_outside::Shelf;
use kb_rows::Held;
use kb_table::{RowResult, RowStop, kept, read_file};
use std::alloc::Global;

/// The number that the class gets. Nothing that is asked here goes by it.
const NUMBER: ClassId = ClassId(3);

/// Writes what is asked of the class of a file, or of the platform class whose place stands there for a file: its `head`, its
/// `fields`, its `methods`, the `entry` of a number, or how many types and descriptors are `named`.
pub fn write_loaded<S: Shelf>(
    alloc: Global,
    words: (&str, &str, &str),
    shelf: &mut S,
    text: &mut Vec<u8>,
) -> RowResult<()> {
    let (question, number, file) = words;
    let found = match file.parse::<usize>() {
        Ok(place) => platform_class(alloc, place),
        Err(_) => class_of_file(alloc, file, shelf),
    };
    match found {
        Some(class) => write_of_class(alloc, class.get(), question, number, text),
        None => write_none(text),
    }
}

fn write_of_class(
    alloc: Global,
    class: &LoadedClass,
    question: &str,
    number: &str,
    text: &mut Vec<u8>,
) -> RowResult<()> {
    match question {
        "head" => write_head(alloc, class, text),
        "fields" => write_fields(alloc, class.fields(), text),
        "methods" => write_methods(alloc, class.methods(), text),
        "entry" => write_entry(alloc, class, number, text),
        "named" => write_named(alloc, class, text),
        _ => Err(RowStop::Malformed),
    }
}

/// The class of a file, loaded.
fn class_of_file<S: Shelf>(alloc: Global, file: &str, shelf: &mut S) -> Option<Held<LoadedClass>> {
    let bytes = read_file(alloc, file, shelf).ok()?;
    let class = given_class(alloc, bytes.as_slice())?;
    loaded(alloc, class)
}

fn loaded(alloc: Global, class: GivenClass) -> Option<Held<LoadedClass>>
    requires { IsGiven class }
{
    let Ok(None) = format_fault(alloc, &class.file) else {
        return None;
    };
    held(alloc, LoadedClass::load(alloc, NUMBER, class).ok()?)
}

fn held(alloc: Global, class: LoadedClass) -> Option<Held<LoadedClass>> {
    Held::new(alloc, class).ok()
}

/// The class at that place of the platform's table.
#[tactic(auto, using(kb_class::proofs::PlatformLaws::table_size))]
fn platform_class(alloc: Global, place: usize) -> Option<Held<LoadedClass>> {
    if place >= PLATFORM_CLASSES {
        return None;
    }
    held(alloc, LoadedClass::platform(alloc, NUMBER, place).ok()?)
}

/// Its name, its flags, its superclass and its interfaces, and whether it has a file.
fn write_head(alloc: Global, class: &LoadedClass, text: &mut Vec<u8>) -> RowResult<()> {
    write_text(class.name(), text)?;
    add(" ", text)?;
    add_access(alloc, class.access(), text)?;
    write_parent(class, text)?;
    write_interfaces(class, text)?;
    add_origin(class.file().is_some(), text)
}

fn write_parent(class: &LoadedClass, text: &mut Vec<u8>) -> RowResult<()> {
    match class.parent() {
        Some(parent) => {
            add(" extends ", text)?;
            write_text(parent, text)
        }
        None => Ok(()),
    }
}

fn write_interfaces(class: &LoadedClass, text: &mut Vec<u8>) -> RowResult<()> {
    for place in 0..class.interface_count() {
        if let Some(name) = class.interface(place) {
            add(" implements ", text)?;
            text.extend_from_slice(name)?;
        }
    }
    Ok(())
}

fn write_fields(alloc: Global, fields: &[FieldInfo], text: &mut Vec<u8>) -> RowResult<()> {
    for field in fields {
        write_member(alloc, field.access, &field.name, text)?;
        write_kind(&field.kind, text)?;
        add("\n", text)?;
    }
    Ok(())
}

fn write_methods(alloc: Global, methods: &[MethodInfo], text: &mut Vec<u8>) -> RowResult<()> {
    for method in methods {
        write_member(alloc, method.access, &method.name, text)?;
        write_type_of(&method.kind, text)?;
        write_code(alloc, method, text)?;
    }
    Ok(())
}

/// The flags of a field or a method and its name, each with a space behind it.
fn write_member(alloc: Global, access: u16, name: &Name, text: &mut Vec<u8>) -> RowResult<()> {
    add_access(alloc, access, text)?;
    add(" ", text)?;
    write_text(name, text)?;
    add(" ", text)
}

/// The largest stack, the number of locals, the size, and how many instructions and handlers there are, and the end of the line.
fn write_code(alloc: Global, method: &MethodInfo, text: &mut Vec<u8>) -> RowResult<()> {
    let Some(code) = &method.code else {
        return add("\n", text);
    };
    let (stack, locals, size) = (code.max_stack, code.max_locals, code.size);
    let listed = code.listing.items.as_slice().len();
    let handlers = code.handlers.as_slice().len();
    let counts = format!(in alloc;
        ": stack {stack}, locals {locals}, {size} bytes, {listed} instructions, {handlers} handlers\n"
    )?;
    add(counts.as_str(), text)
}

/// What the entry of that number stands for.
fn write_entry(
    alloc: Global,
    class: &LoadedClass,
    number: &str,
    text: &mut Vec<u8>,
) -> RowResult<()> {
    let number = read_entry(number)?;
    if let Some(of) = class.type_entry(number) {
        return write_type_entry(of, text);
    }
    if let Some(told) = class.text_entry(number) {
        return write_text_entry(told, text);
    }
    if let Some(value) = class.int_entry(number) {
        return add_number(alloc, "int ", i64::from(value), "\n", text);
    }
    match class.reference_entry(number) {
        Some(reference) => write_reference(&reference, text),
        None => write_none(text),
    }
}

fn write_text_entry(told: &[u8], text: &mut Vec<u8>) -> RowResult<()> {
    add("text ", text)?;
    text.extend_from_slice(told)?;
    add("\n", text)
}

fn write_reference(reference: &Reference<'_>, text: &mut Vec<u8>) -> RowResult<()> {
    let what = match reference.what {
        ReferenceKind::Field => "field ",
        ReferenceKind::Method => "method ",
        ReferenceKind::InterfaceMethod => "method of an interface ",
    };
    add(what, text)?;
    write_exact(reference.class, text)?;
    add(" ", text)?;
    text.extend_from_slice(reference.name)?;
    add("\n", text)
}

/// How many types its Class entries name, and how many different descriptors it has.
fn write_named(alloc: Global, class: &LoadedClass, text: &mut Vec<u8>) -> RowResult<()> {
    let types = class
        .named_types()
        .iter()
        .filter(|told| told.is_some())
        .count();
    let kinds = class
        .named_kinds()
        .iter()
        .filter(|told| told.is_some())
        .count();
    let counts = format!(in alloc; "{types} types, {kinds} descriptors\n")?;
    add(counts.as_str(), text)
}

fn write_type_of(kind: &MethodType, text: &mut Vec<u8>) -> RowResult<()> {
    kept(write_method_type(kind, Spelling::Escaped, text))
}
