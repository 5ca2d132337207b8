//! The class of a text.

ghost use Rattle.std.specs.Prelude.{◌≡◌, List, [], ◌∷◌, IsTrue, IfOk, OnOk};
ghost use Rattle.std.specs.List.{AllByRecursion, AllZip, flat_map};
ghost use Rattle.kb_asm_text.specs.declared.line.Line.{Line};
ghost use Rattle.kb_asm_pool.specs.Needs.{line_needs};
ghost use Rattle.kb_asm_pool.specs.Entries.{entries_of};
ghost use Rattle.kb_asm_check.specs.Limits.{ldc_says};
ghost use Rattle.kb_asm.specs.Needs.{have, have_all, IsWhole, AreFirst};
ghost use Rattle.kb_asm.specs.Entries.{SaysClass};
ghost use Rattle.kb_asm.specs.Parts.{parts};
ghost use Rattle.kb_asm.specs.Class.{interface_in, field_in, method_in, IsFieldOf};
ghost use Rattle.kb_asm.specs.Working.{Agree, AreText, BeginsClass, AreSound, IsFitLine, IsReadyMethod, IsFileOf};

use crate::NoMemory;
use crate::methods::methods_of;
use crate::numbers::{of_class, of_text};
use crate::parts::push_part;
use kb_asm_pool::{Items, type_bytes};
use kb_asm_text::{ClassHead, FieldHead, Line};
use kb_classfile::{ClassFile, Field, Method};
use kb_rows::Row;
use std::alloc::Global;

/// The major version of the class files that are written.
const MAJOR: u16 = 52;

/// The number of the superinterface, if the line is one.
fn number_in(pool: &mut Items, alloc: Global, line: &Line) -> Result<Option<u16>, NoMemory>
    requires whole { IsWhole pool.old.says }
    requires there { IsTrue (have pool.old.says (line_needs line.now)) }
    ensures same { OnOk result (pool.new.says ≡ pool.old.says) }
    ensures number { IfOk result (Agree (SaysClass (entries_of pool.old.says)) (interface_in line.now [])) }
{
    match line {
        Line::Implements(name) => Ok(Some(of_class(pool, alloc, name.as_slice())?)),
        _ => Ok(None),
    }
}

/// The superinterfaces.
fn interfaces_of(pool: &mut Items, alloc: Global, lines: &[Line]) -> Result<Row<u16>, NoMemory>
    requires whole { IsWhole pool.old.says }
    requires there { IsTrue (have_all pool.old.says lines.now) }
    ensures same { OnOk result (pool.new.says ≡ pool.old.says) }
    ensures numbers { IfOk result (AllZip (SaysClass (entries_of pool.old.says)) (parts interface_in lines.now)) }
{
    let mut interfaces = Row::new(alloc);
    let mut rest = lines;
    while let [line, others @ ..] = rest {
        let number = number_in(pool, alloc, line)?;
        push_part(&mut interfaces, number)?;
        rest = others;
    }
    Ok(interfaces)
}

/// A field.
fn field_of(pool: &mut Items, alloc: Global, head: &FieldHead) -> Result<Field, NoMemory>
    requires whole { IsWhole pool.old.says }
    requires there { IsTrue (have pool.old.says (line_needs (Line.Field head.now))) }
    ensures same { OnOk result (pool.new.says ≡ pool.old.says) }
    ensures field { IfOk result (IsFieldOf (entries_of pool.old.says) head.now) }
{
    let text = type_bytes(alloc, &head.kind)?;
    let name = of_text(pool, alloc, head.name.as_slice())?;
    let kind = of_text(pool, alloc, text.as_slice())?;
    Ok(Field {
        access: head.access,
        name,
        kind,
    })
}

/// The field, if the line is one.
fn field_in(pool: &mut Items, alloc: Global, line: &Line) -> Result<Option<Field>, NoMemory>
    requires whole { IsWhole pool.old.says }
    requires there { IsTrue (have pool.old.says (line_needs line.now)) }
    ensures same { OnOk result (pool.new.says ≡ pool.old.says) }
    ensures field { IfOk result (Agree (IsFieldOf (entries_of pool.old.says)) (field_in line.now [])) }
{
    match line {
        Line::Field(head) => Ok(Some(field_of(pool, alloc, head)?)),
        _ => Ok(None),
    }
}

/// The fields.
fn fields_of(pool: &mut Items, alloc: Global, lines: &[Line]) -> Result<Row<Field>, NoMemory>
    requires whole { IsWhole pool.old.says }
    requires there { IsTrue (have_all pool.old.says lines.now) }
    ensures same { OnOk result (pool.new.says ≡ pool.old.says) }
    ensures fields { IfOk result (AllZip (IsFieldOf (entries_of pool.old.says)) (parts field_in lines.now)) }
{
    let mut fields = Row::new(alloc);
    let mut rest = lines;
    while let [line, others @ ..] = rest {
        let field = field_in(pool, alloc, line)?;
        push_part(&mut fields, field)?;
        rest = others;
    }
    Ok(fields)
}

/// The first line, which is that of the class.
fn head_of(lines: &[Line]) -> &ClassHead
    requires { BeginsClass lines.now }
    ensures { (others : List Line) × (lines.now ≡ Line.Class result.now ∷ others) }
{
    let [first, ..] = lines else { unreachable!() };
    match first {
        Line::Class(head) => head,
        _ => unreachable!(),
    }
}

/// The members of a class.
#[derive(Drop)]
struct Members {
    interfaces: Row<u16>,
    fields: Row<Field>,
    methods: Row<Method>,
}

/// The superinterfaces, the fields and the methods.
fn members_of(pool: &mut Items, alloc: Global, lines: &[Line]) -> Result<Members, NoMemory>
    requires whole { IsWhole pool.old.says }
    requires there { IsTrue (have_all pool.old.says lines.now) }
    requires fit { AllByRecursion (IsFitLine pool.old.says) lines.now }
    requires sound { AreSound lines.now }
    ensures same { OnOk result (pool.new.says ≡ pool.old.says) }
    ensures interfaces { IfOk result (λ of. AllZip (SaysClass (entries_of pool.old.says)) (parts interface_in lines.now) of.interfaces) }
    ensures fields { IfOk result (λ of. AllZip (IsFieldOf (entries_of pool.old.says)) (parts field_in lines.now) of.fields) }
    ensures methods { IfOk result (λ of. AllZip (IsReadyMethod pool.old.says) (parts method_in lines.now) of.methods) }
{
    let interfaces = interfaces_of(pool, alloc, lines)?;
    let fields = fields_of(pool, alloc, lines)?;
    let methods = methods_of(pool, alloc, lines)?;
    Ok(Members {
        interfaces,
        fields,
        methods,
    })
}

/// The class file of the lines of a text, of which the pool has what they need.
pub(crate) fn file_of(
    pool: &mut Items,
    alloc: Global,
    lines: &[Line],
) -> Result<ClassFile, NoMemory>
    requires text { AreText lines.now }
    requires whole { IsWhole pool.old.says }
    requires there { IsTrue (have_all pool.old.says lines.now) }
    requires first { AreFirst pool.old.says (flat_map ldc_says lines.now) }
    ensures same { OnOk result (pool.new.says ≡ pool.old.says) }
    ensures file { IfOk result (IsFileOf pool.old.says lines.now) }
{
    let head = head_of(lines);
    let this = of_class(pool, alloc, head.name.as_slice())?;
    let parent = of_class(pool, alloc, head.parent.as_slice())?;
    let entries = pool.entries(alloc)?;
    let members = members_of(pool, alloc, lines)?;
    Ok(ClassFile {
        major: MAJOR,
        pool: entries,
        access: head.access,
        this,
        parent,
        interfaces: members.interfaces,
        fields: members.fields,
        methods: members.methods,
    })
}
