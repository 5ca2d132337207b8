//! The fields and methods of a class file, by the entries of their names and descriptors.

ghost use Rattle.std.specs.Prelude.{◌≡◌, map, IfOk};
ghost use Rattle.kb_format.specs.Members.{member_of_field, member_of_method, key_of, number_at, TellsAgain, TellsMembers};

use crate::place::Member;
use indexmap::IndexSet;
use kb_classfile::{ClassFile, Field, Method};
use std::alloc::{AllocError, Global};

/// The fields and the methods of a class file, in its order.
#[derive(Drop)]
pub struct Members {
    pub fields: Vec<Member>,
    pub methods: Vec<Member>,
}

/// The fields and the methods, each in the order of the file.
pub(crate) fn members_of(alloc: Global, file: &ClassFile) -> Result<Members, AllocError>
    ensures fields { IfOk result (λ members. members.fields.items ≡ map member_of_field file.now.fields) }
    ensures methods { IfOk result (λ members. members.methods.items ≡ map member_of_method file.now.methods) }
{
    let fields = field_members(alloc, file.fields.as_slice())?;
    let methods = method_members(alloc, file.methods.as_slice())?;
    Ok(Members { fields, methods })
}

fn field_members(alloc: Global, fields: &[Field]) -> Result<Vec<Member>, AllocError>
    ensures { IfOk result (λ members. members.items ≡ map member_of_field fields.now) }
{
    let mut members = Vec::new(alloc);
    for field in fields {
        let member = Member {
            name: field.name,
            kind: field.kind,
        };
        members.push(member)?;
    }
    Ok(members)
}

fn method_members(alloc: Global, methods: &[Method]) -> Result<Vec<Member>, AllocError>
    ensures { IfOk result (λ members. members.items ≡ map member_of_method methods.now) }
{
    let mut members = Vec::new(alloc);
    for method in methods {
        let member = Member {
            name: method.name,
            kind: method.kind,
        };
        members.push(member)?;
    }
    Ok(members)
}

/// The first field, or else the first method, with the name and descriptor of one before it, by the entry of its name.
pub(crate) fn member_again(
    alloc: Global,
    numbers: &[Option<usize>],
    members: &Members,
) -> Result<Option<u16>, AllocError>
    ensures { IfOk result (TellsMembers numbers.now members.now.fields.items members.now.methods.items) }
{
    if let Some(number) = first_again(alloc, numbers, members.fields.as_slice())? {
        return Ok(Some(number));
    }
    first_again(alloc, numbers, members.methods.as_slice())
}

// The first of these members that has the numbers of one before it.
fn first_again(
    alloc: Global,
    numbers: &[Option<usize>],
    members: &[Member],
) -> Result<Option<u16>, AllocError>
    ensures { IfOk result (TellsAgain numbers.now members.now) }
{
    let mut met = IndexSet::new(alloc);
    for member in members {
        let is_new = met.insert(key_of(numbers, *member))?;
        if !is_new {
            return Ok(Some(member.name));
        }
    }
    Ok(None)
}

fn key_of(numbers: &[Option<usize>], member: Member) -> (Option<usize>, Option<usize>)
    ensures { result ≡ key_of numbers.now member }
{
    (
        number_at(numbers, member.name),
        number_at(numbers, member.kind),
    )
}

fn number_at(numbers: &[Option<usize>], entry: u16) -> Option<usize>
    ensures { result ≡ number_at numbers.now entry }
{
    match numbers.get(entry as usize) {
        Some(number) => *number,
        None => None,
    }
}
