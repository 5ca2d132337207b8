//! The first place of a class file that is not met.

ghost use Rattle.std.specs.Prelude.{◌≡◌, ◌++◌, [], map};
ghost use Rattle.std.specs.List.{filter_map, cons_option};
ghost use Rattle.kb_format.specs.declared.place.Demand.TheVariants.{FieldType, MethodType};
ghost use Rattle.kb_format.specs.Places.{asked, name_in_entry, type_in_entry};
ghost use Rattle.kb_format.specs.Verdicts.{first_unmet};
ghost use Rattle.kb_format.specs.Members.{name_of, type_of};

use crate::members::Members;
use crate::place::{Demand, Member, Place};
use crate::verdicts::{Verdict, is_met};
use kb_classfile::PoolEntry;

/// The first name that is not what is asked for, by the number of its entry.
pub(crate) fn unmet_name(verdicts: &[Verdict], pool: &[PoolEntry], members: &Members) -> Option<u16>
    ensures { result ≡ first_unmet verdicts.now (filter_map name_in_entry pool.now ++ (map name_of members.now.fields.items ++ map name_of members.now.methods.items)) }
{
    if let Some(number) = unmet_entry_name(verdicts, pool) {
        return Some(number);
    }
    if let Some(number) = unmet_member_name(verdicts, members.fields.as_slice()) {
        return Some(number);
    }
    unmet_member_name(verdicts, members.methods.as_slice())
}

fn unmet_entry_name(verdicts: &[Verdict], pool: &[PoolEntry]) -> Option<u16>
    ensures { result ≡ first_unmet verdicts.now (filter_map name_in_entry pool.now) }
{
    let mut rest = pool;
    while let [entry, others @ ..] = rest {
        if let Some(number) = unmet_in(verdicts, name_in_entry(entry)) {
            return Some(number);
        }
        rest = others;
    }
    None
}

fn name_in_entry(entry: &PoolEntry) -> Option<Place>
    ensures { result ≡ name_in_entry entry.now }
{
    match entry {
        PoolEntry::Class(name) => Some(asked(Demand::ClassName, *name)),
        PoolEntry::NameType(name, _) => Some(asked(Demand::NotEmpty, *name)),
        _ => None,
    }
}

fn unmet_member_name(verdicts: &[Verdict], members: &[Member]) -> Option<u16>
    ensures { result ≡ first_unmet verdicts.now (map name_of members.now) }
{
    let mut rest = members;
    while let [member, others @ ..] = rest {
        if !is_met(verdicts, asked(Demand::NotEmpty, member.name)) {
            return Some(member.name);
        }
        rest = others;
    }
    None
}

/// The first descriptor that is not what is asked for, by the number of its entry.
pub(crate) fn unmet_type(verdicts: &[Verdict], pool: &[PoolEntry], members: &Members) -> Option<u16>
    ensures { result ≡ first_unmet verdicts.now (filter_map type_in_entry pool.now ++ (map (type_of FieldType) members.now.fields.items ++ map (type_of MethodType) members.now.methods.items)) }
{
    if let Some(number) = unmet_entry_type(verdicts, pool) {
        return Some(number);
    }
    if let Some(number) = unmet_member_type(
        verdicts,
        members.fields.as_slice(),
        Demand::FieldType,
    ) {
        return Some(number);
    }
    unmet_member_type(verdicts, members.methods.as_slice(), Demand::MethodType)
}

fn unmet_entry_type(verdicts: &[Verdict], pool: &[PoolEntry]) -> Option<u16>
    ensures { result ≡ first_unmet verdicts.now (filter_map type_in_entry pool.now) }
{
    let mut rest = pool;
    while let [entry, others @ ..] = rest {
        if let Some(number) = unmet_in(verdicts, type_in_entry(entry)) {
            return Some(number);
        }
        rest = others;
    }
    None
}

fn type_in_entry(entry: &PoolEntry) -> Option<Place>
    ensures { result ≡ type_in_entry entry.now }
{
    match entry {
        PoolEntry::NameType(_, kind) => Some(asked(Demand::AnyType, *kind)),
        _ => None,
    }
}

fn unmet_member_type(verdicts: &[Verdict], members: &[Member], demand: Demand) -> Option<u16>
    ensures { result ≡ first_unmet verdicts.now (map (type_of demand) members.now) }
{
    let mut rest = members;
    while let [member, others @ ..] = rest {
        if !is_met(verdicts, asked(demand, member.kind)) {
            return Some(member.kind);
        }
        rest = others;
    }
    None
}

// The text that is asked for at this place, if there is one, and is not such.
fn unmet_in(verdicts: &[Verdict], place: Option<Place>) -> Option<u16>
    ensures { result ≡ first_unmet verdicts.now (cons_option place []) }
{
    let place = place?;
    if is_met(verdicts, place) {
        return None;
    }
    Some(place.text)
}

fn asked(demand: Demand, text: u16) -> Place
    ensures { result ≡ asked demand text }
{
    Place { text, demand }
}
