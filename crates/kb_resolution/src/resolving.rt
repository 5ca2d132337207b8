//! What the entries of the constant pools stand for, found once for each class and each member that it names.
ghost use Rattle.std.specs.Prelude.{◌≡◌, ◌<◌, true, false, Some, None, length, IfOk, IfSome, OnOk};
ghost use Rattle.std.specs.Option.{option_and_then};
ghost use Rattle.kb_class.specs.References.{sought_of};
ghost use Rattle.kb_class.specs.declared.entries.ReferenceKind.TheVariants as references;
ghost use Rattle.kb_class.specs.declared.members.MemberKind.TheVariants as kinds;
ghost use Rattle.kb_numbers.specs.Numbers.{AreNumbered, Names, StandsFor as PairStandsFor};
ghost use Rattle.kb_link.specs.Links.{IsLinked};
ghost use Rattle.kb_resolution.specs.Lookup.{class_of, class_of_field, resolved_in, sought_at, special_for};
ghost use Rattle.kb_resolution.specs.Tables.{HaveSlotTables, StandsFor, IsKnown, IsResolved, IsRow, IsSearched, AreRows, is_proper, slot_place};

use crate::fields::{WantedField, class_of_field, slot_sought};
use crate::known::{Known, class_sought, is_left_out, keep_member, member_known};
use crate::methods::Wanted;
use crate::resolved::{Resolved, nothing};
use crate::special::{if_class, method_sought, special_sought};
use crate::tables::slot_tables;
use kb_class::{ClassId, MemberKind, Reference, ReferenceKind};
use kb_link::Linked;
use kb_names::{ExactType, NoMemory, Row};
use kb_numbers::{EntryNumbers, Numbers, Pair};
use std::alloc::Global;
use std::collections::HashMap;

/// More entries than that have no numbers of 16 bits.
const MOST_ENTRIES: usize = 65536;

/// A row of each class: what its entries stand for.
pub fn rows_of(alloc: Global, linked: &Linked) -> Result<Vec<Row<Resolved>>, NoMemory>
    requires { IsLinked linked.now }
    ensures { IfOk result (λ rows. AreRows linked.now rows.items) }
{
    let numbers = linked.numbers();
    let slots = slot_tables(alloc, linked, numbers)?;
    let mut rows = Vec::new(alloc);
    for number in 0..linked.class_count() {
        let row = row_of(alloc, linked, numbers, slots.as_slice(), number)?;
        rows.push(row)?;
    }
    Ok(rows)
}

// What the entries of a class stand for.
fn row_of(
    alloc: Global,
    linked: &Linked,
    numbers: &Numbers,
    slots: &[HashMap<Pair, u32>],
    class: u32,
) -> Result<Row<Resolved>, NoMemory>
    requires { IsLinked linked.now × AreNumbered linked.now.classes numbers.now × HaveSlotTables linked.now numbers.now.classes.items slots.now × (class < length linked.now.classes) }
    ensures { IfOk result (IsRow linked.now class) }
{
    let mut known = Known::new(alloc);
    row_by(alloc, linked, numbers, slots, class, &mut known)
}

// The same, with what is known.
fn row_by(
    alloc: Global,
    linked: &Linked,
    numbers: &Numbers,
    slots: &[HashMap<Pair, u32>],
    class: u32,
    known: &mut Known,
) -> Result<Row<Resolved>, NoMemory>
    requires { IsLinked linked.now × AreNumbered linked.now.classes numbers.now × HaveSlotTables linked.now numbers.now.classes.items slots.now × (class < length linked.now.classes) × IsKnown linked.now class numbers.now.texts known.old }
    ensures { IfOk result (IsRow linked.now class) }
{
    let count = linked
        .class_of(ClassId(class))
        .entry_count()
        .min(MOST_ENTRIES);
    let mut row = Row::new(alloc);
    for entry in 0..count {
        let told = resolved_entry(linked, numbers, slots, class, entry as u16, known)?;
        row.push(told)?;
    }
    Ok(row)
}

// What an entry stands for.
fn resolved_entry(
    linked: &Linked,
    numbers: &Numbers,
    slots: &[HashMap<Pair, u32>],
    class: u32,
    entry: u16,
    known: &mut Known,
) -> Result<Resolved, NoMemory>
    requires { IsLinked linked.now × AreNumbered linked.now.classes numbers.now × HaveSlotTables linked.now numbers.now.classes.items slots.now × (class < length linked.now.classes) × IsKnown linked.now class numbers.now.texts known.old }
    ensures told { IfOk result (IsResolved linked.now class entry) }
    ensures known { OnOk result (IsKnown linked.now class numbers.now.texts known.new) }
{
    match linked.class_of(ClassId(class)).reference_entry(entry) {
        Some(reference) => member_entry(linked, numbers, slots, class, entry, &reference, known),
        None => Ok(nothing()),
    }
}

// What an entry stands for that names a member.
fn member_entry(
    linked: &Linked,
    numbers: &Numbers,
    slots: &[HashMap<Pair, u32>],
    class: u32,
    entry: u16,
    reference: &Reference<'_>,
    known: &mut Known,
) -> Result<Resolved, NoMemory>
    requires { IsLinked linked.now × AreNumbered linked.now.classes numbers.now × HaveSlotTables linked.now numbers.now.classes.items slots.now × IsKnown linked.now class numbers.now.texts known.old × (sought_at linked.now class entry ≡ Some (sought_of reference.now)) }
    ensures told { IfOk result (IsResolved linked.now class entry) }
    ensures known { OnOk result (IsKnown linked.now class numbers.now.texts known.new) }
{
    match numbers.entry(class, entry) {
        Some(named) => {
            let told = stands_for(linked, numbers, slots, class, reference, named, known)?;
            Ok(told)
        }
        None => Ok(nothing()),
    }
}

// What is sought stands for, in code of that class: found where it was not found before.
fn stands_for(
    linked: &Linked,
    numbers: &Numbers,
    slots: &[HashMap<Pair, u32>],
    class: u32,
    reference: &Reference<'_>,
    named: EntryNumbers,
    known: &mut Known,
) -> Result<Resolved, NoMemory>
    requires { IsLinked linked.now × AreNumbered linked.now.classes numbers.now × HaveSlotTables linked.now numbers.now.classes.items slots.now × IsKnown linked.now class numbers.now.texts known.old × Names numbers.now.texts named (sought_of reference.now) }
    ensures told { IfOk result (StandsFor linked.now class (sought_of reference.now)) }
    ensures known { OnOk result (IsKnown linked.now class numbers.now.texts known.new) }
{
    if !is_proper(reference.what, reference.kind) {
        return Ok(nothing());
    }
    if let Some(told) = member_known(&known.members, named) {
        return Ok(told);
    }
    let told = found(linked, numbers, slots, class, reference, named, known)?;
    keep_member(&mut known.members, named, told)?;
    Ok(told)
}

// Whether an entry of that kind names a member of that kind.
fn is_proper(what: ReferenceKind, kind: &MemberKind) -> bool
    ensures { result ≡ is_proper what kind.now }
{
    match (what, kind) {
        (ReferenceKind::Field, MemberKind::Field(_)) => true,
        (ReferenceKind::Field, MemberKind::Method(_)) => false,
        (_, MemberKind::Field(_)) => false,
        (_, MemberKind::Method(_)) => true,
    }
}

// What is sought stands for, in code of that class.
fn found(
    linked: &Linked,
    numbers: &Numbers,
    slots: &[HashMap<Pair, u32>],
    class: u32,
    reference: &Reference<'_>,
    named: EntryNumbers,
    known: &mut Known,
) -> Result<Resolved, NoMemory>
    requires { IsLinked linked.now × AreNumbered linked.now.classes numbers.now × HaveSlotTables linked.now numbers.now.classes.items slots.now × IsKnown linked.now class numbers.now.texts known.old × Names numbers.now.texts named (sought_of reference.now) × (is_proper reference.now.what reference.now.kind.now ≡ true) }
    ensures told { IfOk result (StandsFor linked.now class (sought_of reference.now)) }
    ensures known { OnOk result (IsKnown linked.now class numbers.now.texts known.new) }
{
    let number = class_sought(linked, reference.class, named.class, &mut known.classes)?;
    match reference.kind {
        MemberKind::Field(kind) => {
            let pair = named.member;
            let name = reference.name;
            let wanted = WantedField { name, kind, pair };
            Ok(field_found(linked, numbers, slots, reference.class, number, wanted))
        }
        MemberKind::Method(kind) => {
            let left_out = is_left_out(kind, named.member.kind, &mut known.left_out)?;
            let pair = named.member;
            let name = reference.name;
            let wanted = Wanted { name, kind, pair };
            let owner = if_class(reference.class, number);
            Ok(method_found(linked, numbers, class, number, wanted, left_out, owner))
        }
    }
}

// What a field stands for that is sought in the type, whose members are sought in the class of that number.
fn field_found(
    linked: &Linked,
    numbers: &Numbers,
    slots: &[HashMap<Pair, u32>],
    of: &ExactType,
    number: Option<u32>,
    wanted: WantedField<'_>,
) -> Resolved
    requires { IsLinked linked.now × AreNumbered linked.now.classes numbers.now × PairStandsFor numbers.now.texts wanted.pair wanted.name.now (kinds.Field wanted.kind.now) × (number ≡ class_of linked.now of.now) }
    ensures declaring { result.declaring ≡ class_of_field linked.now references.Field of.now wanted.entry.name.now (kinds.Field wanted.entry.kind.now) }
    ensures slot { result.slot ≡ option_and_then (λ class. slot_place slots.now class wanted.entry.pair) result.declaring }
    ensures others { (result.method ≡ None) × (result.special ≡ None) × (result.left_out ≡ false) × (result.owner ≡ None) }
{
    let declaring = class_of_field(linked, numbers, of, number, wanted);
    Resolved {
        declaring,
        slot: slot_sought(slots, declaring, wanted.pair),
        method: None,
        special: None,
        left_out: false,
        owner: None,
    }
}

// What a method stands for, in code of the class `current`, that is sought in the class of that number.
fn method_found(
    linked: &Linked,
    numbers: &Numbers,
    current: u32,
    number: Option<u32>,
    wanted: Wanted<'_>,
    left_out: bool,
    owner: Option<u32>,
) -> Resolved
    requires { IsSearched linked.now numbers.now wanted × IfSome number (λ class. class < length linked.now.classes) }
    ensures { result ≡ record { declaring = None; slot = None; method = option_and_then (resolved_in linked.now wanted.entry.name.now wanted.entry.kind.now) number; special = option_and_then (special_for linked.now current wanted.entry.name.now wanted.entry.kind.now) number; left_out = left_out; owner = owner } }
{
    Resolved {
        declaring: None,
        slot: None,
        method: method_sought(linked, numbers, number, wanted),
        special: special_sought(linked, numbers, current, number, wanted),
        left_out,
        owner,
    }
}
