//! The slots of each class by the pairs of their fields.
ghost use Rattle.std.specs.Prelude.{◌≡◌, ◌<◌, ◌++◌, ◌∷◌, [], Some, None, length, if◌then◌else◌, IfOk, OnOk};
ghost use Rattle.std.specs.Option.{option_or};
ghost use Rattle.kb_numbers.specs.declared.pairs.Pair.{Pair as PlainPair};
ghost use Rattle.kb_numbers.specs.Pairs.{place_told};
ghost use Rattle.kb_resolution.specs.Tables.{HaveSlotTables, IsSlotTable, IsSlotTableOf, is_key, keys_along, keys_at, own_keys, slot_place};

use kb_class::{ClassId, FieldInfo};
use kb_link::{Linked, has_slot};
use kb_names::NoMemory;
use kb_numbers::{Numbers, Pair, add_place};
use std::alloc::Global;
use std::collections::HashMap;

/// The class that declares a field with a slot, and the field's pair.
#[derive(Clone, Copy)]
pub(crate) struct SlotKey {
    pub(crate) class: u32,
    pub(crate) pair: Pair,
}

/// Of each class the places of the slots of those fields that it declares itself, by the fields' pairs.
pub(crate) fn slot_tables(
    alloc: Global,
    linked: &Linked,
    numbers: &Numbers,
) -> Result<Vec<HashMap<Pair, u32>>, NoMemory>
    ensures { IfOk result (λ tables. HaveSlotTables linked.now numbers.now.classes.items tables.items) }
{
    let mut tables = Vec::new(alloc);
    for number in 0..linked.class_count() {
        let table = slot_table(alloc, linked, numbers, ClassId(number))?;
        tables.push(table)?;
    }
    Ok(tables)
}

// That of a class.
fn slot_table(
    alloc: Global,
    linked: &Linked,
    numbers: &Numbers,
    class: ClassId,
) -> Result<HashMap<Pair, u32>, NoMemory>
    requires { class.0 < length linked.now.classes }
    ensures { IfOk result (IsSlotTableOf linked.now numbers.now.classes.items class.0) }
{
    let keys = keys_along(alloc, linked, numbers, linked.chain_of(class))?;
    let table = places_of(alloc, class.0, keys.as_slice())?;
    Ok(table)
}

// The keys of the slots of the class at the end of a chain of superclasses, in the order of the slots.
fn keys_along(
    alloc: Global,
    linked: &Linked,
    numbers: &Numbers,
    chain: &[u32],
) -> Result<Vec<SlotKey>, NoMemory>
    ensures { IfOk result (λ keys. keys.items ≡ keys_along linked.now.classes numbers.now.classes.items chain.now) }
{
    let mut keys = Vec::new(alloc);
    for back in 0..chain.len() {
        let number = chain[chain.len() - 1 - back];
        add_keys_at(linked, numbers, number, &mut keys)?;
    }
    Ok(keys)
}

// Adds those of the fields of a class.
fn add_keys_at(
    linked: &Linked,
    numbers: &Numbers,
    number: u32,
    keys: &mut Vec<SlotKey>,
) -> Result<(), NoMemory>
    ensures { OnOk result (keys.new.items ≡ keys.old.items ++ keys_at linked.now.classes numbers.now.classes.items number) }
{
    if number >= linked.class_count() {
        return Ok(());
    }
    let fields = linked.class_of(ClassId(number)).fields();
    add_keys(number, fields, numbers.fields_at(number), keys)
}

// Adds those of these fields of a class, beside which their pairs stand.
fn add_keys(
    class: u32,
    fields: &[FieldInfo],
    pairs: &[Pair],
    keys: &mut Vec<SlotKey>,
) -> Result<(), NoMemory>
    ensures { OnOk result (keys.new.items ≡ keys.old.items ++ own_keys class fields.now pairs.now) }
{
    let count = fields.len().min(pairs.len());
    for place in 0..count {
        add_key(class, &fields[place], pairs[place], keys)?;
    }
    Ok(())
}

// Adds that of a field, if it has a slot.
fn add_key(
    class: u32,
    field: &FieldInfo,
    pair: Pair,
    keys: &mut Vec<SlotKey>,
) -> Result<(), NoMemory>
    ensures { OnOk result (keys.new.items ≡ keys.old.items ++ own_keys class (field.now ∷ []) (pair ∷ [])) }
{
    if !has_slot(field) {
        return Ok(());
    }
    match keys.push(SlotKey { class, pair }) {
        Ok(()) => Ok(()),
        Err(_) => Err(NoMemory),
    }
}

// The places of the class's own keys among these, by their pairs. Keys without places of 32 bits count as out of memory.
fn places_of(alloc: Global, class: u32, keys: &[SlotKey]) -> Result<HashMap<Pair, u32>, NoMemory>
    ensures { IfOk result (λ table. IsSlotTable class keys.now table) }
{
    if keys.len() > u32::MAX as usize {
        return Err(NoMemory);
    }
    let mut table = HashMap::new(alloc);
    for place in 0..keys.len() {
        add_own(&mut table, class, keys[place], place as u32)?;
    }
    Ok(table)
}

// Adds the place of a key, if it is the class's own and its pair has none.
fn add_own(
    table: &mut HashMap<Pair, u32>,
    class: u32,
    key: SlotKey,
    place: u32,
) -> Result<(), NoMemory>
    ensures { OnOk result ((pair : PlainPair) → place_told table.new pair ≡ option_or (place_told table.old pair) (if is_key class pair key then Some place else None)) }
{
    if key.class != class {
        return Ok(());
    }
    add_place(table, key.pair, place)
}

/// The place of the slot of the field of that pair which the class declares, among the slots of the class.
pub(crate) fn slot_place(tables: &[HashMap<Pair, u32>], class: u32, pair: Pair) -> Option<u32>
    ensures { result ≡ slot_place tables.now class pair }
{
    match tables.get(class as usize) {
        Some(table) => table.get(&pair).copied(),
        None => None,
    }
}
