//! Selection (JVMS 8 section 5.4.6) by tables: which method is called where the receiver is of a class.
ghost use Rattle.std.specs.Prelude.{◌≡◌, ◌+◌, ◌<◌, ◌^◌, ◌∷◌, [], length, IfOk, OnOk};
ghost use Rattle.kb_link.specs.Links.{IsLinked};
ghost use Rattle.kb_classes.specs.World.{methods_in};
ghost use Rattle.kb_resolution.specs.Tables.{AddsClass, AddsFirst, AddsOpen, AreSelected, HaveFirsts, HaveSignatures, HaveSelections, IsSelection, selected_by, selected_in};

use crate::methods::is_open;
use crate::signatures::signatures_of;
use kb_class::{ClassId, MethodInfo};
use kb_link::Linked;
use kb_names::NoMemory;
use std::alloc::Global;
use std::collections::HashMap;

/// Of each method its signature, and of each class the methods that are selected in it, by their signatures. A class has an
/// entry for each signature of the methods, neither private nor static, that it declares or inherits, and no more.
#[derive(Drop)]
pub struct Selection {
    pub signatures: Vec<u32>,
    pub tables: Vec<HashMap<u32, u32>>,
}

/// What is selected, for each class and method. Methods without numbers of 32 bits count as out of memory.
pub fn selection_of(alloc: Global, linked: &Linked) -> Result<Selection, NoMemory>
    requires { IsLinked linked.now }
    ensures { IfOk result (AreSelected linked.now) }
{
    if linked.method_count() > u32::MAX as usize {
        return Err(NoMemory);
    }
    let signatures = signatures_of(alloc, linked)?;
    let tables = tables_of(alloc, linked, signatures.as_slice())?;
    Ok(Selection { signatures, tables })
}

// The table of each class.
fn tables_of(
    alloc: Global,
    linked: &Linked,
    signatures: &[u32],
) -> Result<Vec<HashMap<u32, u32>>, NoMemory>
    requires { IsLinked linked.now × HaveSignatures linked.now signatures.now × (length (methods_in linked.now.classes) < 2 ^ 32) }
    ensures { IfOk result (λ tables. HaveSelections linked.now tables.items) }
{
    let firsts = firsts_of(alloc, linked)?;
    let mut tables = Vec::new(alloc);
    for number in 0..linked.class_count() {
        let table = table_of(
            alloc,
            linked,
            signatures,
            firsts.as_slice(),
            ClassId(number),
        )?;
        tables.push(table)?;
    }
    Ok(tables)
}

// The number of the first method of each class.
fn firsts_of(alloc: Global, linked: &Linked) -> Result<Vec<u32>, NoMemory>
    requires { length (methods_in linked.now.classes) < 2 ^ 32 }
    ensures { IfOk result (λ firsts. HaveFirsts linked.now firsts.items) }
{
    let mut firsts = Vec::new(alloc);
    let mut first = 0;
    for number in 0..linked.class_count() {
        firsts.push(first)?;
        first = number_behind(first, linked.class_of(ClassId(number)).methods());
    }
    Ok(firsts)
}

// The number behind those of these methods, of which the first has that number.
fn number_behind(first: u32, methods: &[MethodInfo]) -> u32
    requires { first + length methods.now < 2 ^ 32 }
    ensures { result ≡ first + length methods.now }
{
    first + methods.len() as u32
}

// The methods that are selected in the class: of each signature the first one from the class upwards that is neither private
// nor static.
fn table_of(
    alloc: Global,
    linked: &Linked,
    signatures: &[u32],
    firsts: &[u32],
    class: ClassId,
) -> Result<HashMap<u32, u32>, NoMemory>
    requires { IsLinked linked.now × HaveSignatures linked.now signatures.now × HaveFirsts linked.now firsts.now × (length (methods_in linked.now.classes) < 2 ^ 32) × (class.0 < length linked.now.classes) }
    ensures { IfOk result (λ table. IsSelection linked.now class.0 (selected_in table)) }
{
    let mut table = HashMap::new(alloc);
    let mut rest = linked.chain_of(class);
    while let [number, others @ ..] = rest {
        add_class(linked, signatures, firsts, *number, &mut table)?;
        rest = others;
    }
    Ok(table)
}

// Adds the methods that a class declares and that are neither private nor static, where there is none of their signatures.
fn add_class(
    linked: &Linked,
    signatures: &[u32],
    firsts: &[u32],
    class: u32,
    table: &mut HashMap<u32, u32>,
) -> Result<(), NoMemory>
    requires { IsLinked linked.now × HaveSignatures linked.now signatures.now × HaveFirsts linked.now firsts.now × (length (methods_in linked.now.classes) < 2 ^ 32) }
    ensures { OnOk result (AddsClass linked.now class (selected_in table.old) (selected_in table.new)) }
{
    match firsts.get(class as usize) {
        Some(first) => {
            let methods = linked.class_of(ClassId(class)).methods();
            add_methods(signatures, methods, *first, table)
        }
        None => Ok(()),
    }
}

// Adds those of these methods, of which the first has that number.
fn add_methods(
    signatures: &[u32],
    methods: &[MethodInfo],
    first: u32,
    table: &mut HashMap<u32, u32>,
) -> Result<(), NoMemory>
    requires { first + length methods.now < 2 ^ 32 }
    ensures { OnOk result (AddsOpen signatures.now first methods.now (selected_in table.old) (selected_in table.new)) }
{
    let mut number = first;
    let mut rest = methods;
    while let [method, others @ ..] = rest {
        add_method(signatures, method, number, table)?;
        number += 1;
        rest = others;
    }
    Ok(())
}

// Adds the method where it is neither private nor static, and there is none of its signature.
fn add_method(
    signatures: &[u32],
    method: &MethodInfo,
    number: u32,
    table: &mut HashMap<u32, u32>,
) -> Result<(), NoMemory>
    ensures { OnOk result (AddsOpen signatures.now number (method.now ∷ []) (selected_in table.old) (selected_in table.new)) }
{
    if !is_open(method) {
        return Ok(());
    }
    match signatures.get(number as usize) {
        Some(signature) => add_first(*signature, number, table),
        None => Ok(()),
    }
}

// Adds the method of the signature, unless there is one.
fn add_first(signature: u32, number: u32, table: &mut HashMap<u32, u32>) -> Result<(), NoMemory>
    ensures { OnOk result (AddsFirst signature number (selected_in table.old) (selected_in table.new)) }
{
    if table.contains_key(&signature) {
        return Ok(());
    }
    table.insert(signature, number)?;
    Ok(())
}

/// What is called in place of the method where the receiver is of the class: one look into the table of the class.
pub fn selected_by(told: &Selection, class: u32, method: u32) -> Option<u32>
    ensures { result ≡ selected_by told.now class method }
{
    match (
        told.signatures.get(method as usize),
        told.tables.get(class as usize),
    ) {
        (Some(signature), Some(table)) => table.get(signature).copied(),
        _ => None,
    }
}
