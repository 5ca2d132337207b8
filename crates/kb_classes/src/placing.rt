//! The places of instructions by their offsets.
ghost use Rattle.std.specs.Prelude.{◌≡◌, ℕ, Some, IfOk, IfSome};
ghost use Rattle.std.specs.Option.{option_copied};
ghost use Rattle.kb_code.specs.Listing.{IsLaidOut};
ghost use Rattle.kb_classes.specs.World.{methods_in};
ghost use Rattle.kb_classes.specs.Rules.{HasWholeCode, HaveOwnMethods};
ghost use Rattle.kb_classes.specs.Methods.{HasPlaces, method_in};
ghost use Rattle.kb_classes.specs.Placing.{place_of_offset, placed_at, IsPlacing, ArePlacings};

use crate::classes::Classes;
use crate::methods::MethodPlace;
use kb_class::MethodInfo;
use kb_code::Instr;
use kb_names::{NoMemory, Row};
use std::alloc::Global;

/// A table of each method, in the order of their numbers: at each offset of its code the place of the instruction there.
pub fn placings_of(
    alloc: Global,
    classes: &Classes,
    places: &[MethodPlace],
) -> Result<Vec<Row<Option<u32>>>, NoMemory>
    requires { HasPlaces classes.now places.now × HaveOwnMethods classes.now }
    ensures { IfOk result (λ tables. ArePlacings (methods_in classes.now) tables.items) }
{
    let mut tables = Vec::new(alloc);
    for place in places {
        let table = placing_at(alloc, classes, *place)?;
        tables.push(table)?;
    }
    Ok(tables)
}

// The table of the method that stands there.
fn placing_at(
    alloc: Global,
    classes: &Classes,
    at: MethodPlace,
) -> Result<Row<Option<u32>>, NoMemory>
    requires { IfSome (method_in classes.now at) HasWholeCode }
    ensures { IfOk result (IsPlacing (method_in classes.now at)) }
{
    match method_there(classes, at) {
        Some(method) => placing_of_method(alloc, method),
        None => Ok(Row::new(alloc)),
    }
}

fn method_there(classes: &Classes, at: MethodPlace) -> Option<&MethodInfo>
    ensures { option_copied result ≡ method_in classes.now at }
{
    let class = classes.as_slice().get(at.class as usize)?;
    class.methods().get(at.place as usize)
}

fn placing_of_method(alloc: Global, method: &MethodInfo) -> Result<Row<Option<u32>>, NoMemory>
    requires { HasWholeCode method.now }
    ensures { IfOk result (IsPlacing (Some method.now)) }
{
    match &method.code {
        Some(code) => placing_of(alloc, code.listing.items.as_slice(), code.size),
        None => Ok(Row::new(alloc)),
    }
}

// The table of the instructions of a code of that size.
#[tactic(auto, using(crate::proofs::Filling::at_first, crate::proofs::Filling::at_last))]
fn placing_of(
    alloc: Global,
    items: &[(u32, Instr)],
    size: u32,
) -> Result<Row<Option<u32>>, NoMemory>
    requires { IsLaidOut items.now size }
    ensures { IfOk result (λ table. (at : ℕ) → placed_at table at ≡ place_of_offset items.now at) }
{
    let mut table = vec![in alloc; None; size as usize]?;
    let mut place = 0;
    let mut rest = items;
    while let [item, others @ ..] = rest {
        table[item.0 as usize] = Some(place);
        place += 1;
        rest = others;
    }
    Ok(Row::from_vec(table))
}

/// What a table has at an offset: None behind its end.
pub fn placed_at(table: &[Option<u32>], at: u32) -> Option<u32>
    ensures { result ≡ placed_at table.now at }
{
    *table.get(at as usize)?
}
