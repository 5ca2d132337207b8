//! The first method of each pair.
ghost use Rattle.std.specs.Prelude.{◌≡◌, ◌++◌, map, IfOk, OnOk};
ghost use Rattle.kb_numbers.specs.Members.{method_pairs};
ghost use Rattle.kb_numbers.specs.Pairs.{AreFirsts, place_in};

use crate::class_numbers::ClassNumbers;
use crate::numbering::Numbers;
use crate::pairs::{Pair, first_places};
use kb_names::NoMemory;
use std::alloc::Global;
use std::collections::HashMap;

/// Of each method of the classes the number of the first one that has its pair, and so its name and type.
pub fn first_methods(alloc: Global, numbers: &Numbers) -> Result<Vec<u32>, NoMemory>
    ensures { IfOk result (λ firsts. AreFirsts (method_pairs numbers.now.classes.items) firsts.items) }
{
    let pairs = method_pairs(alloc, numbers.classes.as_slice())?;
    let firsts = firsts_of(alloc, pairs.as_slice())?;
    Ok(firsts)
}

// Of each of these pairs its first place.
fn firsts_of(alloc: Global, pairs: &[Pair]) -> Result<Vec<u32>, NoMemory>
    ensures { IfOk result (λ firsts. AreFirsts pairs.now firsts.items) }
{
    let table = first_places(alloc, pairs)?;
    let firsts = places_in(alloc, &table, pairs)?;
    Ok(firsts)
}

// The pairs of the methods of all classes.
fn method_pairs(alloc: Global, classes: &[ClassNumbers]) -> Result<Vec<Pair>, NoMemory>
    ensures { IfOk result (λ pairs. pairs.items ≡ method_pairs classes.now) }
{
    let mut pairs = Vec::new(alloc);
    for own in classes {
        push_pairs(own.methods(), &mut pairs)?;
    }
    Ok(pairs)
}

fn push_pairs(more: &[Pair], pairs: &mut Vec<Pair>) -> Result<(), NoMemory>
    ensures { OnOk result (pairs.new.items ≡ pairs.old.items ++ more.now) }
{
    for pair in more {
        pairs.push(*pair)?;
    }
    Ok(())
}

// The place that the table has for each of these pairs.
fn places_in(
    alloc: Global,
    table: &HashMap<Pair, u32>,
    pairs: &[Pair],
) -> Result<Vec<u32>, NoMemory>
    ensures { IfOk result (λ places. places.items ≡ map (place_in table.now) pairs.now) }
{
    let mut places = Vec::new(alloc);
    for pair in pairs {
        places.push(place_in(table, *pair))?;
    }
    Ok(places)
}

// The place that the table has for a pair; 0 where it has none.
fn place_in(table: &HashMap<Pair, u32>, pair: Pair) -> u32
    ensures { result ≡ place_in table.now pair }
{
    match table.get(&pair) {
        Some(place) => *place,
        None => 0,
    }
}
