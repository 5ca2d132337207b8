//! Names and types by numbers, and tables of their places.
ghost use Rattle.std.specs.Prelude.{◌≡◌, Some, None, IfOk, OnOk, if◌then◌else◌};
ghost use Rattle.std.specs.Option.{option_or};
ghost use Rattle.kb_numbers.specs.declared.pairs.Pair.{Pair as PlainPair};
ghost use Rattle.kb_numbers.specs.Pairs.{HasFirsts, is_pair, place_told};

use kb_names::NoMemory;
use std::alloc::Global;
use std::collections::HashMap;

/// The name and the type of a member, by the numbers of two texts: the name, and the descriptor of the type.
#[derive(Clone, Copy, PartialEq, Eq, Hash)]
pub struct Pair {
    pub name: u32,
    pub kind: u32,
}

/// What an entry names that names a member: the type in which it is sought, by the number of its text, and the member.
#[derive(Clone, Copy, PartialEq, Eq, Hash)]
pub struct EntryNumbers {
    pub class: u32,
    pub member: Pair,
}

/// The first place of each of these pairs. Pairs without places of 32 bits count as out of memory.
pub(crate) fn first_places(alloc: Global, pairs: &[Pair]) -> Result<HashMap<Pair, u32>, NoMemory>
    ensures { IfOk result (λ table. HasFirsts table pairs.now) }
{
    if pairs.len() > u32::MAX as usize {
        return Err(NoMemory);
    }
    let mut table = HashMap::new(alloc);
    for place in 0..pairs.len() {
        add_place(&mut table, pairs[place], place as u32)?;
    }
    Ok(table)
}

/// Adds the place of the pair, unless it has one.
pub fn add_place(table: &mut HashMap<Pair, u32>, pair: Pair, place: u32) -> Result<(), NoMemory>
    ensures { OnOk result ((other : PlainPair) → place_told table.new other ≡ option_or (place_told table.old other) (if is_pair pair other then Some place else None)) }
{
    if table.contains_key(&pair) {
        return Ok(());
    }
    table.insert(pair, place)?;
    Ok(())
}
