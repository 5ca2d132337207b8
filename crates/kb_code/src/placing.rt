//! From instructions as they are read to those of a listing: their targets are looked at, and the handlers.

ghost use Rattle.std.specs.Prelude.{◌≡◌, ◌<◌, ◌^◌, pos, length, IfOk, IfErr};
ghost use Rattle.kb_code.specs.Answers.{each_of, target_of, pair_of, placed, placed_item, is_in_range, handlers_fault};
ghost use Rattle.kb_code.specs.Reading.{Gives};
ghost use Rattle.kb_code.specs.Starts.{AreWithin, IsTableOf, marked, starts_in};

use crate::form::Loose;
use crate::instruction::Instr;
use crate::listing::Handler;
use crate::refusal::CodeRefusal;
use kb_rows::Row;
use std::alloc::Global;

/// A table that says of each offset of the code whether an instruction begins there.
pub fn table_of(
    alloc: Global,
    items: &[(u32, Loose)],
    size: usize,
) -> Result<Vec<bool>, CodeRefusal>
    requires { AreWithin size items.now }
    ensures table { IfOk result (λ table. IsTableOf items.now size table.items) }
    ensures full { IfErr result (λ refusal. refusal ≡ CodeRefusal.NoMemory) }
{
    let mut table = vec![in alloc; false; size]?;
    let mut rest = items;
    while let [item, others @ ..] = rest {
        table[item.0 as usize] = true;
        rest = others;
    }
    Ok(table)
}

/// Whether an instruction begins at the offset.
fn is_start(table: &[bool], at: usize) -> bool
    ensures { result ≡ marked table.now at }
{
    match table.get(at) {
        Some(start) => *start,
        None => false,
    }
}

/// A target of the instruction at `at`, as an offset: an instruction must begin there.
fn target_of(table: &[bool], at: u32, to: i64) -> Result<u32, CodeRefusal>
    requires { length table.now < 2 ^ 32 }
    ensures { Gives (λ t. t) result (target_of (starts_in table.now) at to) }
{
    let Ok(offset) = u32::try_from(to) else {
        return Err(CodeRefusal::Target(at, to));
    };
    if !is_start(table, offset as usize) {
        return Err(CodeRefusal::Target(at, to));
    }
    Ok(offset)
}

/// The targets of the instruction at `at`, as offsets.
fn targets_of(
    alloc: Global,
    table: &[bool],
    at: u32,
    targets: &[i64],
) -> Result<Row<u32>, CodeRefusal>
    requires { length table.now < 2 ^ 32 }
    ensures { Gives (λ ts. ts) result (each_of (target_of (starts_in table.now) at) targets.now) }
{
    let mut offsets = Vec::new(alloc);
    let mut rest = targets;
    while let [to, others @ ..] = rest {
        offsets.push(target_of(table, at, *to)?)?;
        rest = others;
    }
    Ok(Row::from_vec(offsets))
}

/// Ints with their targets as offsets.
fn pairs_of(
    alloc: Global,
    table: &[bool],
    at: u32,
    pairs: &[(i32, i64)],
) -> Result<Row<(i32, u32)>, CodeRefusal>
    requires { length table.now < 2 ^ 32 }
    ensures { Gives (λ ps. ps) result (each_of (pair_of (starts_in table.now) at) pairs.now) }
{
    let mut placed = Vec::new(alloc);
    let mut rest = pairs;
    while let [pair, others @ ..] = rest {
        placed.push((pair.0, target_of(table, at, pair.1)?))?;
        rest = others;
    }
    Ok(Row::from_vec(placed))
}

/// The instruction at `at` with offsets as its targets.
fn placed(alloc: Global, table: &[bool], at: u32, loose: Loose) -> Result<Instr, CodeRefusal>
    requires { length table.now < 2 ^ 32 }
    ensures { Gives (λ instr. instr) result (placed (starts_in table.now) at loose) }
{
    match loose {
        Loose::Straight(instr) => Ok(instr),
        Loose::Jump(branch, to) => {
            let to = target_of(table, at, to)?;
            Ok(branch.instr(to))
        }
        Loose::Table(low, default, targets) => {
            let default = target_of(table, at, default)?;
            let targets = targets_of(alloc, table, at, targets.as_slice())?;
            Ok(Instr::Table(low, default, targets))
        }
        Loose::Lookup(default, pairs) => {
            let default = target_of(table, at, default)?;
            let pairs = pairs_of(alloc, table, at, pairs.as_slice())?;
            Ok(Instr::Lookup(default, pairs))
        }
    }
}

/// The instructions of a listing, with their offsets.
pub fn placed_items(
    alloc: Global,
    table: &[bool],
    items: Vec<(u32, Loose)>,
) -> Result<Vec<(u32, Instr)>, CodeRefusal>
    requires { length table.now < 2 ^ 32 }
    ensures { Gives (λ listing. listing.items) result (each_of (placed_item (starts_in table.now)) items.items) }
{
    let mut listing = Vec::new(alloc);
    for (at, loose) in items {
        let instr = placed(alloc, table, at, loose)?;
        listing.push((at, instr))?;
    }
    Ok(listing)
}

/// Whether a handler is of a range, and its offsets are those of instructions. Its end may be that of the code.
fn is_in_range(table: &[bool], handler: Handler) -> bool
    ensures { result ≡ is_in_range (starts_in table.now) (length table.now) handler }
{
    let end = usize::from(handler.end);
    handler.start < handler.end
        && is_start(table, usize::from(handler.start))
        && (is_start(table, end) || end == table.len())
        && is_start(table, usize::from(handler.target))
}

/// The first fault of the handlers of a code, of whose offsets the table speaks.
pub fn handlers_fault(table: &[bool], handlers: &[Handler]) -> Option<CodeRefusal>
    requires { length handlers.now < 2 ^ 32 }
    ensures { result ≡ handlers_fault (starts_in table.now) (length table.now) 0 handlers.now }
{
    let mut number = 0;
    let mut rest = handlers;
    while let [handler, others @ ..] = rest {
        if !is_in_range(table, *handler) {
            return Some(CodeRefusal::Range(number));
        }
        number += 1;
        rest = others;
    }
    None
}
