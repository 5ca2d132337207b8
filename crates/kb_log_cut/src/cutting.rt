//! A log without the entries that its last one does not need.

ghost use Rattle.std.specs.Prelude.{◌≡◌, ℕ, ◌+◌, ◌-◌, ◌<◌, ◌≤◌, ◌^◌, true, false, [], ◌∷◌, length, slice_index_or, IfOk};
ghost use Rattle.kb_chain.specs.Chains.{IsRefutation};
ghost use Rattle.kb_log_cut.specs.Cutting.{Marking, number_among, renumbered, marked_entries, numbers_before, IsCut};

use crate::marking::needed_by;
use kb_chain::{Chain, Formula, Log, NoMemory, Row};
use std::alloc::Global;
use std::marker::Model;

/// The entries of a log that its last one needs, and it, with new numbers. Where formula and log have 2^32 clauses or more,
/// the call finds no memory.
pub fn cut(alloc: Global, formula: &Formula, entries: &[Chain]) -> Result<Log, NoMemory>
    ensures cut { IfOk result (λ log. IsCut (length formula.now.clauses) entries.now log.entries) }
    ensures refutes { IfOk result (λ log. IsRefutation formula.now.clauses entries.now → IsRefutation formula.now.clauses log.entries) }
    ensures length { IfOk result (λ log. length log.entries ≤ length entries.now) }
{
    let first = formula.clauses().len();
    if first + entries.len() > u32::MAX as usize {
        return Err(NoMemory);
    }
    cut_behind(alloc, first as u32, entries)
}

/// The entries that the last one needs, and it, behind the `first` clauses of a formula.
fn cut_behind(alloc: Global, first: u32, entries: &[Chain]) -> Result<Log, NoMemory>
    requires { first + length entries.now < 2 ^ 32 }
    ensures { IfOk result (λ log. IsCut first entries.now log.entries) }
{
    let last = first as usize + entries.len().saturating_sub(1);
    let needed = needed_by(alloc, first as usize, entries, last as u32)?;
    let numbering = Numbering::new(alloc, first, needed)?;
    Ok(Log {
        entries: numbering.marked_entries(alloc, entries)?,
    })
}

/// The numbers that clauses have where only marked entries stand behind a formula.
#[derive(Drop)]
struct Numbering {
    first: u32,
    marks: Vec<bool>,
    /// By entry, and one more behind the last.
    numbers: Vec<u32>,
}

impl Model for Numbering {
    ghost use Rattle.std.specs.Prelude.{◌≡◌, ◌+◌, length};
    ghost use Rattle.kb_log_cut.specs.Cutting.{Marking, numbers_before};

    ghost Value = { Marking };

    ghost view = { λ n. record {
      first = n.first;
      marks = n.marks.items;
    } };

    ghost invariant = { λ n. n.numbers.items ≡ numbers_before (record { first = n.first; marks = n.marks.items }) (length n.marks.items + 1) };
}

impl Numbering {
    fn new(alloc: Global, first: u32, marks: Vec<bool>) -> Result<Numbering, NoMemory>
        requires { first + length marks.items < 2 ^ 32 }
        ensures { IfOk result (λ n. n ≡ record { first = first; marks = marks.items }) }
    {
        let numbers = numbers_of(alloc, first, marks.as_slice())?;
        Ok(Numbering {
            first,
            marks,
            numbers,
        })
    }

    /// The number that a clause has now.
    fn number(&self, number: u32) -> u32
        ensures { result ≡ number_among self.now number }
    {
        if number < self.first {
            return number;
        }
        let entry = (number - self.first) as usize;
        if entry < self.marks.len() {
            return self.numbers[entry];
        }
        self.numbers[self.marks.len()]
    }

    fn chain(&self, alloc: Global, chain: &Chain) -> Result<Chain, NoMemory>
        ensures { IfOk result (λ later. later ≡ renumbered (number_among self.now) chain.now) }
    {
        let mut steps = Row::new(alloc);
        let mut rest = chain.steps.as_slice();
        while let [step, others @ ..] = rest {
            steps.push((step.0, self.number(step.1)))?;
            rest = others;
        }
        Ok(Chain {
            start: self.number(chain.start),
            steps,
        })
    }

    /// The marked ones of the entries.
    fn marked_entries(&self, alloc: Global, entries: &[Chain]) -> Result<Row<Chain>, NoMemory>
        requires { length self.now.marks ≡ length entries.now }
        ensures { IfOk result (λ kept. kept ≡ marked_entries self.now 0 entries.now) }
    {
        let mut kept = Row::new(alloc);
        for number in 0..entries.len() {
            if self.marks[number] {
                kept.push(self.chain(alloc, &entries[number])?)?;
            }
        }
        Ok(kept)
    }
}

/// The numbers that the marked entries have behind the `first` clauses of a formula; an entry that is not marked has that of
/// the next one.
fn numbers_of(alloc: Global, first: u32, marks: &[bool]) -> Result<Vec<u32>, NoMemory>
    requires { first + length marks.now < 2 ^ 32 }
    ensures { IfOk result (λ numbers. numbers.items ≡ numbers_before (record { first = first; marks = marks.now }) (length marks.now + 1)) }
{
    let mut numbers = Vec::with_capacity(alloc, marks.len() + 1)?;
    let mut next = first;
    for entry in 0..marks.len() {
        numbers.push(next)?;
        if marks[entry] {
            next += 1;
        }
    }
    numbers.push(next)?;
    Ok(numbers)
}
