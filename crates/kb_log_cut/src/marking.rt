//! The entries of a log that the clause of one number needs.

ghost use Rattle.std.specs.Prelude.{◌≡◌, ℕ, ◌+◌, ◌<◌, ◌≤◌, true, false, [], ◌∷◌, length, slice_index_or, IfOk, ◌⊎◌};
ghost use Rattle.kb_chain.specs.Needed.{cites, is_kept, AreClosed, IsNeeded};

use kb_chain::{Chain, NoMemory};
use std::alloc::Global;

/// Marks the entries that the clause of this number needs, behind the `first` clauses of a formula; its own among them.
pub(crate) fn needed_by(
    alloc: Global,
    first: usize,
    entries: &[Chain],
    number: u32,
) -> Result<Vec<bool>, NoMemory>
    ensures table { IfOk result (λ needed. length needed.items ≡ length entries.now) }
    ensures marked { IfOk result (λ needed. number < first + length entries.now → is_kept first needed.items number ≡ true) }
    ensures closed { IfOk result (λ needed. AreClosed first entries.now needed.items 0) }
    ensures only { IfOk result (λ needed. (i : ℕ) → slice_index_or needed.items i false ≡ true
        → IsNeeded first entries.now (number ∷ []) (first + i)) }
{
    let mut needed = vec![in alloc; false; entries.len()]?;
    mark(needed.as_mut_slice(), first, entries.len(), number);
    let mut end = entries.len();
    while end > 0 {
        end -= 1;
        if needed[end] {
            mark_cited(needed.as_mut_slice(), first, end, &entries[end]);
        }
    }
    Ok(needed)
}

/// Marks the entries that a chain cites, of those before `end`.
fn mark_cited(needed: &mut [bool], first: usize, end: usize, chain: &Chain)
    requires { end ≤ length needed.old }
    ensures kept { (number : ℕ) → is_kept first needed.old number ≡ true → is_kept first needed.new number ≡ true }
    ensures marked { (number : ℕ) → cites chain.now number ≡ true → number < first + end → is_kept first needed.new number ≡ true }
    ensures only { (i : ℕ) → slice_index_or needed.new i false ≡ true
        → (slice_index_or needed.old i false ≡ true) ⊎ ((cites chain.now (first + i) ≡ true) × (i < end)) }
    ensures later { (i : ℕ) → end ≤ i → slice_index_or needed.new i false ≡ slice_index_or needed.old i false }
{
    mark(needed, first, end, chain.start);
    for step in chain.steps.as_slice() {
        mark(needed, first, end, step.1);
    }
}

/// Marks the entry whose clause has this number, if it stands before `end`.
fn mark(needed: &mut [bool], first: usize, end: usize, number: u32)
    requires { end ≤ length needed.old }
    ensures kept { (k : ℕ) → is_kept first needed.old k ≡ true → is_kept first needed.new k ≡ true }
    ensures marked { number < first + end → is_kept first needed.new number ≡ true }
    ensures only { (i : ℕ) → slice_index_or needed.new i false ≡ true
        → (slice_index_or needed.old i false ≡ true) ⊎ ((number ≡ first + i) × (i < end)) }
    ensures later { (i : ℕ) → end ≤ i → slice_index_or needed.new i false ≡ slice_index_or needed.old i false }
{
    let number = number as usize;
    if number < first {
        return;
    }
    let entry = number - first;
    if entry < end {
        needed[entry] = true;
    }
}
