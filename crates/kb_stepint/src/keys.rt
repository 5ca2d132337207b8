//! The keys of a switch.
ghost use Rattle.std.specs.Prelude.{◌≡◌, ◌+ℤ◌, pos, Some, length, slice_get, FitsSigned, IfOk};
ghost use Rattle.std.specs.Int.{w32};
ghost use Rattle.kb_semantics.specs.Comparisons.{table_keys};
ghost use Rattle.kb_stepint.specs.Keys.{keys_of};

use crate::NoMemory;

/// The keys of a switch and their targets: those of a tableswitch from the lowest one on, or those of a lookupswitch in rising
/// order.
#[derive(Clone, Copy)]
pub(crate) enum Keys<'w> {
    Table(i32, &'w [u32]),
    Lookup(&'w [(i32, u32)]),
}

impl Keys<'_> {
    #[tactic(auto, using(crate::proofs::KeyLaws::table_many))]
    pub(crate) fn len(&self) -> usize
        ensures { result ≡ length (keys_of self.now) }
    {
        match self {
            Keys::Table(_, targets) => targets.len(),
            Keys::Lookup(keys) => keys.len(),
        }
    }

    /// The key of that place, and its target. A place where there is none, and a table whose keys are more than ints can be,
    /// which no class file has, are refused.
    pub(crate) fn key_at(&self, place: usize) -> Result<(i32, u32), NoMemory>
        ensures key { IfOk result (λ key. slice_get (keys_of self.now) place ≡ Some key) }
        ensures range { IfOk result (λ key. FitsSigned w32 key.0) }
    {
        match self {
            Keys::Table(low, targets) => table_entry(*low, targets, place),
            Keys::Lookup(keys) => lookup_entry(keys, place),
        }
    }
}

fn table_entry(low: i32, targets: &[u32], place: usize) -> Result<(i32, u32), NoMemory>
    ensures key { IfOk result (λ key. slice_get (table_keys low targets.now) place ≡ Some key) }
    ensures range { IfOk result (λ key. FitsSigned w32 key.0) }
{
    let Some(target) = targets.get(place) else {
        return Err(NoMemory);
    };
    let key = table_key(low, place)?;
    Ok((key, *target))
}

fn lookup_entry(keys: &[(i32, u32)], place: usize) -> Result<(i32, u32), NoMemory>
    ensures key { IfOk result (λ key. slice_get keys.now place ≡ Some key) }
    ensures range { IfOk result (λ key. FitsSigned w32 key.0) }
{
    match keys.get(place) {
        Some((value, target)) => Ok((*value, *target)),
        None => Err(NoMemory),
    }
}

// The key of that place behind the lowest one.
fn table_key(low: i32, place: usize) -> Result<i32, NoMemory>
    ensures key { IfOk result (λ key. key ≡ low +ℤ pos place) }
    ensures range { IfOk result (λ key. FitsSigned w32 key) }
{
    let Ok(place) = i32::try_from(place) else {
        return Err(NoMemory);
    };
    low.checked_add(place).ok_or(NoMemory)
}
