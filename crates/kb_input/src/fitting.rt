//! The first exact type that fits a declared type, found once for each type.
ghost use Rattle.std.specs.Prelude.{◌≡◌, IfOk, OnOk, IfSome, IfNone};
ghost use Rattle.std.specs.Option.{option_copied};
ghost use Rattle.kb_input.specs.Emitted.{first_fitting};
ghost use Rattle.kb_input.specs.Fitting.{AreFitting, IsKnown};
ghost use Rattle.kb_names.specs.declared.types.JType.{JType as PlainType};

use crate::NoMemory;
use kb_names::{ExactType, JType};
use kb_rows::Row;
use kb_world::World;
use std::alloc::Global;

/// A type, and the first exact type of the universe that fits it.
#[derive(Drop)]
pub(crate) struct Fitting {
    kind: JType,
    first: Option<ExactType>,
}

/// The first exact type of the universe that fits; what was found is kept for the next time.
#[tactic(auto, using(crate::proofs::FittingLaws::fitting_pushed, crate::proofs::FittingLaws::known_pushed, crate::proofs::FittingLaws::still_known))]
pub(crate) fn first_kept(
    alloc: Global,
    world: &World,
    known: &mut Row<Fitting>,
    kind: &JType,
) -> Result<Option<ExactType>, NoMemory>
    requires { AreFitting world.now known.old }
    ensures first { IfOk result (λ first. first ≡ first_fitting world.now kind.now) }
    ensures known { AreFitting world.now known.new }
    ensures found { OnOk result (IsKnown kind.now known.new) }
    ensures kept { (type : PlainType) → IsKnown type known.old → IsKnown type known.new }
{
    if let Some(fitting) = known_for(world, known.as_slice(), kind) {
        return copied(alloc, &fitting.first);
    }
    let fitting = found_for(alloc, world, kind)?;
    let first = copied(alloc, &fitting.first)?;
    known.push(fitting)?;
    Ok(first)
}

// The first exact type that fits, with the type.
fn found_for(alloc: Global, world: &World, kind: &JType) -> Result<Fitting, NoMemory>
    ensures { IfOk result (λ fitting. (fitting.kind ≡ kind.now) × (fitting.first ≡ first_fitting world.now kind.now)) }
{
    let kept = kind.copied(alloc)?;
    let Some(first) = first_fitting(world, kind) else {
        return Ok(Fitting {
            kind: kept,
            first: None,
        });
    };
    let first = first.copied(alloc)?;
    Ok(Fitting {
        kind: kept,
        first: Some(first),
    })
}

// What is known of the type; none only where nothing is.
#[tactic(auto, using(crate::proofs::FittingLaws::known_behind, crate::proofs::FittingLaws::known_first))]
fn known_for<'a>(world: &World, known: &'a [Fitting], kind: &JType) -> Option<&'a Fitting>
    requires { AreFitting world.now known.now }
    ensures first { IfSome (option_copied result) (λ fitting. fitting.first ≡ first_fitting world.now kind.now) }
    ensures some { IfSome (option_copied result) (λ _. IsKnown kind.now known.now) }
    ensures none { IfNone (option_copied result) (IsKnown kind.now known.now → ⊥) }
{
    let mut rest = known;
    while let [first, others @ ..] = rest {
        if first.kind.is_same(kind) {
            return Some(first);
        }
        rest = others;
    }
    None
}

// The first exact type of the universe that fits.
fn first_fitting<'a>(world: &'a World, kind: &JType) -> Option<&'a ExactType>
    ensures { option_copied result ≡ first_fitting world.now kind.now }
{
    let mut rest = world.universe();
    while let [first, others @ ..] = rest {
        if world.subtype(first, kind) {
            return Some(first);
        }
        rest = others;
    }
    None
}

fn copied(alloc: Global, of: &Option<ExactType>) -> Result<Option<ExactType>, NoMemory>
    ensures { IfOk result (λ copy. copy ≡ of.now) }
{
    match of {
        Some(kind) => Ok(Some(kind.copied(alloc)?)),
        None => Ok(None),
    }
}
