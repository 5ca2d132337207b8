//! The alternatives of an index into an array, and of the length of an array that is to be made.
ghost use Rattle.std.specs.Prelude.{◌≡◌, ◌<◌, ◌^◌, ◌++◌, ◌∷◌, [], map, suc, IfOk, OnOk};
ghost use Rattle.kb_semantics.specs.Looks.{numbers_below};
ghost use Rattle.kb_terms.specs.Terms.{IsTerm};
ghost use Rattle.kb_picture.specs.declared.choice.Choice.TheVariants.{Index, Negative, Outside, Size, TooLarge};
ghost use Rattle.kb_ways.specs.Choosing.{index_choices, index_conditions, length_choices, length_conditions, not_refuted};

use crate::NoMemory;
use kb_frames::SymState;
use kb_picture::Choice;
use kb_terms::TermId;
use kb_ways::{above_count, equals_count, is_against, negative, offer, outside_count};
use std::alloc::Global;

// ---- an index

/// The alternatives of an index into an array of so many elements that ask for nothing that is decided as false: the places in
/// rising order, then outside. It takes time in proportion to the elements.
pub fn index_alternatives(
    alloc: Global,
    state: &SymState,
    x: TermId,
    count: u32,
) -> Result<Vec<Choice>, NoMemory>
    requires term { IsTerm state.now.nodes x }
    requires counted { count < 2 ^ 31 }
    ensures { IfOk result (λ choices. choices.items ≡ not_refuted state.now (index_conditions x count) (index_choices count)) }
{
    let mut choices = Vec::new(alloc);
    offer_places(state, x, count, &mut choices)?;
    offer_outside(state, x, count, &mut choices)?;
    Ok(choices)
}

// Adds each place.
fn offer_places(
    state: &SymState,
    x: TermId,
    count: u32,
    choices: &mut Vec<Choice>,
) -> Result<(), NoMemory>
    requires term { IsTerm state.now.nodes x }
    requires counted { count < 2 ^ 31 }
    ensures { OnOk result (choices.new.items ≡ choices.old.items ++ not_refuted state.now (index_conditions x count) (map Index (numbers_below count))) }
{
    for place in 0..count {
        offer_place(state, x, count, place, choices)?;
    }
    Ok(())
}

// Adds a place, unless it is decided that the index is another.
#[tactic(auto, using(kb_ways::proofs::SideLaws::key_sides))]
fn offer_place(
    state: &SymState,
    x: TermId,
    _count: u32,
    place: u32,
    choices: &mut Vec<Choice>,
) -> Result<(), NoMemory>
    requires term { IsTerm state.now.nodes x }
    requires counted { place < 2 ^ 31 }
    ensures { OnOk result (choices.new.items ≡ choices.old.items ++ not_refuted state.now (index_conditions x _count) (Index place ∷ [])) }
{
    offer(
        state,
        &equals_count(x, place),
        Choice::Index(place),
        choices,
    )
}

// Adds outside, unless it is decided that the index is a place.
#[tactic(auto, using(kb_ways::proofs::SideLaws::below_sides, kb_ways::proofs::OfferLaws::outside_asks))]
fn offer_outside(
    state: &SymState,
    x: TermId,
    count: u32,
    choices: &mut Vec<Choice>,
) -> Result<(), NoMemory>
    requires term { IsTerm state.now.nodes x }
    requires counted { count < 2 ^ 31 }
    ensures { OnOk result (choices.new.items ≡ choices.old.items ++ not_refuted state.now (index_conditions x count) (Outside ∷ [])) }
{
    if count == 0 {
        choices.push(Choice::Outside)?;
        return Ok(());
    }
    offer(state, &outside_count(x, count), Choice::Outside, choices)
}

// ---- a length

/// The alternatives of a length that ask for nothing that is decided as false: negative, each length up to the bound in rising
/// order, then above it. It takes time in proportion to the bound.
pub fn length_alternatives(
    alloc: Global,
    state: &SymState,
    x: TermId,
    most: u32,
) -> Result<Vec<Choice>, NoMemory>
    requires term { IsTerm state.now.nodes x }
    requires counted { most < 2 ^ 31 }
    ensures { IfOk result (λ choices. choices.items ≡ not_refuted state.now (length_conditions x most) (length_choices most)) }
{
    let mut choices = Vec::new(alloc);
    offer_negative(state, x, most, &mut choices)?;
    offer_sizes(state, x, most, &mut choices)?;
    offer_above(state, x, most, &mut choices)?;
    Ok(choices)
}

// Adds the negative lengths, unless it is decided that it is none.
#[tactic(auto, using(kb_ways::proofs::SideLaws::negative_sides))]
fn offer_negative(
    state: &SymState,
    x: TermId,
    _most: u32,
    choices: &mut Vec<Choice>,
) -> Result<(), NoMemory>
    requires { IsTerm state.now.nodes x }
    ensures { OnOk result (choices.new.items ≡ choices.old.items ++ not_refuted state.now (length_conditions x _most) (Negative ∷ [])) }
{
    offer(state, &negative(x, true), Choice::Negative, choices)
}

// Adds each length up to the bound.
fn offer_sizes(
    state: &SymState,
    x: TermId,
    most: u32,
    choices: &mut Vec<Choice>,
) -> Result<(), NoMemory>
    requires term { IsTerm state.now.nodes x }
    requires counted { most < 2 ^ 31 }
    ensures { OnOk result (choices.new.items ≡ choices.old.items ++ not_refuted state.now (length_conditions x most) (map Size (numbers_below (suc most)))) }
{
    for count in 0..most {
        offer_size(state, x, most, count, choices)?;
    }
    offer_size(state, x, most, most, choices)
}

// Adds a length, unless it is decided that it is another.
#[tactic(auto, using(kb_ways::proofs::SideLaws::key_sides))]
fn offer_size(
    state: &SymState,
    x: TermId,
    _most: u32,
    count: u32,
    choices: &mut Vec<Choice>,
) -> Result<(), NoMemory>
    requires term { IsTerm state.now.nodes x }
    requires counted { count < 2 ^ 31 }
    ensures { OnOk result (choices.new.items ≡ choices.old.items ++ not_refuted state.now (length_conditions x _most) (Size count ∷ [])) }
{
    offer(state, &equals_count(x, count), Choice::Size(count), choices)
}

// Adds the lengths above the bound, unless it is decided that it is none.
#[tactic(auto, using(kb_ways::proofs::SideLaws::negative_sides, kb_ways::proofs::SideLaws::above_sides))]
fn offer_above(
    state: &SymState,
    x: TermId,
    most: u32,
    choices: &mut Vec<Choice>,
) -> Result<(), NoMemory>
    requires term { IsTerm state.now.nodes x }
    requires counted { most < 2 ^ 31 }
    ensures { OnOk result (choices.new.items ≡ choices.old.items ++ not_refuted state.now (length_conditions x most) (TooLarge ∷ [])) }
{
    if is_against(state, &negative(x, false)) {
        return Ok(());
    }
    offer(state, &above_count(x, most), Choice::TooLarge, choices)
}
