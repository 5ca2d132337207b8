//! What the alternatives of an index into an array ask for, and those of the length of an array that is to be made.
ghost use Rattle.std.specs.Prelude.{◌≡◌, ◌<◌, ◌≤◌, ◌^◌, ◌++◌, ◌∷◌, [], cond, OnOk};
ghost use Rattle.kb_terms.specs.Terms.{IsTerm};
ghost use Rattle.kb_picture.specs.declared.choice.Choice.TheVariants.{TooLarge};
ghost use Rattle.kb_ways.specs.Asked.{all_asked, asked_truth, is_against};
ghost use Rattle.kb_ways.specs.Choosing.{index_conditions, length_conditions};
ghost use Rattle.kb_ways.specs.Needs.{AreSides, IsAnswerOf};
ghost use Rattle.kb_ways.specs.declared.question.Question.TheVariants as questions;

use crate::NoMemory;
use crate::asked::{ask, is_against};
use crate::condition::{Condition, above_count, equals_count, negative, outside_count};
use kb_frames::SymState;
use kb_picture::Choice;
use kb_terms::TermId;

/// Adds an alternative with one condition to a list, unless the condition is decided as false.
pub fn offer(
    state: &SymState,
    condition: &Condition,
    choice: Choice,
    choices: &mut Vec<Choice>,
) -> Result<(), NoMemory>
    requires { AreSides state.now.nodes condition.now }
    ensures { OnOk result (choices.new.items ≡ cond (is_against (asked_truth state.now condition.now) condition.now.truth) choices.old.items (choices.old.items ++ choice ∷ [])) }
{
    if is_against(state, condition) {
        return Ok(());
    }
    choices.push(choice)?;
    Ok(())
}

/// Adds what an alternative of an index asks for.
#[tactic(auto, using(crate::proofs::SideLaws::key_sides, crate::proofs::SideLaws::below_sides, crate::proofs::OfferLaws::outside_asks))]
pub(crate) fn ask_index(
    state: &mut SymState,
    x: TermId,
    count: u32,
    choice: &Choice,
) -> Result<(), NoMemory>
    requires term { IsTerm state.old.nodes x }
    requires counted { count < 2 ^ 31 }
    requires answer { IsAnswerOf (questions.Index x count) choice.now }
    ensures { OnOk result (state.new ≡ all_asked state.old (index_conditions x count choice.now)) }
{
    match choice {
        Choice::Index(place) => ask(state, &equals_count(x, *place)),
        Choice::Outside => {
            if count == 0 {
                return Ok(());
            }
            ask(state, &outside_count(x, count))
        }
        _ => Ok(()),
    }
}

/// Adds what an alternative of a length asks for.
#[tactic(auto, using(crate::proofs::SideLaws::key_sides, crate::proofs::SideLaws::negative_sides))]
pub(crate) fn ask_length(
    state: &mut SymState,
    x: TermId,
    most: u32,
    choice: &Choice,
) -> Result<(), NoMemory>
    requires term { IsTerm state.old.nodes x }
    requires counted { most < 2 ^ 31 }
    requires answer { IsAnswerOf (questions.Length x most) choice.now }
    ensures { OnOk result (state.new ≡ all_asked state.old (length_conditions x most choice.now)) }
{
    match choice {
        Choice::Negative => ask(state, &negative(x, true)),
        Choice::Size(count) => ask(state, &equals_count(x, *count)),
        Choice::TooLarge => ask_above(state, x, most),
        _ => Ok(()),
    }
}

// That a length is above the bound.
#[tactic(auto, using(crate::proofs::SideLaws::negative_sides, crate::proofs::SideLaws::above_sides, crate::proofs::SideLaws::term_asked))]
fn ask_above(state: &mut SymState, x: TermId, most: u32) -> Result<(), NoMemory>
    requires term { IsTerm state.old.nodes x }
    requires counted { most < 2 ^ 31 }
    ensures { OnOk result (state.new ≡ all_asked state.old (length_conditions x most TooLarge)) }
{
    ask(state, &negative(x, false))?;
    ask(state, &above_count(x, most))
}
