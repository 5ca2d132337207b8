//! The text of a replay: the lines on each test, and a total.

ghost use Rattle.std.specs.Prelude.{◌≡◌, ◌++◌, IfOk, OnOk};
ghost use Rattle.kiasan.specs.Verdicts.{verdict_text, verdicts_text, replay_total, replay_text};

use crate::NoMemory;
use crate::replay::count_differs;
use kb_replay::Replayed;
use kb_test::{Test, write_run};
use std::alloc::Global;

/// The text of a replay in a world of so many literals.
#[tactic(auto, unfolding(crate::specs::Verdicts::replay_text))]
pub fn replay_text(
    alloc: Global,
    literals: u32,
    tests: &[Test],
    replayed: &[Replayed],
) -> Result<Vec<u8>, NoMemory>
    ensures { IfOk result (λ text. text.items ≡ replay_text literals tests.now replayed.now) }
{
    let mut text = Vec::new(alloc);
    write_verdicts(alloc, literals, tests, replayed, &mut text)?;
    write_total(alloc, replayed, &mut text)?;
    Ok(text)
}

#[tactic(auto, unfolding(crate::specs::Verdicts::verdicts_text))]
fn write_verdicts(
    alloc: Global,
    literals: u32,
    tests: &[Test],
    replayed: &[Replayed],
    text: &mut Vec<u8>,
) -> Result<(), NoMemory>
    ensures { OnOk result (text.new.items ≡ text.old.items ++ verdicts_text literals 0 replayed.now tests.now) }
{
    let mut number: usize = 0;
    let mut rest = replayed;
    let mut tests = tests;
    while let [verdict, others @ ..] = rest {
        let [test, other_tests @ ..] = tests else {
            return Ok(());
        };
        write_verdict(alloc, literals, number, test, verdict, text)?;
        number += 1;
        tests = other_tests;
        rest = others;
    }
    Ok(())
}

#[tactic(auto, unfolding(crate::specs::Verdicts::verdict_text))]
fn write_verdict(
    alloc: Global,
    literals: u32,
    number: usize,
    test: &Test,
    verdict: &Replayed,
    text: &mut Vec<u8>,
) -> Result<(), NoMemory>
    ensures { OnOk result (text.new.items ≡ text.old.items ++ verdict_text literals number test.now verdict.now) }
{
    match verdict {
        Replayed::Passes => {
            let line = format!(in alloc; "test {number} passes\n")?;
            text.extend_from_slice(line.as_bytes())?;
            Ok(())
        }
        Replayed::Differs(ending, heap) => {
            let line = format!(in alloc; "test {number} differs\n")?;
            text.extend_from_slice(line.as_bytes())?;
            let Ok(inputs) = u32::try_from(test.input.heap.objects.as_slice().len()) else {
                return Err(NoMemory);
            };
            write_run(alloc, ending, heap, inputs, literals, text)?;
            Ok(())
        }
    }
}

#[tactic(auto, unfolding(crate::specs::Verdicts::replay_total))]
fn write_total(alloc: Global, replayed: &[Replayed], text: &mut Vec<u8>) -> Result<(), NoMemory>
    ensures { OnOk result (text.new.items ≡ text.old.items ++ replay_total replayed.now) }
{
    let total = replayed.len();
    let differed = count_differs(replayed);
    let passed = total - differed;
    let line = format!(in alloc; "tests {total} passed {passed} differed {differed}\n")?;
    text.extend_from_slice(line.as_bytes())?;
    Ok(())
}
