//! Where a reader of tests stands after some lines.
ghost use Rattle.std.specs.Prelude.{◌≡◌, [], ◌∷◌, ◌++◌, length, IfOk};
ghost use Rattle.kb_test.specs.Tests.{test_of};
ghost use Rattle.kb_test.specs.Scripts.{script_below};
ghost use Rattle.kb_test.specs.Fronts.{between_step, named_step, begun_step, ended_step, step, may_have_arg, may_have_input, may_end_so, may_have_out, may_have_new, may_be_whole, open_limits, ended_limits, with_arg, with_input, with_outcome, with_out, with_new, with_open, if_may};

use crate::script::{Begun, Script};
use crate::settling::settled;
use crate::{NoMemory, Test};
use kb_heap::{Row, RunBounds};
use kb_names::Target;
use kb_rows::Held;
use kb_test_lines::{Limits, Line, Listed, Outcome, Word};
use std::alloc::Global;

// How far a test is read.
#[derive(Drop)]
pub(crate) enum Open {
    Between,
    // Behind the line that names the method.
    Named(Held<Target>),
    // Behind the bounds, and some arguments and input objects.
    Started(Held<Begun>),
    // Behind the ending.
    Ended(Held<Script>),
}

// The tests that are read, and how far the next one is.
#[derive(Drop)]
pub(crate) struct Front {
    pub tests: Row<Test>,
    pub open_test: Open,
}

// Above all numbers of 32 bits.
const NO_LIMIT: usize = 4_294_967_296;

// Before the ending.
fn open_limits(literals: u32) -> Limits
    ensures { result ≡ open_limits literals }
{
    Limits {
        inputs: NO_LIMIT,
        literals: literals as usize,
        made: NO_LIMIT,
    }
}

// From the ending on.
fn ended_limits(literals: u32, inputs: usize) -> Limits
    ensures { result ≡ ended_limits literals inputs }
{
    Limits {
        inputs,
        literals: literals as usize,
        made: NO_LIMIT,
    }
}

#[tactic(auto, unfolding(crate::specs::Fronts::between_step))]
fn after_tests(line: Line) -> Option<Open>
    ensures { result ≡ between_step line }
{
    match line {
        Line::Method(target) => Some(Open::Named(target)),
        _ => None,
    }
}

// Nothing is read behind the bounds.
fn begun(alloc: Global, target: Held<Target>, bounds: RunBounds) -> Result<Held<Begun>, NoMemory>
    ensures { IfOk result (λ begun. begun ≡ record { target = target; bounds = bounds; args = []; inputs = [] }) }
{
    Held::new(
        alloc,
        Begun {
            target,
            bounds,
            args: Row::new(alloc),
            inputs: Row::new(alloc),
        },
    )
}

#[tactic(auto, unfolding(crate::specs::Fronts::named_step))]
fn after_target(alloc: Global, target: Held<Target>, line: Line) -> Result<Option<Open>, NoMemory>
    ensures { IfOk result (λ next. next ≡ named_step target line) }
{
    match line {
        Line::Limit(bounds) => Ok(Some(Open::Started(begun(alloc, target, bounds)?))),
        _ => Ok(None),
    }
}

fn may_have_arg(literals: u32, begun: &Begun, word: Word) -> bool
    ensures { result ≡ may_have_arg literals begun.now word }
{
    begun.inputs.as_slice().is_empty() && open_limits(literals).has_word(word)
}

fn may_have_input(literals: u32, begun: &Begun, number: u32, listed: &Listed) -> bool
    ensures { result ≡ may_have_input literals begun.now number listed.now }
{
    number as usize == begun.inputs.as_slice().len()
        && open_limits(literals).has_words(listed.values.as_slice())
}

fn take_arg(literals: u32, begun: Held<Begun>, word: Word) -> Result<Option<Open>, NoMemory>
    ensures { IfOk result (λ next. next ≡ if_may (may_have_arg literals begun word) (Open.Started (with_arg begun word))) }
{
    if !may_have_arg(literals, begun.get(), word) {
        return Ok(None);
    }
    let mut begun = begun;
    begun.get_mut().args.push(word)?;
    Ok(Some(Open::Started(begun)))
}

fn take_input(
    literals: u32,
    begun: Held<Begun>,
    number: u32,
    listed: Held<Listed>,
) -> Result<Option<Open>, NoMemory>
    ensures { IfOk result (λ next. next ≡ if_may (may_have_input literals begun number listed) (Open.Started (with_input begun listed))) }
{
    if !may_have_input(literals, begun.get(), number, listed.get()) {
        return Ok(None);
    }
    let mut begun = begun;
    begun.get_mut().inputs.push(listed.into_inner())?;
    Ok(Some(Open::Started(begun)))
}

// Nothing is read behind the ending.
fn script_of(alloc: Global, begun: Begun, outcome: Outcome) -> Script
    ensures { result ≡ with_outcome begun outcome }
{
    Script {
        target: begun.target,
        bounds: begun.bounds,
        args: begun.args,
        inputs: begun.inputs,
        outcome,
        outs: Row::new(alloc),
        news: Row::new(alloc),
    }
}

// The test with nothing behind its ending, if all input objects are there that it names.
fn take_ending(
    alloc: Global,
    literals: u32,
    begun: Held<Begun>,
    outcome: Outcome,
) -> Result<Option<Open>, NoMemory>
    ensures { IfOk result (λ next. next ≡ if_may (may_end_so literals begun outcome) (Open.Ended (with_outcome begun outcome))) }
{
    let script = Held::new(alloc, script_of(alloc, begun.into_inner(), outcome))?;
    if !may_end_so(literals, script.get()) {
        return Ok(None);
    }
    Ok(Some(Open::Ended(script)))
}

// Whether all input objects are there that the test names.
fn may_end_so(literals: u32, script: &Script) -> bool
    ensures { result ≡ script_below (ended_limits literals (length script.now.inputs)) script.now }
{
    script.is_within(ended_limits(literals, script.inputs.as_slice().len()))
}

#[tactic(auto, unfolding(crate::specs::Fronts::begun_step))]
fn after_bounds(
    alloc: Global,
    literals: u32,
    begun: Held<Begun>,
    line: Line,
) -> Result<Option<Open>, NoMemory>
    ensures { IfOk result (λ next. next ≡ begun_step literals begun line) }
{
    match line {
        Line::Arg(word) => take_arg(literals, begun, word),
        Line::In(number, listed) => take_input(literals, begun, number, listed),
        Line::Ends(outcome) => take_ending(alloc, literals, begun, outcome),
        _ => Ok(None),
    }
}

fn may_have_out(literals: u32, script: &Script, number: u32, words: &[Word]) -> bool
    ensures { result ≡ may_have_out literals script.now number words.now }
{
    let outs = script.outs.as_slice().len();
    let inputs = script.inputs.as_slice().len();
    number as usize == outs && outs < inputs && ended_limits(literals, inputs).has_words(words)
}

fn may_have_new(literals: u32, script: &Script, number: u32, listed: &Listed) -> bool
    ensures { result ≡ may_have_new literals script.now number listed.now }
{
    let outs = script.outs.as_slice().len();
    let inputs = script.inputs.as_slice().len();
    number as usize == script.news.as_slice().len()
        && outs == inputs
        && ended_limits(literals, inputs).has_words(listed.values.as_slice())
}

fn may_be_whole(literals: u32, script: &Script) -> bool
    ensures { result ≡ may_be_whole literals script.now }
{
    script.outs.as_slice().len() == script.inputs.as_slice().len()
        && script.is_within(script.limits(literals))
}

fn ended_front(tests: Row<Test>, script: Held<Script>) -> Front
    ensures { result ≡ record { tests = tests; open_test = Open.Ended script } }
{
    Front {
        tests,
        open_test: Open::Ended(script),
    }
}

fn take_out(
    literals: u32,
    tests: Row<Test>,
    script: Held<Script>,
    number: u32,
    words: Row<Word>,
) -> Result<Option<Front>, NoMemory>
    ensures { IfOk result (λ next. next ≡ if_may (may_have_out literals script number words) (record { tests = tests; open_test = Open.Ended (with_out script words) })) }
{
    if !may_have_out(literals, script.get(), number, words.as_slice()) {
        return Ok(None);
    }
    let mut script = script;
    script.get_mut().outs.push(words)?;
    Ok(Some(ended_front(tests, script)))
}

fn take_new(
    literals: u32,
    tests: Row<Test>,
    script: Held<Script>,
    number: u32,
    listed: Held<Listed>,
) -> Result<Option<Front>, NoMemory>
    ensures { IfOk result (λ next. next ≡ if_may (may_have_new literals script number listed) (record { tests = tests; open_test = Open.Ended (with_new script listed) })) }
{
    if !may_have_new(literals, script.get(), number, listed.get()) {
        return Ok(None);
    }
    let mut script = script;
    script.get_mut().news.push(listed.into_inner())?;
    Ok(Some(ended_front(tests, script)))
}

// The tests with that one behind them.
fn with_test(
    alloc: Global,
    literals: u32,
    tests: Row<Test>,
    script: &Script,
) -> Result<Row<Test>, NoMemory>
    ensures { IfOk result (λ all. all ≡ tests ++ test_of literals script.now ∷ []) }
{
    let test = settled(alloc, literals, script)?;
    tests.with(test)
}

fn take_end(
    alloc: Global,
    literals: u32,
    tests: Row<Test>,
    script: &Script,
) -> Result<Option<Front>, NoMemory>
    ensures { IfOk result (λ next. next ≡ if_may (may_be_whole literals script.now) (record { tests = tests ++ test_of literals script.now ∷ []; open_test = Open.Between })) }
{
    if !may_be_whole(literals, script) {
        return Ok(None);
    }
    let tests = with_test(alloc, literals, tests, script)?;
    Ok(Some(Front {
        tests,
        open_test: Open::Between,
    }))
}

#[tactic(auto, unfolding(crate::specs::Fronts::ended_step))]
fn after_ending(
    alloc: Global,
    literals: u32,
    tests: Row<Test>,
    script: Held<Script>,
    line: Line,
) -> Result<Option<Front>, NoMemory>
    ensures { IfOk result (λ next. next ≡ ended_step literals tests script line) }
{
    match line {
        Line::Out(number, words) => take_out(literals, tests, script, number, words),
        Line::New(number, listed) => take_new(literals, tests, script, number, listed),
        Line::End => take_end(alloc, literals, tests, script.get()),
        _ => Ok(None),
    }
}

// The tests with that one before them, if there is one.
fn with_open(tests: Row<Test>, open_test: Option<Open>) -> Option<Front>
    ensures { result ≡ with_open tests open_test }
{
    match open_test {
        Some(open_test) => Some(Front { tests, open_test }),
        None => None,
    }
}

// The front with one line more, if the line may stand there.
pub(crate) fn with_line(
    alloc: Global,
    literals: u32,
    front: Front,
    line: Line,
) -> Result<Option<Front>, NoMemory>
    ensures { IfOk result (λ next. next ≡ step literals front line) }
{
    let Front { tests, open_test } = front;
    match open_test {
        Open::Between => Ok(with_open(tests, after_tests(line))),
        Open::Named(target) => {
            let next = after_target(alloc, target, line)?;
            Ok(with_open(tests, next))
        }
        Open::Started(begun) => {
            let next = after_bounds(alloc, literals, begun, line)?;
            Ok(with_open(tests, next))
        }
        Open::Ended(script) => after_ending(alloc, literals, tests, script, line),
    }
}
