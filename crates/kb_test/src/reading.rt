//! Tests are read, line by line.
ghost use Rattle.std.specs.Prelude.{◌≡◌, List, IfOk, IfErr, MatchOption};
ghost use Rattle.kb_test.specs.Tests.{AreTests, SpellsTests};
ghost use Rattle.kb_test.specs.Fronts.{TakesText, SpellsLines, StandsBehind};
ghost use Rattle.kb_test.specs.Refusals.{ReadsTests, RefusesTestText};
ghost use Rattle.kb_test.specs.declared.test_case.Test.{Test};

use crate::fronts::{Front, Open, with_line};
use crate::{NoMemory, Test};
use kb_grammar::{LineFormat, LineRefusal, read_lines};
use kb_heap::Row;
use kb_test_lines::read_line;
use std::alloc::Global;

/// Why tests were not read.
#[derive(Clone, Copy, PartialEq, Eq)]
pub enum TestRefusal {
    /// The first line, from 1, at which no list of tests goes on. A line that is cut short, and one that is missing
    /// at the end, count as lines.
    TestLine(usize),
    /// Memory ran out.
    NoMemory,
}

// The texts of tests, for a world of so many literals.
#[derive(Drop)]
struct TestTexts {
    alloc: Global,
    literals: u32,
}

impl LineFormat for TestTexts {
    type Front = Front;

    type Whole = Row<Test>;

    type Stop = NoMemory;

    ghost spells = { λ format. SpellsLines format.literals };

    ghost stands_behind = { λ format. StandsBehind format.literals };

    fn start(&self) -> Front {
        Front {
            tests: Row::new(self.alloc),
            open_test: Open::Between,
        }
    }

    fn read_line(&self, front: Front, line: &[u8]) -> Result<Option<Front>, NoMemory> {
        take_text(self.alloc, self.literals, front, line)
    }

    fn end(&self, front: Front) -> Option<Row<Test>> {
        whole_tests(front)
    }
}

// The front with one line more, by the line's text, if such a line may stand there.
fn take_text(
    alloc: Global,
    literals: u32,
    front: Front,
    text: &[u8],
) -> Result<Option<Front>, NoMemory>
    ensures { IfOk result (TakesText literals front text.now) }
{
    match read_line(alloc, text)? {
        Some(line) => with_line(alloc, literals, front, line),
        None => Ok(None),
    }
}

// The tests that are read, if the text may end here.
fn whole_tests(front: Front) -> Option<Row<Test>>
    ensures { MatchOption result (front.open_test ≡ Open.Between → ⊥) (λ tests. (front.open_test ≡ Open.Between) × (tests ≡ front.tests)) }
{
    match front.open_test {
        Open::Between => Some(front.tests),
        _ => None,
    }
}

/// Reads a whole text as a list of tests, for a world of `literals` literals. The lines of a test are
///
/// ```text
/// test METHOD
/// bounds alloc N loops N depth N steps N
/// arg VALUE              for each argument
/// in iN TYPE VALUE ..    for each input object, with its slots or elements
/// returns, or returns VALUE, throws VALUE, illtyped METHOD N, or past with a bound
/// out iN VALUE ..        for each input object, with its last values
/// new nN TYPE VALUE ..   for each object of the run
/// end
/// ```
///
/// A value is an int, `null`, or an object of the test by its number: `i0` of the input, `s0` a literal, `n0` of the run.
/// Numbers have no leading zeros, the bounds are in their ranges, and the last line ends with a line feed too.
pub fn read_tests(alloc: Global, text: &[u8], literals: u32) -> Result<Row<Test>, TestRefusal>
    ensures found { IfOk result (λ tests. SpellsTests literals tests text.now) }
    ensures only { (tests : List Test) → SpellsTests literals tests text.now → ReadsTests result tests }
    ensures held { IfOk result (AreTests literals) }
    ensures bad { IfErr result (RefusesTestText literals text.now) }
{
    match read_lines(&TestTexts { alloc, literals }, text) {
        Ok(tests) => Ok(tests),
        Err(LineRefusal::BadLine(number)) => Err(TestRefusal::TestLine(number)),
        Err(LineRefusal::Stopped(NoMemory)) => Err(TestRefusal::NoMemory),
    }
}
