//! What the text of a test says.
ghost use Rattle.std.specs.Prelude.{◌≡◌};
ghost use Rattle.kb_test.specs.Scripts.{script_below, limits_of};

use kb_heap::{Row, RunBounds};
use kb_names::Target;
use kb_rows::Held;
use kb_test_lines::{Limits, Listed, Outcome, Word};

// What is read of a test before its ending.
#[derive(Drop)]
pub(crate) struct Begun {
    pub target: Held<Target>,
    pub bounds: RunBounds,
    pub args: Row<Word>,
    pub inputs: Row<Listed>,
}

// What is read of a test from its ending on.
#[derive(Drop)]
pub(crate) struct Script {
    pub target: Held<Target>,
    pub bounds: RunBounds,
    pub args: Row<Word>,
    pub inputs: Row<Listed>,
    pub outcome: Outcome,
    // The last values of the input objects.
    pub outs: Row<Row<Word>>,
    // The objects that the run has made.
    pub news: Row<Listed>,
}

impl Script {
    // Whether the number of each object that is named is below the limit of its kind.
    pub(crate) fn is_within(&self, limits: Limits) -> bool
        ensures { result ≡ script_below limits self.now }
    {
        limits.has_words(self.args.as_slice())
            && limits.has_listed(self.inputs.as_slice())
            && limits.has_outcome(&self.outcome)
            && limits.has_lists(self.outs.as_slice())
            && limits.has_listed(self.news.as_slice())
    }

    // How many objects of each kind there are, in a world of so many literals.
    pub(crate) fn limits(&self, literals: u32) -> Limits
        ensures { result ≡ limits_of literals self.now }
    {
        Limits {
            inputs: self.inputs.as_slice().len(),
            literals: literals as usize,
            made: self.news.as_slice().len(),
        }
    }
}
