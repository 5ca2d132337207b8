//! That the numbers of a report are in the ranges of their types.
//!
//! A contract learns that a `u32` is one where the code reads it. So each number of a report is looked at, once a report, and
//! nothing is done with it.
ghost use Rattle.std.specs.Prelude.{length};
ghost use Rattle.std.specs.Int.{w32};
ghost use Rattle.std.specs.Int.RustNames.{FitsSigned};
ghost use Rattle.std.specs.List.{AllByRecursion};
ghost use Rattle.kb_log_text.specs.Lines.{IsStep, IsChain};
ghost use Rattle.kb_path_words.specs.Ranges.{IsSmall, IsSeenInRange, LengthFits, IsOperandInRange, OutFits, ValueFits, IsTermInRange};
ghost use Rattle.kb_report_text.specs.Ranges.{IsCount, OriginFits, SlotFits, ObjectFits, IsLocInRange, ConditionFits, WriteFits, MadeFits, InputObjectFits, InputFits, EndingFits, EndedFits, LeafFits, HasCounts, PathFits, BoundsFit, ReportFits};

use crate::report::Report;
use kb_chain::Chain;
use kb_heap::{Bounds, Input, Object, Value};
use kb_picture::{
    Ended, Leaf, Length, Made, Operand, Origin, Out, Path, PicLoc, PicObject, Seen, Standing,
    SymEnding, Term, Write,
};

// A part of a report, whose numbers are in their ranges.
trait Ranged {
    ghost fits: { Self → Type 0 };

    fn tell_range(&self)
        ensures { fits self.now };
}

fn tell_each<T: Ranged>(items: &[T])
    ensures { AllByRecursion T.fits items.now }
{
    let mut rest = items;
    while let [first, others @ ..] = rest {
        first.tell_range();
        rest = others;
    }
}

// ---- numbers

fn tell_number(_number: u32)
    ensures { IsSmall _number }
{}

fn tell_int(_value: i32)
    ensures { FitsSigned w32 _value }
{}

fn tell_count(_count: usize)
    ensures { IsCount _count }
{}

impl Ranged for u32 {
    ghost fits = { IsSmall };

    fn tell_range(&self) {
        tell_number(*self)
    }
}

// ---- the words of a line

impl Ranged for Origin {
    ghost fits = { OriginFits };

    fn tell_range(&self) {
        match *self {
            Origin::Arg(number) => number.tell_range(),
            Origin::Field(object, slot) => {
                object.tell_range();
                slot.tell_range()
            }
            Origin::Element(array, index) => {
                array.tell_range();
                index.tell_range()
            }
        }
    }
}

impl Ranged for Seen {
    ghost fits = { IsSeenInRange };

    fn tell_range(&self) {
        match *self {
            Seen::Int(number) => number.tell_range(),
            Seen::Loc(number) => number.tell_range(),
            Seen::Obj(number) => number.tell_range(),
            Seen::Null => (),
            Seen::Beyond => (),
        }
    }
}

impl Ranged for Length {
    ghost fits = { LengthFits };

    fn tell_range(&self) {
        match *self {
            Length::Plain => (),
            Length::Is(n) => n.tell_range(),
            Length::Above(n) => n.tell_range(),
        }
    }
}

impl Ranged for Operand {
    ghost fits = { IsOperandInRange };

    fn tell_range(&self) {
        match *self {
            Operand::Const(value) => tell_int(value),
            Operand::Var(number) => number.tell_range(),
            Operand::Term(number) => number.tell_range(),
        }
    }
}

impl Ranged for Out {
    ghost fits = { OutFits };

    fn tell_range(&self) {
        match *self {
            Out::Int(operand) => operand.tell_range(),
            Out::Null => (),
            Out::Loc(number) => number.tell_range(),
            Out::Obj(number) => number.tell_range(),
            Out::Literal(number) => number.tell_range(),
            Out::New(number) => number.tell_range(),
        }
    }
}

impl Ranged for Value {
    ghost fits = { ValueFits };

    fn tell_range(&self) {
        match *self {
            Value::Int(value) => tell_int(value),
            Value::Null => (),
            Value::Ref(object) => object.tell_range(),
        }
    }
}

// ---- the parts of a path

impl Ranged for (Origin, Seen) {
    ghost fits = { SlotFits };

    fn tell_range(&self) {
        self.0.tell_range();
        self.1.tell_range()
    }
}

impl Ranged for PicLoc {
    ghost fits = { IsLocInRange };

    fn tell_range(&self) {
        match self.standing {
            Standing::Open => (),
            Standing::Obj(number) => number.tell_range(),
            Standing::Beyond => (),
        }
    }
}

impl Ranged for PicObject {
    ghost fits = { ObjectFits };

    fn tell_range(&self) {
        self.length.tell_range();
        self.origin.tell_range()
    }
}

impl Ranged for Term {
    ghost fits = { IsTermInRange };

    fn tell_range(&self) {
        self.left.tell_range();
        match self.right {
            None => (),
            Some(operand) => operand.tell_range(),
        }
    }
}

impl Ranged for (u32, bool) {
    ghost fits = { ConditionFits };

    fn tell_range(&self) {
        self.0.tell_range()
    }
}

impl Ranged for Write {
    ghost fits = { WriteFits };

    fn tell_range(&self) {
        self.slot.tell_range();
        self.value.tell_range()
    }
}

impl Ranged for Made {
    ghost fits = { MadeFits };

    fn tell_range(&self) {
        tell_each(self.values.as_slice())
    }
}

impl Ranged for Object {
    ghost fits = { InputObjectFits };

    fn tell_range(&self) {
        tell_each(self.values.as_slice())
    }
}

impl Ranged for Input {
    ghost fits = { InputFits };

    fn tell_range(&self) {
        tell_each(self.args.as_slice());
        tell_each(self.heap.objects.as_slice());
        tell_count(self.heap.objects.as_slice().len())
    }
}

impl Ranged for (u32, u32) {
    ghost fits = { IsStep };

    fn tell_range(&self) {
        self.0.tell_range();
        self.1.tell_range()
    }
}

impl Ranged for Chain {
    ghost fits = { IsChain };

    fn tell_range(&self) {
        self.start.tell_range();
        tell_each(self.steps.as_slice())
    }
}

impl Ranged for SymEnding {
    ghost fits = { EndingFits };

    fn tell_range(&self) {
        match self {
            SymEnding::Returned(None) => (),
            SymEnding::Returned(Some(value)) => value.tell_range(),
            SymEnding::Threw(value) => value.tell_range(),
            SymEnding::IllTyped(place) => place.at.tell_range(),
        }
    }
}

impl Ranged for Ended {
    ghost fits = { EndedFits };

    fn tell_range(&self) {
        self.ending.tell_range();
        tell_each(self.writes.as_slice());
        tell_each(self.made.as_slice());
        tell_count(self.made.as_slice().len());
        self.input.tell_range()
    }
}

impl Ranged for Leaf {
    ghost fits = { LeafFits };

    fn tell_range(&self) {
        match self {
            Leaf::Ended(ended) => ended.tell_range(),
            Leaf::Cut(_, input) => input.tell_range(),
            Leaf::Undecided(log) => {
                tell_each(log.entries.as_slice());
                tell_count(log.entries.as_slice().len())
            }
            Leaf::Open => (),
        }
    }
}

fn tell_counts(path: &Path)
    ensures { HasCounts path.now }
{
    tell_count(path.picture.locs.as_slice().len());
    tell_count(path.picture.objects.as_slice().len());
    tell_count(path.terms.as_slice().len())
}

impl Ranged for Path {
    ghost fits = { PathFits };

    fn tell_range(&self) {
        tell_counts(self);
        tell_each(self.decisions.as_slice());
        tell_each(self.picture.seen.as_slice());
        tell_each(self.picture.locs.as_slice());
        tell_each(self.picture.objects.as_slice());
        tell_each(self.terms.as_slice());
        tell_each(self.when.as_slice());
        self.leaf.tell_range()
    }
}

// ---- reports

fn tell_bounds(bounds: &Bounds)
    ensures { BoundsFit bounds.now }
{
    bounds.k.tell_range();
    bounds.array.tell_range();
    bounds.run.alloc.tell_range();
    bounds.run.loops.tell_range();
    bounds.run.depth.tell_range();
    bounds.run.steps.tell_range()
}

/// Each number of a report is in the range of its type. It does nothing else.
pub fn tell_report(report: &Report)
    ensures { ReportFits report.now }
{
    tell_bounds(&report.bounds);
    report.paths.tell_range();
    report.budget.tell_range();
    tell_each(report.leaves.as_slice());
    tell_count(report.leaves.as_slice().len())
}
