//! What types tell of numbers: the ints of a test, and the offset at which it ends. The functions do nothing but tell the prover.

ghost use Rattle.std.specs.Prelude.{◌<◌, ◌^◌};
ghost use Rattle.std.specs.Int.{w32};
ghost use Rattle.std.specs.Int.RustNames.{FitsSigned};
ghost use Rattle.std.specs.List.{AllByRecursion};
ghost use Rattle.kb_report_tests.specs.Ranges.{EndingHasRange, HasRange, HasRanges, HaveRanges};

use kb_heap::{Ending, Heap, Input, Object, Value};

/// The numbers of a test have the ranges of their types.
pub(crate) fn tell_numbers(input: &Input, ending: &Ending, heap: &Heap)
    ensures { HaveRanges input.now ending.now heap.now }
{
    tell_values(input.args.as_slice());
    tell_objects(input.heap.objects.as_slice());
    tell_objects(heap.objects.as_slice());
    tell_ending(ending);
}

fn tell_objects(objects: &[Object])
    ensures { AllByRecursion HasRanges objects.now }
{
    let mut rest = objects;
    while let [object, others @ ..] = rest {
        tell_values(object.values.as_slice());
        rest = others;
    }
}

fn tell_values(values: &[Value])
    ensures { AllByRecursion HasRange values.now }
{
    let mut rest = values;
    while let [value, others @ ..] = rest {
        tell_value(*value);
        rest = others;
    }
}

fn tell_value(value: Value)
    ensures { HasRange value }
{
    match value {
        Value::Int(number) => tell_int(number),
        Value::Null | Value::Ref(_) => {}
    }
}

fn tell_int(_value: i32)
    ensures { FitsSigned w32 _value }
{}

fn tell_ending(ending: &Ending)
    ensures { EndingHasRange ending.now }
{
    match ending {
        Ending::Returned(Some(value)) => tell_value(*value),
        Ending::IllTyped(place) => tell_offset(place.at),
        Ending::Returned(None) | Ending::Threw(_) | Ending::Past(_) => {}
    }
}

fn tell_offset(_at: u32)
    ensures { _at < 2 ^ 32 }
{}
