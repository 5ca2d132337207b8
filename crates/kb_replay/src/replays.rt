//! The runs of tests, held against what the tests say.
ghost use Rattle.std.specs.Prelude.{◌≡◌, ◌↔◌, IfErr, IfOk, IsTrue};
ghost use Rattle.kb_replay.specs.Replays.{IsReplayed, IsRunnable, Says, Stops};

use crate::NoMemory;
use crate::checks::{ReplayStop, check};
use kb_class::MethodId;
use kb_heap::{Ending, Heap};
use kb_machine::run;
use kb_test::Test;
use kb_world::World;
use std::alloc::Global;

/// What the machine's run says of a test.
#[derive(Drop)]
pub enum Replayed {
    /// It ends as the test says, and leaves the heap that it says.
    Passes,
    /// It ends so, and leaves this heap.
    Differs(Ending, Heap),
}

/// Runs the test, if it may be run, and holds the run against what the test says.
pub fn replay(alloc: Global, world: &World, test: &Test) -> Result<Replayed, ReplayStop>
    ensures replayed { IfOk result (IsReplayed world.now test.now) }
    ensures stop { IfErr result (Stops world.now test.now) }
{
    let mut reached = Vec::new(alloc);
    let id = check(alloc, world, test, &mut reached)?;
    match run_test(alloc, world, test, id) {
        Ok(replayed) => Ok(replayed),
        Err(NoMemory) => Err(ReplayStop::NoMemory),
    }
}

/// Runs the test by its method, and holds the run against what the test says.
pub fn run_test(
    alloc: Global,
    world: &World,
    test: &Test,
    id: MethodId,
) -> Result<Replayed, NoMemory>
    requires { IsRunnable world.now test.now id }
    ensures { IfOk result (Says world.now id test.now) }
{
    let (ending, heap) = run(alloc, world, id, &test.input, &test.bounds)?;
    if ends_as_stated(test, &ending, &heap) {
        return Ok(Replayed::Passes);
    }
    Ok(Replayed::Differs(ending, heap))
}

// Whether a run that ends so and leaves that heap does what the test says.
fn ends_as_stated(test: &Test, ending: &Ending, heap: &Heap) -> bool
    ensures { IsTrue result ↔ ((ending.now ≡ test.now.ending) × (heap.now ≡ test.now.heap)) }
{
    if !ending.is_same(&test.ending) {
        return false;
    }
    test.heap.is_heap(heap)
}
