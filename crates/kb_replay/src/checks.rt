//! Whether tests may be run: looked at in their order, before any of them is.
ghost use Rattle.std.specs.Prelude.{◌≡◌, ◌⊎◌, ◌↔◌, ℕ, IfErr, IfOk, IsTrue, OnOk};
ghost use Rattle.kb_replay.specs.Replays.{AreAccepted, AreRunnable, IsFit, IsMarked, IsRunnable, Stops, StopsAt};
ghost use Rattle.kb_link.specs.Targets.{IsTargetOf};

use crate::NoMemory;
use kb_class::MethodId;
use kb_fits::fits_types;
use kb_heap::Row;
use kb_link::LinkRefusal;
use kb_names::Target;
use kb_test::Test;
use kb_world::World;
use std::alloc::Global;

/// Why a test is not run.
#[derive(Drop)]
pub enum ReplayStop {
    /// There is no such method.
    TestMethod,
    /// The input is none of the method.
    TestTypes,
    /// What the method reaches can't be carried out.
    Reach(LinkRefusal),
    NoMemory,
}

/// The first test of several that is not run: its number, from 0, and why.
#[derive(Drop)]
pub struct BadTest {
    pub number: usize,
    pub stop: ReplayStop,
}

/// The method of each test, where all of them may be run. A target is reached once, however many tests have it.
pub fn check_tests(alloc: Global, world: &World, tests: &[Test]) -> Result<Row<MethodId>, BadTest>
    ensures methods { IfOk result (AreRunnable world.now tests.now) }
    ensures stop { IfErr result (StopsAt world.now tests.now) }
{
    let mut methods = Row::new(alloc);
    let mut reached = Vec::new(alloc);
    for test in tests {
        let number = methods.as_slice().len();
        let id = match check(alloc, world, test, &mut reached) {
            Ok(id) => id,
            Err(stop) => return Err(BadTest { number, stop }),
        };
        let Ok(()) = methods.push(id) else {
            let stop = ReplayStop::NoMemory;
            return Err(BadTest { number, stop });
        };
    }
    Ok(methods)
}

// The method of the test. `reached` tells by their numbers the methods that were reached before.
#[tactic(auto, using(crate::proofs::Runnable::runnable_marked, crate::proofs::Runnable::runnable_here, crate::proofs::Runnable::marked_more))]
pub(crate) fn check(
    alloc: Global,
    world: &World,
    test: &Test,
    reached: &mut Vec<bool>,
) -> Result<MethodId, ReplayStop>
    requires { AreAccepted world.now reached.old.items }
    ensures method { IfOk result (IsRunnable world.now test.now) }
    ensures stop { IfErr result (Stops world.now test.now) }
    ensures reached { AreAccepted world.now reached.new.items }
{
    let id = fit_method(world, test)?;
    if is_marked(reached.as_slice(), id) {
        return Ok(id);
    }
    match world.reach(alloc, &test.target) {
        Ok(_) => {}
        Err(LinkRefusal::NoMemory) => return Err(ReplayStop::NoMemory),
        Err(refusal) => return Err(ReplayStop::Reach(refusal)),
    }
    let Ok(()) = mark(reached, id) else {
        return Err(ReplayStop::NoMemory);
    };
    Ok(id)
}

// The method that the test's target names, where the input is one of it.
fn fit_method(world: &World, test: &Test) -> Result<MethodId, ReplayStop>
    ensures fit { IfOk result (IsFit world.now test.now) }
    ensures alone { IfOk result (λ id. (other : MethodId) → IsTargetOf world.now test.now.target other → other ≡ id) }
    ensures stop { IfErr result (Stops world.now test.now) }
{
    let Some(id) = world.find_target(&test.target) else {
        return Err(ReplayStop::TestMethod);
    };
    if !fits_types(world, id, &test.input) {
        return Err(ReplayStop::TestTypes);
    }
    Ok(id)
}

fn is_marked(flags: &[bool], id: MethodId) -> bool
    ensures { IsTrue result ↔ IsMarked flags.now id.0 }
{
    match flags.get(id.0 as usize) {
        Some(flag) => *flag,
        None => false,
    }
}

// Marks one method more.
#[tactic(auto, using(crate::proofs::Marks::marked_last, crate::proofs::Marks::marked_now, crate::proofs::Marks::marked_kept, crate::proofs::Marks::kept_marked))]
fn mark(flags: &mut Vec<bool>, id: MethodId) -> Result<(), NoMemory>
    ensures alone { (number : ℕ) → IsMarked flags.new.items number → (number ≡ id.0) ⊎ IsMarked flags.old.items number }
    ensures marked { OnOk result ((number : ℕ) → (number ≡ id.0) ⊎ IsMarked flags.old.items number → IsMarked flags.new.items number) }
{
    let place = id.0 as usize;
    while flags.len() <= place {
        flags.push(false)?;
    }
    flags[place] = true;
    Ok(())
}
