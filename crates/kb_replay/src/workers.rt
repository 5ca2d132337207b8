//! The runs of all tests, by several workers.
ghost use Rattle.std.specs.Prelude.{◌≡◌, ◌≤◌, All, IfOk, length, map};
ghost use Rattle.kb_workers.specs.Mapped.{AreMapped};
ghost use Rattle.kb_replay.specs.Replays.{AreReplayed, AreRunnable, IsRunnable};
ghost use Rattle.kb_replay.specs.Outcomes.{IsOutcome, test_of, method_of, test_with, verdict_of};

use crate::NoMemory;
use crate::replays::{Replayed, run_test};
use kb_class::MethodId;
use kb_heap::Row;
use kb_test::Test;
use kb_workers::{Gate, map_in_order};
use kb_world::World;
use std::alloc::Global;
use std::thread::Threads;

/// Tests, and what the machine's runs say of them, in one order.
#[derive(Drop)]
pub struct Ran {
    pub tests: Row<Test>,
    pub replayed: Row<Replayed>,
}

// A test, and the method by which it is run.
#[derive(Drop)]
pub(crate) struct Assigned {
    pub(crate) test: Test,
    pub(crate) id: MethodId,
}

// A test, and what its run says.
#[derive(Drop)]
pub(crate) struct Outcome {
    pub(crate) test: Test,
    pub(crate) replayed: Replayed,
}

/// Runs each test by its method, by so many workers, and gives the tests back. The gate is told of each run.
#[tactic(auto, using(crate::proofs::Runnable::as_many, crate::proofs::Outcomes::all_runnable, crate::proofs::Outcomes::tests_back, crate::proofs::Outcomes::outcomes_replayed))]
pub fn run_tests<H: Threads + Sync, G: Gate + Sync>(
    rt: &H,
    alloc: Global,
    world: &World,
    tests: Row<Test>,
    methods: &[MethodId],
    workers: usize,
    gate: &G,
) -> Result<Ran, NoMemory>
    requires workers { (1 ≤ workers) × (workers ≤ 64) }
    requires runnable { AreRunnable world.now tests methods.now }
    ensures tests { IfOk result (λ ran. ran.tests ≡ tests) }
    ensures replayed { IfOk result (λ ran. AreReplayed world.now tests ran.replayed) }
{
    let assigned = assigned_to(alloc, tests, methods)?;
    let outcomes = run_assigned(rt, alloc, world, assigned, workers, gate)?;
    apart(alloc, outcomes)
}

// Each test with its method.
fn assigned_to(
    alloc: Global,
    tests: Row<Test>,
    methods: &[MethodId],
) -> Result<Vec<Assigned>, NoMemory>
    requires { length tests ≡ length methods.now }
    ensures tests { IfOk result (λ assigned. map test_of assigned.items ≡ tests) }
    ensures methods { IfOk result (λ assigned. map method_of assigned.items ≡ methods.now) }
{
    let mut assigned = Vec::new(alloc);
    let mut ids = methods;
    for test in tests.into_vec() {
        let [id, more @ ..] = ids else {
            return Ok(assigned);
        };
        assigned.push(Assigned { test, id: *id })?;
        ids = more;
    }
    Ok(assigned)
}

// What comes of each test, each by a worker.
fn run_assigned<H: Threads + Sync, G: Gate + Sync>(
    rt: &H,
    alloc: Global,
    world: &World,
    assigned: Vec<Assigned>,
    workers: usize,
    gate: &G,
) -> Result<Vec<Outcome>, NoMemory>
    requires workers { (1 ≤ workers) × (workers ≤ 64) }
    requires runnable { All (λ one. IsRunnable world.now one.test one.id) assigned.items }
    ensures { IfOk result (λ outcomes. AreMapped (IsOutcome world.now) assigned.items outcomes.items) }
{
    map_in_order(
        rt,
        assigned,
        workers,
        gate,
        &|one: Assigned| -> Result<Outcome, NoMemory>
            requires { IsRunnable world.now one.test one.id }
            ensures { IfOk result (IsOutcome world.entry.now one) }
        { outcome_of(alloc, world, one) },
    )
}

// What comes of a test.
fn outcome_of(alloc: Global, world: &World, one: Assigned) -> Result<Outcome, NoMemory>
    requires { IsRunnable world.now one.test one.id }
    ensures { IfOk result (IsOutcome world.now one) }
{
    let replayed = run_test(alloc, world, &one.test, one.id);
    match replayed {
        Ok(replayed) => Ok(Outcome {
            test: one.test,
            replayed,
        }),
        Err(NoMemory) => Err(NoMemory),
    }
}

// The tests of outcomes, and what their runs say.
fn apart(alloc: Global, outcomes: Vec<Outcome>) -> Result<Ran, NoMemory>
    ensures tests { IfOk result (λ ran. ran.tests ≡ map test_with outcomes.items) }
    ensures replayed { IfOk result (λ ran. ran.replayed ≡ map verdict_of outcomes.items) }
{
    let mut tests = Row::new(alloc);
    let mut replayed = Row::new(alloc);
    for outcome in outcomes {
        tests.push(outcome.test)?;
        replayed.push(outcome.replayed)?;
    }
    Ok(Ran { tests, replayed })
}
