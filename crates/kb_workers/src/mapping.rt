//! The work on all pieces, by threads.

ghost use Rattle.std.specs.Prelude.{◌≡◌, ℕ, ◌<◌, ◌≤◌, length, vec_len, slice_index_or, All, Ok, IfOk};
ghost use Rattle.kb_workers.specs.Mapped.{AreMapped};

use crate::NoMemory;
use crate::dealing::{Numbered, dealt};
use crate::gate::Gate;
use crate::merging::{gathered, merge};
use crate::queue::Queue;
use std::alloc::Global;
use std::thread;
use std::thread::Threads;

/// What the work answers for each piece, in the order of the pieces, by so many workers. Worker w, from 0, does the pieces w,
/// w + workers and so on in rising order; where no thread can be had, one worker goes after another. A piece that lacks
/// memory makes the whole lack it.
pub fn map_in_order<
    H: Threads + Sync,
    T: Send + Drop,
    R: Send + Drop,
    G: Gate + Sync,
    F: Fn(T) -> Result<R, NoMemory> + Sync,
>(rt: &H, pieces: Vec<T>, workers: usize, gate: &G, work: &F) -> Result<Vec<R>, NoMemory>
    requires workers { (1 ≤ workers) × (workers ≤ 64) }
    requires work { All (λ piece. F.pre work.now piece) pieces.items }
    ensures { IfOk result (λ answers. AreMapped (λ piece answer. F.post work.now piece (Ok answer)) pieces.items answers.items) }
{
    let alloc = *pieces.allocator();
    let count = pieces.len();
    let hands = dealt(pieces, workers)?;
    let lists = all_worked(rt, alloc, hands, gate, work)?;
    merge(alloc, lists, count)
}

// What each hand comes to.
fn all_worked<
    H: Threads + Sync,
    T: Send + Drop,
    R: Send + Drop,
    G: Gate + Sync,
    F: Fn(T) -> Result<R, NoMemory> + Sync,
>(
    rt: &H,
    alloc: Global,
    hands: Queue<Queue<Numbered<T>>>,
    gate: &G,
    work: &F,
) -> Result<Queue<Queue<R>>, NoMemory>
    requires { All (λ hand. All (λ piece. F.pre work.now piece) hand) hands }
    ensures { IfOk result (λ lists. AreMapped (AreMapped (λ piece answer. F.post work.now piece (Ok answer))) hands lists) }
{
    let done = each_worked(rt, alloc, hands.into_vec(), gate, work)?;
    gathered(alloc, done)
}

// What each hand comes to, each by a thread of its own where one can be had.
fn each_worked<
    H: Threads + Sync,
    T: Send + Drop,
    R: Send + Drop,
    G: Gate + Sync,
    F: Fn(T) -> Result<R, NoMemory> + Sync,
>(
    rt: &H,
    alloc: Global,
    hands: Vec<Queue<Numbered<T>>>,
    gate: &G,
    work: &F,
) -> Result<Vec<Result<Queue<R>, NoMemory>>, NoMemory>
    requires { All (λ hand. All (λ piece. F.pre work.now piece) hand) hands.items }
    ensures len { IfOk result (λ done. vec_len done ≡ vec_len hands) }
    ensures each { IfOk result (λ done. (i : ℕ) (d : _) (e : _) → i < length hands.items → IfOk (slice_index_or done.items i e) (AreMapped (λ piece answer. F.post work.now piece (Ok answer)) (slice_index_or hands.items i d))) }
{
    thread::map_vec(
        rt,
        hands,
        &|hand: Queue<Numbered<T>>| -> Result<Queue<R>, NoMemory>
            requires { All (λ piece. F.pre work.now piece) hand }
            ensures { IfOk result (λ answers. AreMapped (λ piece answer. F.post work.entry.now piece (Ok answer)) hand answers) }
        { work_through(alloc, hand, gate, work) },
    )
}

// What the work answers for each piece of a hand, in their order.
fn work_through<T: Drop, R: Drop, G: Gate, F: Fn(T) -> Result<R, NoMemory>>(
    alloc: Global,
    mut hand: Queue<Numbered<T>>,
    gate: &G,
    work: &F,
) -> Result<Queue<R>, NoMemory>
    requires { All (λ piece. F.pre work.now piece) hand }
    ensures { IfOk result (λ answers. AreMapped (λ piece answer. F.post work.now piece (Ok answer)) hand answers) }
{
    let mut answers = Queue::new(alloc);
    while let Some(numbered) = hand.pop_front() {
        answers.push_back(work_on(numbered, gate, work)?)?;
    }
    Ok(answers)
}

// What the work answers for a piece, which the gate is told of.
fn work_on<T, R, G: Gate, F: Fn(T) -> Result<R, NoMemory>>(
    numbered: Numbered<T>,
    gate: &G,
    work: &F,
) -> Result<R, NoMemory>
    requires { F.pre work.now numbered }
    ensures { F.post work.now numbered result }
{
    let Numbered { number, piece } = numbered;
    gate.enter(number);
    let answer = work(piece);
    gate.leave(number);
    answer
}
