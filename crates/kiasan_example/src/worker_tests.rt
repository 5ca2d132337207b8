//! What no contract says of workers: that two pieces are worked on at once, and four, what a gate is told, and that a sample runs
//! its tests. And `map_in_order` on as many pieces as workers, on fewer and on more.

ghost use Rattle.std.specs.Prelude.{◌≤◌};

use crate::tests::{assembled, words_of};
use kb_outside::{MemoryShelf, MemorySink};
use kb_workers::{Gate, OpenGate, map_in_order};
use kiasan::{Status, kiasan_gated};
use std::alloc::{AllocError, Global};
use std::sync::atomic::{AtomicU64, Ordering};
use std::test::Fail;
use std::thread::Threads;

/// How often a piece looks whether the other one has begun.
const MOST_LOOKS: u32 = 100_000_000;

const REPLAY_NODE: &str = "replay --tests Node.tests --workers 2 Node.class";

/// A class whose method puts a node behind the one that follows it, where the two are in falling order.
const TEXT_NODE: &str = "class 0021 Node java/lang/Object
field 0000 elem I
field 0000 next LNode;
method 0001 swapNode ()LNode; 3 2
aload_0
getfield Node next LNode;
ifnull e
aload_0
getfield Node elem I
aload_0
getfield Node next LNode;
getfield Node elem I
if_icmple e
aload_0
getfield Node next LNode;
astore_1
aload_0
aload_1
getfield Node next LNode;
putfield Node next LNode;
aload_1
aload_0
putfield Node next LNode;
aload_1
areturn
:e
aload_0
areturn
end
";

/// Two tests of it, which pass.
const TESTS_NODE: &str = "test Node.swapNode()LNode;
bounds alloc 16 loops 10 depth 16 steps 2000
arg i0
in i0 Node 5 i1
in i1 Node 3 null
returns i1
out i0 5 null
out i1 3 i0
end
test Node.swapNode()LNode;
bounds alloc 16 loops 10 depth 16 steps 2000
arg i0
in i0 Node 5 i1
in i1 Node 3 null
returns i1
out i0 5 null
out i1 3 i0
end
";

/// A gate at which the pieces 0 and 1 wait until each has seen that the other has begun, or has looked for it so often. One
/// thread that does both, in whatever order, never sees the one that is to come.
#[derive(Drop)]
struct Meeting {
    first: AtomicU64,
    second: AtomicU64,
    /// How many of the two have seen the other.
    seen: AtomicU64,
}

impl Meeting {
    fn new() -> Meeting {
        Meeting {
            first: AtomicU64::new(0),
            second: AtomicU64::new(0),
            seen: AtomicU64::new(0),
        }
    }

    /// Tells by one flag that a piece has begun, and looks for the flag of the other.
    fn meet(&self, own: &AtomicU64, other: &AtomicU64) {
        own.store(1, Ordering::SeqCst);
        for _ in 0..MOST_LOOKS {
            if other.load(Ordering::SeqCst) == 1 {
                self.seen.fetch_add(1, Ordering::SeqCst);
                return;
            }
        }
    }
}

impl Gate for Meeting {
    fn enter(&self, piece: usize) {
        match piece {
            0 => self.meet(&self.first, &self.second),
            1 => self.meet(&self.second, &self.first),
            _ => (),
        }
    }

    fn leave(&self, _piece: usize) {}
}

#[test]
fn two_workers_are_at_work_at_once(rt: HostRuntime) -> Result<(), Fail> {
    let gate = Meeting::new();
    let pieces = vec![in rt.alloc(); 0u64, 1]?;
    let answers = map_in_order(
        &rt,
        pieces,
        2,
        &gate,
        &|piece: u64| -> Result<u64, AllocError> { Ok(piece) },
    )?;
    assert_eq!(rt; answers.as_slice(), [0, 1].as_slice());
    assert_eq!(rt; gate.seen.load(Ordering::SeqCst), 2);
    Ok(())
}

#[test]
fn two_tests_are_run_at_once(rt: HostRuntime) -> Result<(), Fail> {
    let alloc = rt.alloc();
    let gate = Meeting::new();
    let mut shelf = shelf_with_node(&rt)?;
    let mut sink = MemorySink::new(alloc, 4096, Vec::new(alloc)).with_room(4096)?;
    let words = words_of(alloc, REPLAY_NODE)?;
    let status = kiasan_gated(&rt, words.as_slice(), &mut shelf, &mut sink, &gate);
    assert_eq!(rt; status, Status::Complete);
    assert_eq!(rt; gate.seen.load(Ordering::SeqCst), 2);
    Ok(())
}

/// A gate at which the pieces 0 to 3 wait until each of them has begun, or have looked for it so often. It knows of each whether
/// it was begun, and whether it was left.
#[derive(Drop)]
struct Crowd {
    first: AtomicU64,
    second: AtomicU64,
    third: AtomicU64,
    fourth: AtomicU64,
    /// How many of the four have seen that all have begun.
    seen: AtomicU64,
}

/// What a gate knows of a piece.
const BEGUN: u64 = 1;

const LEFT: u64 = 2;

impl Crowd {
    fn new() -> Crowd {
        Crowd {
            first: AtomicU64::new(0),
            second: AtomicU64::new(0),
            third: AtomicU64::new(0),
            fourth: AtomicU64::new(0),
            seen: AtomicU64::new(0),
        }
    }

    fn set(&self, piece: usize, state: u64) {
        match piece {
            0 => self.first.store(state, Ordering::SeqCst),
            1 => self.second.store(state, Ordering::SeqCst),
            2 => self.third.store(state, Ordering::SeqCst),
            3 => self.fourth.store(state, Ordering::SeqCst),
            _ => (),
        }
    }

    fn have_begun(&self) -> bool {
        self.first.load(Ordering::SeqCst) > 0
            && self.second.load(Ordering::SeqCst) > 0
            && self.third.load(Ordering::SeqCst) > 0
            && self.fourth.load(Ordering::SeqCst) > 0
    }

    fn are_left(&self) -> bool {
        self.first.load(Ordering::SeqCst) == LEFT
            && self.second.load(Ordering::SeqCst) == LEFT
            && self.third.load(Ordering::SeqCst) == LEFT
            && self.fourth.load(Ordering::SeqCst) == LEFT
    }
}

impl Gate for Crowd {
    fn enter(&self, piece: usize) {
        self.set(piece, BEGUN);
        for _ in 0..MOST_LOOKS {
            if self.have_begun() {
                self.seen.fetch_add(1, Ordering::SeqCst);
                return;
            }
        }
    }

    fn leave(&self, piece: usize) {
        self.set(piece, LEFT);
    }
}

/// Four pieces by four workers, each of which has a number of its own at the gate.
#[test]
fn four_workers_are_at_work_at_once(rt: HostRuntime) -> Result<(), Fail> {
    let gate = Crowd::new();
    let pieces = numbers(rt.alloc(), 4)?;
    let answers = map_in_order(
        &rt,
        pieces,
        4,
        &gate,
        &|piece: u64| -> Result<u64, AllocError> { Ok(piece) },
    )?;
    assert_eq!(rt; answers.as_slice().len(), 4);
    assert_eq!(rt; gate.seen.load(Ordering::SeqCst), 4);
    assert!(rt; gate.are_left(), "each piece is left");
    Ok(())
}

/// A gate that counts.
#[derive(Drop)]
struct Count {
    begun: AtomicU64,
    left: AtomicU64,
}

impl Gate for Count {
    fn enter(&self, _piece: usize) {
        self.begun.fetch_add(1, Ordering::SeqCst);
    }

    fn leave(&self, _piece: usize) {
        self.left.fetch_add(1, Ordering::SeqCst);
    }
}

/// The 24 tests of the sample's 24 paths are run. A call of the shelf would fail, and be counted.
#[test]
fn a_sample_runs_its_tests(rt: HostRuntime) -> Result<(), Fail> {
    let alloc = rt.alloc();
    let gate = Count {
        begun: AtomicU64::new(0),
        left: AtomicU64::new(0),
    };
    let mut shelf = MemoryShelf::new(Vec::new(alloc), vec![in alloc; 0u64]?);
    let mut sink = MemorySink::new(alloc, 4096, Vec::new(alloc)).with_room(4096)?;
    let words = words_of(alloc, "sample 6")?;
    let status = kiasan_gated(&rt, words.as_slice(), &mut shelf, &mut sink, &gate);
    assert_eq!(rt; status, Status::Complete);
    assert_eq!(rt; gate.begun.load(Ordering::SeqCst), 24);
    assert_eq!(rt; gate.left.load(Ordering::SeqCst), 24);
    assert_eq!(rt; shelf.faults(), 0);
    Ok(())
}

/// A shelf with the class of the text, and its tests.
fn shelf_with_node<R: AllocGlobal + Threads + Sync>(rt: &R) -> Result<MemoryShelf, AllocError> {
    let alloc = rt.alloc();
    let class = assembled(rt, TEXT_NODE)?;
    let mut files = Vec::new(alloc);
    files.push((String::from_str(alloc, "Node.class")?, class))?;
    let tests = TESTS_NODE.as_bytes().to_vec(alloc)?;
    files.push((String::from_str(alloc, "Node.tests")?, tests))?;
    Ok(MemoryShelf::new(files, Vec::new(alloc)))
}

#[test]
fn each_answer_stands_in_the_place_of_its_piece(rt: HostRuntime) -> Result<(), Fail> {
    for count in [0, 1, 63, 64, 65, 1_000] {
        let placed = are_in_place(&rt, count)?;
        assert!(rt; placed, "{count} pieces");
    }
    Ok(())
}

/// Whether numbers that are answered as they are stand in their places, whoever does it.
fn are_in_place<R: AllocGlobal + Threads + Sync>(rt: &R, count: u64) -> Result<bool, AllocError> {
    if !are_answered(rt, count, 1)? {
        return Ok(false);
    }
    if !are_answered(rt, count, 2)? {
        return Ok(false);
    }
    if !are_answered(rt, count, 7)? {
        return Ok(false);
    }
    are_answered(rt, count, 64)
}

fn are_answered<R: AllocGlobal + Threads + Sync>(
    rt: &R,
    count: u64,
    workers: usize,
) -> Result<bool, AllocError>
    requires { (1 ≤ workers) × (workers ≤ 64) }
{
    let pieces = numbers(rt.alloc(), count)?;
    let answers = map_in_order(
        rt,
        pieces,
        workers,
        &OpenGate,
        &|piece: u64| -> Result<u64, AllocError> { Ok(piece) },
    )?;
    let wanted = numbers(rt.alloc(), count)?;
    Ok(answers.as_slice() == wanted.as_slice())
}

/// The numbers from 0 on, so many.
fn numbers(alloc: Global, count: u64) -> Result<Vec<u64>, AllocError> {
    let mut numbers = Vec::new(alloc);
    for number in 0..count {
        numbers.push(number)?;
    }
    Ok(numbers)
}

#[test]
fn a_piece_without_memory_is_the_want_of_all(rt: HostRuntime) -> Result<(), Fail> {
    let pieces = numbers(rt.alloc(), 1_000)?;
    let answers = map_in_order(
        &rt,
        pieces,
        7,
        &OpenGate,
        &|piece: u64| -> Result<u64, AllocError> {
            if piece == 640 {
                Err(AllocError)
            } else {
                Ok(piece)
            }
        },
    );
    assert!(rt; answers.is_err(), "one piece lacks memory");
    Ok(())
}
