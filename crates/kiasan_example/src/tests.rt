//! What no row of words over files can show of the top call: how often it reads a file, a sink that fails, and a class file that
//! is written.

use kb_outside::{MemoryShelf, MemorySink};
use kb_samples::CLASS_A;
use kiasan::{Status, kiasan};
use std::alloc::{AllocError, Global};
use std::test::Fail;
use std::thread::Threads;

const EXPLORE_A: &str = "explore --method A.f(II)I A.class";

const ASSEMBLE_A: &str = "assemble A.asm";

const SAMPLE_6: &str = "sample 6";

const REPLAY_A: &str = "replay --tests A.tests A.class";

/// The test of class A's one path.
const TEST_A: &str = "test A.f(II)I
bounds alloc 16 loops 10 depth 16 steps 2000
arg 0
arg 0
returns 0
end
";

/// The text of class A.
const TEXT_A: &str = "class 0021 A java/lang/Object
method 0009 f (II)I 2 2
iload_0
iload_1
iadd
ireturn
end
";

/// A shelf with class A, its test and its text, whose calls of these numbers fail, from 0.
fn shelf_failing_at(alloc: Global, fails: Vec<u64>) -> Result<MemoryShelf, AllocError> {
    let mut files = Vec::new(alloc);
    files.push((String::from_str(alloc, "A.class")?, CLASS_A.to_vec(alloc)?))?;
    let tests = TEST_A.as_bytes().to_vec(alloc)?;
    files.push((String::from_str(alloc, "A.tests")?, tests))?;
    let text = TEXT_A.as_bytes().to_vec(alloc)?;
    files.push((String::from_str(alloc, "A.asm")?, text))?;
    Ok(MemoryShelf::new(files, fails))
}

/// A sink that takes 10 bytes in a call, and fails at those of these numbers, from 0.
pub fn sink_failing_at(alloc: Global, fails: Vec<u64>) -> Result<MemorySink, Fail> {
    Ok(MemorySink::new(alloc, 10, fails).with_room(4096)?)
}

/// The program's answer to these words.
pub fn answer_to<R: AllocGlobal + Threads + Sync>(
    rt: &R,
    line: &str,
    shelf: &mut MemoryShelf,
    sink: &mut MemorySink,
) -> Result<Status, AllocError> {
    let words = words_of(rt.alloc(), line)?;
    Ok(kiasan(rt, words.as_slice(), shelf, sink))
}

/// The words of a line.
pub fn words_of(alloc: Global, line: &str) -> Result<Vec<String>, AllocError> {
    let mut words = Vec::new(alloc);
    for word in line.split_whitespace() {
        words.push(String::from_str(alloc, word)?)?;
    }
    Ok(words)
}

/// The class file of a text.
pub fn assembled<R: AllocGlobal + Threads + Sync>(
    rt: &R,
    text: &str,
) -> Result<Vec<u8>, AllocError> {
    let alloc = rt.alloc();
    let text = text.as_bytes().to_vec(alloc)?;
    let file = (String::from_str(alloc, "A.asm")?, text);
    let mut shelf = MemoryShelf::new(vec![in alloc; file]?, Vec::new(alloc));
    let Ok(mut sink) = MemorySink::new(alloc, 4096, Vec::new(alloc)).with_room(4096) else {
        return Err(AllocError);
    };
    let words = words_of(alloc, ASSEMBLE_A)?;
    let status = kiasan(rt, words.as_slice(), &mut shelf, &mut sink);
    if status != Status::Complete {
        return Err(AllocError);
    }
    sink.bytes().to_vec(alloc)
}

/// A second call of the shelf would fail, and be counted.
#[test]
fn an_exploration_reads_its_file_once(rt: HostRuntime) -> Result<(), Fail> {
    let alloc = rt.alloc();
    let mut shelf = shelf_failing_at(alloc, vec![in alloc; 1u64]?)?;
    let mut sink = sink_failing_at(alloc, Vec::new(alloc))?;
    let status = answer_to(&rt, EXPLORE_A, &mut shelf, &mut sink)?;
    assert_eq!(rt; status, Status::Complete);
    assert_eq!(rt; shelf.faults(), 0);
    Ok(())
}

/// A third call of the shelf would fail, and be counted.
#[test]
fn a_replay_reads_each_of_its_files_once(rt: HostRuntime) -> Result<(), Fail> {
    let alloc = rt.alloc();
    let mut shelf = shelf_failing_at(alloc, vec![in alloc; 2u64]?)?;
    let mut sink = sink_failing_at(alloc, Vec::new(alloc))?;
    let status = answer_to(&rt, REPLAY_A, &mut shelf, &mut sink)?;
    assert_eq!(rt; status, Status::Complete);
    assert_eq!(rt; shelf.faults(), 0);
    Ok(())
}

/// The third call of the sink fails.
#[test]
fn a_sink_that_fails_has_the_front_of_the_report(rt: HostRuntime) -> Result<(), Fail> {
    let alloc = rt.alloc();
    let mut shelf = shelf_failing_at(alloc, Vec::new(alloc))?;
    let mut sink = sink_failing_at(alloc, vec![in alloc; 2u64]?)?;
    let status = answer_to(&rt, EXPLORE_A, &mut shelf, &mut sink)?;
    assert_eq!(rt; status, Status::WriteFault);
    assert_eq!(rt; sink.bytes(), b"kiasan report 1\ntarg".as_slice());
    Ok(())
}

/// The first call of the sink fails.
#[test]
fn a_sink_that_fails_has_nothing_of_the_sample(rt: HostRuntime) -> Result<(), Fail> {
    let alloc = rt.alloc();
    let mut shelf = shelf_failing_at(alloc, Vec::new(alloc))?;
    let mut sink = sink_failing_at(alloc, vec![in alloc; 0u64]?)?;
    let status = answer_to(&rt, SAMPLE_6, &mut shelf, &mut sink)?;
    assert_eq!(rt; status, Status::WriteFault);
    assert_eq!(rt; sink.bytes().len(), 0);
    Ok(())
}

/// A text that is assembled has as many bytes as the class file, whose pool has other places.
#[test]
fn a_class_is_assembled(rt: HostRuntime) -> Result<(), Fail> {
    let alloc = rt.alloc();
    let mut shelf = shelf_failing_at(alloc, Vec::new(alloc))?;
    let mut sink = sink_failing_at(alloc, Vec::new(alloc))?;
    let status = answer_to(&rt, ASSEMBLE_A, &mut shelf, &mut sink)?;
    assert_eq!(rt; status, Status::Complete);
    assert_eq!(rt; sink.bytes().len(), CLASS_A.len());
    Ok(())
}
