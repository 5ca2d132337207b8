//! The top call over a shelf and a sink that fail at each of their calls in turn, and on texts at and above their limit.

use crate::tests::{answer_to, assembled, sink_failing_at, words_of};
use kb_outside::{MemoryShelf, MemorySink};
use kb_samples::CLASS_A;
use kiasan::{Status, kiasan};
use std::alloc::{AllocError, Global};
use std::test::Fail;
use std::thread::Threads;

const EXPLORE_SHAPES: &str = "explore --method A.area()I H.class S.class A.class B.class";

const EXPLORE_A: &str = "explore --method A.f(II)I A.class";

const REPLAY_LONG: &str = "replay --tests long A.class";

const ASSEMBLE_LONG: &str = "assemble long";

/// How many bytes a text may have.
const MOST_OF_TEXT: usize = 67_108_864;

/// How many writes of 10 bytes the report on class A takes, which has 223 bytes.
const WRITES: u64 = 23;

/// A class with a shape, and a method that asks it for its area.
const TEXT_H: &str = "class 0021 H java/lang/Object
field 0000 s LS;
method 0009 g (LH;)I 1 1
aload_0
getfield H s LS;
invokevirtual S area ()I
ireturn
end
";

/// A shape, of which two classes are.
const TEXT_S: &str = "class 0421 S java/lang/Object
method 0401 area ()I
";

const TEXT_A: &str = "class 0021 A S
method 0001 area ()I 1 1
iconst_1
ireturn
end
";

const TEXT_B: &str = "class 0021 B S
method 0001 area ()I 1 1
iconst_2
ireturn
end
";

/// The four classes are four reads. Where one of them fails, the status says so, and nothing is written.
#[test]
fn each_read_that_fails_is_told(rt: HostRuntime) -> Result<(), Fail> {
    for call in 0..4 {
        let (status, written) = explored_shapes(&rt, call)?;
        assert_eq!(rt; status, Status::ReadFault);
        assert_eq!(rt; written, 0);
    }
    let (status, _) = explored_shapes(&rt, 4)?;
    assert_eq!(rt; status, Status::Complete);
    Ok(())
}

/// The status of an exploration whose shelf fails at the call of that number, and how many bytes it has written.
fn explored_shapes<R: AllocGlobal + Threads + Sync>(
    rt: &R,
    call: u64,
) -> Result<(Status, usize), Fail> {
    let alloc = rt.alloc();
    let mut shelf = shelf_with_shapes(rt, call)?;
    let mut sink = sink_failing_at(alloc, Vec::new(alloc))?;
    let status = answer_to(rt, EXPLORE_SHAPES, &mut shelf, &mut sink)?;
    Ok((status, sink.bytes().len()))
}

/// A shelf with the four classes, which fails at the call of that number.
fn shelf_with_shapes<R: AllocGlobal + Threads + Sync>(
    rt: &R,
    call: u64,
) -> Result<MemoryShelf, AllocError> {
    let alloc = rt.alloc();
    let mut files = Vec::new(alloc);
    add_class(rt, "H.class", TEXT_H, &mut files)?;
    add_class(rt, "S.class", TEXT_S, &mut files)?;
    add_class(rt, "A.class", TEXT_A, &mut files)?;
    add_class(rt, "B.class", TEXT_B, &mut files)?;
    Ok(MemoryShelf::new(files, vec![in alloc; call]?))
}

/// Adds the class file of a text.
fn add_class<R: AllocGlobal + Threads + Sync>(
    rt: &R,
    name: &str,
    text: &str,
    files: &mut Vec<(String, Vec<u8>)>,
) -> Result<(), AllocError> {
    let class = assembled(rt, text)?;
    let name = String::from_str(rt.alloc(), name)?;
    Ok(files.push((name, class))?)
}

/// Each write takes 10 bytes of the report, the last one 3. Where one of them fails, those before it have written their bytes.
#[test]
fn each_write_that_fails_is_told(rt: HostRuntime) -> Result<(), Fail> {
    let mut written: usize = 0;
    for call in 0..WRITES {
        let (status, bytes) = explored_class(&rt, call)?;
        assert_eq!(rt; status, Status::WriteFault);
        assert_eq!(rt; bytes, written);
        written = written.saturating_add(10);
    }
    let (status, bytes) = explored_class(&rt, WRITES)?;
    assert_eq!(rt; status, Status::Complete);
    assert_eq!(rt; bytes, 223);
    Ok(())
}

/// The status of an exploration of class A whose sink fails at the call of that number, and how many bytes it has taken.
fn explored_class<R: AllocGlobal + Threads + Sync>(
    rt: &R,
    call: u64,
) -> Result<(Status, usize), Fail> {
    let alloc = rt.alloc();
    let file = (String::from_str(alloc, "A.class")?, CLASS_A.to_vec(alloc)?);
    let mut shelf = MemoryShelf::new(vec![in alloc; file]?, Vec::new(alloc));
    let mut sink = sink_failing_at(alloc, vec![in alloc; call]?)?;
    let status = answer_to(rt, EXPLORE_A, &mut shelf, &mut sink)?;
    Ok((status, sink.bytes().len()))
}

/// A text of tests of so many bytes is read, and its first line is bad; of one byte more it is refused as too long.
#[test]
fn a_text_of_tests_may_have_so_many_bytes(rt: HostRuntime) -> Result<(), Fail> {
    let (status, text) = answer_on_long(&rt, REPLAY_LONG, MOST_OF_TEXT)?;
    assert_eq!(rt; status, Status::Text);
    assert_eq!(rt; text.as_slice(), b"refused 60 line 1\n".as_slice());
    let (status, text) = answer_on_long(&rt, REPLAY_LONG, MOST_OF_TEXT + 1)?;
    assert_eq!(rt; status, Status::Text);
    assert_eq!(rt; text.as_slice(), b"refused 63\n".as_slice());
    Ok(())
}

/// So is a text of the assembler.
#[test]
fn a_text_of_a_class_may_have_so_many_bytes(rt: HostRuntime) -> Result<(), Fail> {
    let (status, text) = answer_on_long(&rt, ASSEMBLE_LONG, MOST_OF_TEXT)?;
    assert_eq!(rt; status, Status::Text);
    assert_eq!(rt; text.as_slice(), b"refused 30 line 1\n".as_slice());
    let (status, text) = answer_on_long(&rt, ASSEMBLE_LONG, MOST_OF_TEXT + 1)?;
    assert_eq!(rt; status, Status::Text);
    assert_eq!(rt; text.as_slice(), b"refused 63\n".as_slice());
    Ok(())
}

/// The status and the text of the answer to these words, where the file `long` has so many bytes.
fn answer_on_long<R: AllocGlobal + Threads + Sync>(
    rt: &R,
    line: &str,
    size: usize,
) -> Result<(Status, Vec<u8>), Fail> {
    let alloc = rt.alloc();
    let mut shelf = shelf_with_long(alloc, size)?;
    let mut sink = sink_failing_at(alloc, Vec::new(alloc))?;
    let words = words_of(alloc, line)?;
    let status = kiasan(rt, words.as_slice(), &mut shelf, &mut sink);
    Ok((status, copied(alloc, &sink)?))
}

fn copied(alloc: Global, sink: &MemorySink) -> Result<Vec<u8>, AllocError> {
    sink.bytes().to_vec(alloc)
}

/// A shelf with class A and a file of so many bytes.
fn shelf_with_long(alloc: Global, size: usize) -> Result<MemoryShelf, AllocError> {
    let mut files = Vec::new(alloc);
    files.push((String::from_str(alloc, "A.class")?, CLASS_A.to_vec(alloc)?))?;
    files.push((String::from_str(alloc, "long")?, long_line(alloc, size)?))?;
    Ok(MemoryShelf::new(files, Vec::new(alloc)))
}

/// A line of so many bytes.
fn long_line(alloc: Global, size: usize) -> Result<Vec<u8>, AllocError> {
    let mut line = Vec::new(alloc);
    line.resize(size, b'x')?;
    Ok(line)
}
