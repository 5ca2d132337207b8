//! Shelves and sinks over files of the system and in memory, and readers and writers that fail.

ghost use Rattle.std.specs.Prelude.{◌<◌};

use crate::{
    FileShelf, MemoryShelf, MemorySink, OutSink, Shelf, ShelfStop, Sink, SinkFailed, Watched,
    WordsStop, command_words, read_up_to, send_all,
};
use std::alloc::{AllocError, Global};
use std::env::{Env, FillError};
use std::io::{self, ErrorKind, Read, Write};
use std::path::PathBuf;
use std::test::Fail;
use std::{env, fs, process};

fn file(alloc: Global, name: &str, text: &str) -> Result<(String, Vec<u8>), AllocError> {
    Ok((
        String::from_str(alloc, name)?,
        text.as_bytes().to_vec(alloc)?,
    ))
}

// What a read of this name, with this limit, appends to "<".
fn read_all<S: Shelf>(
    alloc: Global,
    shelf: &mut S,
    name: &str,
    limit: usize,
) -> Result<Vec<u8>, ShelfStop> {
    let Ok(mut into) = b"<".to_vec(alloc) else {
        return Err(ShelfStop::NoMemory);
    };
    shelf.read(name, limit, &mut into)?;
    Ok(into)
}

// Whether a read gave these bytes, or failed.
fn is_wanted(read: &Result<Vec<u8>, ShelfStop>, want: Option<&[u8]>) -> bool {
    match (read, want) {
        (Ok(bytes), Some(text)) => bytes.as_slice() == text,
        (Err(ShelfStop::Failed), None) => true,
        _ => false,
    }
}

// A shelf with two files of one name and a third one, which fails at two calls.
fn failing_shelf(alloc: Global) -> Result<MemoryShelf, AllocError> {
    let mut files = Vec::new(alloc);
    for (name, text) in [("a", "one"), ("a", "two"), ("b", "12345")] {
        files.push(file(alloc, name, text)?)?;
    }
    Ok(MemoryShelf::new(files, vec![in alloc; 1u64, 4]?))
}

// Reads of that shelf: the name, the limit, and what is there behind the read.
const READS: [(&str, usize, Option<&[u8]>); 7] = [
    ("a", 9, Some(b"<one")),
    ("a", 9, None),
    ("b", 4, Some(b"<12345")),
    ("b", 3, Some(b"<1234")),
    ("b", 9, None),
    ("c", 9, None),
    ("b", 0, Some(b"<1")),
];

#[test]
fn shelf_in_memory_fails_where_it_is_told_to(rt: HostRuntime) -> Result<(), Fail> {
    let mut shelf = failing_shelf(rt.alloc())?;
    for (call, (name, limit, want)) in READS.into_iter().enumerate() {
        let read = read_all(rt.alloc(), &mut shelf, name, limit);
        assert!(rt; is_wanted(&read, want), "call {call}");
    }
    assert_eq!(rt; shelf.faults(), 3);
    Ok(())
}

#[test]
fn refused_read_leaves_what_was_there(rt: HostRuntime) -> Result<(), Fail> {
    let alloc = rt.alloc();
    let mut shelf = MemoryShelf::new(Vec::new(alloc), Vec::new(alloc));
    let mut into = b"kept".to_vec(alloc)?;
    assert_eq!(rt; shelf.read("a", 9, &mut into), Err(ShelfStop::Failed));
    assert_eq!(rt; into.as_slice(), b"kept".as_slice());
    Ok(())
}

// A sink that takes at most so many bytes in a call, fails at the calls of these numbers, and has so much room.
fn sink_with_room(
    alloc: Global,
    most: usize,
    fails: Vec<u64>,
    room: usize,
) -> Result<MemorySink, Fail>
    requires { 0 < most }
{
    Ok(MemorySink::new(alloc, most, fails).with_room(room)?)
}

#[test]
fn sink_in_memory_fails_where_it_is_told_to(rt: HostRuntime) -> Result<(), Fail> {
    let fails = vec![in rt.alloc(); 1u64]?;
    let mut sink = sink_with_room(rt.alloc(), 3, fails, 7)?;
    let wants = [Ok(3), Err(SinkFailed), Ok(3), Ok(1), Err(SinkFailed)];
    for (call, want) in wants.into_iter().enumerate() {
        assert_eq!(rt; sink.write(b"abcde"), want, "call {call}");
    }
    assert_eq!(rt; sink.bytes(), b"abcabca".as_slice());
    assert_eq!(rt; sink.faults(), 2);
    Ok(())
}

#[test]
fn text_is_sent_whole(rt: HostRuntime) -> Result<(), Fail> {
    let text = b"kiasan report 1\ntarget A.f(II)I\n".as_slice();
    let mut sink = sink_with_room(rt.alloc(), 10, Vec::new(rt.alloc()), 100)?;
    assert_eq!(rt; send_all(&mut sink, text), Ok(()));
    assert_eq!(rt; sink.bytes(), text);
    Ok(())
}

#[test]
fn text_is_sent_by_its_front(rt: HostRuntime) -> Result<(), Fail> {
    let fails = vec![in rt.alloc(); 2u64]?;
    let mut sink = sink_with_room(rt.alloc(), 10, fails, 100)?;
    assert_eq!(rt;
        send_all(&mut sink, b"kiasan report 1\ntarget A.f(II)I\n"),
        Err(SinkFailed)
    );
    assert_eq!(rt; sink.bytes(), b"kiasan report 1\ntarg".as_slice());
    assert_eq!(rt; sink.faults(), 1);
    Ok(())
}

// A path of this process's own for a file of the test.
fn path_of(rt: &HostRuntime, name: &str) -> Result<PathBuf, Fail> {
    let number = process::id(rt.process());
    let own = format!(in rt.alloc(); "kb_outside_{number}_{name}")?;
    Ok(env::temp_dir(rt)?.join(rt.alloc(), own.as_str())?)
}

// So many bytes, with a period that no power of two has.
fn varied(alloc: Global, count: usize) -> Result<Vec<u8>, AllocError> {
    let mut bytes = Vec::new(alloc);
    for i in 0..count {
        bytes.push((i % 251) as u8)?;
    }
    Ok(bytes)
}

// Whether these are such bytes.
fn are_varied(bytes: &[u8]) -> bool {
    for (i, byte) in bytes.iter().enumerate() {
        if *byte != (i % 251) as u8 {
            return false;
        }
    }
    true
}

// Whether a read of such bytes gave so many, behind what was there.
fn has_read(read: &[u8], count: usize) -> bool {
    match read {
        [b'<', behind @ ..] => behind.len() == count && are_varied(behind),
        _ => false,
    }
}

// The length of a file, the limit, and how many bytes are read: a file as long as the limit, one longer and two longer, of which
// one byte is left out.
const LENGTHS: [(usize, usize, usize); 8] = [
    (8192, 8192, 8192),
    (8193, 8192, 8193),
    (8194, 8192, 8193),
    (1_048_576, 1_048_576, 1_048_576),
    (1_048_577, 1_048_576, 1_048_577),
    (1_048_578, 1_048_576, 1_048_577),
    (20_000, 9999, 10_000),
    (0, 9, 0),
];

#[test]
fn files_are_read_up_to_the_limit(rt: HostRuntime) -> Result<(), Fail> {
    let path = path_of(&rt, "read")?;
    let name = path.as_path().as_str();
    let mut shelf = FileShelf::new(&rt);
    for (length, limit, want) in LENGTHS {
        write_varied(&rt, name, length)?;
        let read = read_all(rt.alloc(), &mut shelf, name, limit).expect(&rt, "a read");
        assert!(rt;
            has_read(read.as_slice(), want),
            "{length} bytes, at most {limit}"
        );
    }
    assert_eq!(rt; shelf.faults(), 0);
    fs::remove_file(&rt, name)?;
    assert!(rt; is_wanted(&read_all(rt.alloc(), &mut shelf, name, 9), None));
    assert_eq!(rt; shelf.faults(), 1);
    Ok(())
}

fn write_varied(rt: &HostRuntime, name: &str, length: usize) -> Result<(), Fail> {
    let text = varied(rt.alloc(), length)?;
    fs::write(rt, name, text.as_slice())?;
    Ok(())
}

#[test]
fn a_directory_is_no_file(rt: HostRuntime) -> Result<(), Fail> {
    let directory = env::temp_dir(&rt)?;
    let mut shelf = FileShelf::new(&rt);
    let read = read_all(rt.alloc(), &mut shelf, directory.as_path().as_str(), 9);
    assert!(rt; is_wanted(&read, None));
    assert_eq!(rt; shelf.faults(), 1);
    Ok(())
}

// Gives its bytes in blocks of at most `most`, and fails at the call of that number, which counts from 0.
#[derive(Drop)]
struct Blocks<'a> {
    rest: &'a [u8],
    most: usize,
    fails: u64,
    calls: u64,
}

impl<'a> Read for Blocks<'a> {
    fn read(&mut self, buf: &mut [u8]) -> io::Result<usize> {
        let call = self.calls;
        self.calls = call.saturating_add(1);
        if call == self.fails {
            return Err(io::Error::from(ErrorKind::Other));
        }
        let count = self.most.min(self.rest.len()).min(buf.len());
        buf[..count].copy_from_slice(&self.rest[..count]);
        self.rest = &self.rest[count..];
        Ok(count)
    }
}

// Limits, the calls that fail, and how many bytes are read: 1000 bytes in blocks of 7 are 143 blocks, and a call that gives
// nothing.
const BLOCKS: [(usize, u64, Result<usize, ShelfStop>); 8] = [
    (999, u64::MAX, Ok(1000)),
    (998, u64::MAX, Ok(999)),
    (5000, u64::MAX, Ok(1000)),
    (5000, 144, Ok(1000)),
    // One byte past the limit is the last of block 143: no further block is asked for.
    (998, 143, Ok(999)),
    (5000, 0, Err(ShelfStop::Failed)),
    (5000, 70, Err(ShelfStop::Failed)),
    (5000, 143, Err(ShelfStop::Failed)),
];

#[test]
fn short_blocks_are_read_and_an_error_in_the_middle_refuses(rt: HostRuntime) -> Result<(), Fail> {
    let text = varied(rt.alloc(), 1000)?;
    for (limit, fails, want) in BLOCKS {
        let mut into = b"<".to_vec(rt.alloc())?;
        let read = read_blocks(text.as_slice(), limit, fails, &mut into);
        assert_eq!(rt;
            read,
            want.map(|_| ()),
            "at most {limit}, call {fails} fails"
        );
        let count = want.unwrap_or(0);
        assert!(rt;
            has_read(into.as_slice(), count),
            "at most {limit}, call {fails} fails"
        );
    }
    Ok(())
}

fn read_blocks(text: &[u8], limit: usize, fails: u64, into: &mut Vec<u8>) -> Result<(), ShelfStop> {
    let mut blocks = Watched::new(Blocks {
        rest: text,
        most: 7,
        fails,
        calls: 0,
    });
    read_up_to(&mut blocks, limit, into)
}

// What comes of a text that is sent to a sink over this writer, and how many faults the sink counts.
fn sent<W: Write + Drop>(to: W, text: &[u8]) -> (Result<(), SinkFailed>, u64) {
    let mut out = OutSink::new(to);
    let sent = send_all(&mut out, text);
    (sent, out.faults())
}

#[test]
fn writer_takes_the_text_and_its_refusals_are_counted(rt: HostRuntime) -> Result<(), Fail> {
    let path = path_of(&rt, "written")?;
    let name = path.as_path().as_str();
    assert_eq!(rt; sent(fs::create(&rt, name)?, b"a text"), (Ok(()), 0));
    let written = fs::read(&rt, name)?;
    assert_eq!(rt; written.as_slice(), b"a text".as_slice());
    assert_eq!(rt; sent(fs::open(&rt, name)?, b"more"), (Err(SinkFailed), 1));
    fs::remove_file(&rt, name)?;
    Ok(())
}

#[test]
fn writer_has_what_is_said_to_be_taken(rt: HostRuntime) -> Result<(), Fail> {
    let text = varied(rt.alloc(), 100)?;
    let mut room = [0u8; 64];
    assert_eq!(rt;
        sent(room.as_mut_slice(), text.as_slice()),
        (Err(SinkFailed), 1)
    );
    assert!(rt; are_varied(room.as_slice()));
    Ok(())
}

/// A writer that takes each piece whole, and counts its calls and their bytes.
#[derive(Drop)]
struct Counting {
    calls: usize,
    bytes: usize,
}

impl Write for Counting {
    fn write(&mut self, buf: &[u8]) -> io::Result<usize> {
        self.calls = self.calls.saturating_add(1);
        self.bytes = self.bytes.saturating_add(buf.len());
        Ok(buf.len())
    }

    fn flush(&mut self) -> io::Result<()> {
        Ok(())
    }
}

#[test]
fn writer_gets_a_text_by_one_call(rt: HostRuntime) -> Result<(), Fail> {
    let text = varied(rt.alloc(), 100_000)?;
    let mut counting = Counting { calls: 0, bytes: 0 };
    assert_eq!(rt; sent(&mut counting, text.as_slice()), (Ok(()), 0));
    assert_eq!(rt; counting.calls, 1);
    assert_eq!(rt; counting.bytes, 100_000);
    Ok(())
}

/// A command line of the program's name and one word, with these bytes.
#[derive(Drop)]
struct CommandLine<'a> {
    word: &'a [u8],
}

impl<'a> Env for CommandLine<'a> {
    fn arg(&self, i: usize, buf: &mut [u8]) -> Result<usize, FillError> {
        let text = match i {
            0 => b"program".as_slice(),
            1 => self.word,
            _ => return Err(FillError::NotPresent),
        };
        if buf.len() < text.len() {
            return Err(FillError::TooLong);
        }
        buf[..text.len()].copy_from_slice(text);
        Ok(text.len())
    }

    fn var(&self, _name: &str, _buf: &mut [u8]) -> Result<usize, FillError> {
        Err(FillError::NotPresent)
    }

    fn var_at(&self, _i: usize, _buf: &mut [u8]) -> Result<usize, FillError> {
        Err(FillError::NotPresent)
    }
}

#[test]
fn words_are_those_after_the_name(rt: HostRuntime) -> Result<(), Fail> {
    let line = CommandLine {
        word: "größe".as_bytes(),
    };
    match command_words(rt.alloc(), env::args(&(line, rt.alloc()))) {
        Ok(words) => {
            assert_eq!(rt; words.len(), 1);
            assert_eq!(rt; words[0].as_str(), "größe");
        }
        Err(_) => assert!(rt; false, "the word is UTF-8"),
    }
    Ok(())
}

#[test]
fn a_word_that_is_not_utf8_is_told(rt: HostRuntime) -> Result<(), Fail> {
    let line = CommandLine {
        word: b"gr\xf6\xdfe".as_slice(),
    };
    match command_words(rt.alloc(), env::args(&(line, rt.alloc()))) {
        Ok(_) => assert!(rt; false, "the word is not UTF-8"),
        Err(stop) => {
            assert_eq!(rt; stop, WordsStop::NotUtf8);
            assert_eq!(rt; stop.code(), 71);
        }
    }
    assert_eq!(rt; WordsStop::NoMemory.code(), 8);
    Ok(())
}
