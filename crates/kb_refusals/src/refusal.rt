//! Refusals, and the status of each.
ghost use Rattle.std.specs.Prelude.{◌≡◌};
ghost use Rattle.kb_refusals.specs.Refusals.{is_refusal, link_status, refusal_status};

use crate::status::Status;
use kb_classfile::ClassRefusal;
use kb_code::CodeRefusal;
use kb_words::WordFault;
use kb_world::LinkRefusal;

/// Why what the words order is not done. Files and methods are numbered from 0. What the crates below refuse stands here as they
/// tell it; where they tell that memory ran out, that is no refusal.
#[derive(Drop)]
pub enum Refusal {
    /// The words have a fault.
    Words(WordFault),
    /// Something that is not built was met.
    Unbuilt,
    /// The class file of that number has a fault.
    Class(usize, ClassRefusal),
    /// The code of a method has a fault: the file, the method.
    Code(usize, usize, CodeRefusal),
    /// The classes are not linked, or a method is not reached.
    Link(LinkRefusal),
    /// A text, or a test, is not as it must be.
    Text(TextRefusal),
}

/// Why a text is not taken, or a test not run. Tests are numbered from 0, lines from 1.
#[derive(Clone, Copy, PartialEq, Eq)]
pub enum TextRefusal {
    /// That line of an assembler text is the first that does not fit.
    AssemblyLine(usize),
    /// No list of tests goes on at that line.
    TestLine(usize),
    /// The method of that test is not there.
    NoTestMethod(usize),
    /// The input of that test is not type-correct.
    IllTypedTest(usize),
    /// A text has too many bytes.
    Long,
}

/// Whether something was refused, and it is not that memory ran out.
pub fn is_refusal(refusal: &Refusal) -> bool
    ensures { result ≡ is_refusal refusal.now }
{
    match refusal {
        Refusal::Words(WordFault::NoMemory)
        | Refusal::Class(_, ClassRefusal::NoMemory)
        | Refusal::Code(_, _, CodeRefusal::NoMemory)
        | Refusal::Link(LinkRefusal::NoMemory) => false,
        _ => true,
    }
}

/// How the program ends where it refuses so.
pub fn refusal_status(refusal: &Refusal) -> Status
    ensures { result ≡ refusal_status refusal.now }
{
    match refusal {
        Refusal::Words(_) => Status::Words,
        Refusal::Unbuilt => Status::Outside,
        Refusal::Class(..) | Refusal::Code(..) => Status::Class,
        Refusal::Link(found) => link_status(found),
        Refusal::Text(_) => Status::Text,
    }
}

fn link_status(refusal: &LinkRefusal) -> Status
    ensures { result ≡ link_status refusal.now }
{
    match refusal {
        LinkRefusal::Outside(..) | LinkRefusal::Initialiser(_) => Status::Outside,
        LinkRefusal::TwoMembers(..)
        | LinkRefusal::BadName(..)
        | LinkRefusal::BadDescriptor(..)
        | LinkRefusal::Twice(_)
        | LinkRefusal::Missing(_)
        | LinkRefusal::Circle(_)
        | LinkRefusal::BadSuper(_)
        | LinkRefusal::SplitPackage(..)
        | LinkRefusal::NoMethod(_)
        | LinkRefusal::NoField(..)
        | LinkRefusal::TooMany
        | LinkRefusal::NoMemory => Status::Link,
    }
}
