//! The line of a refusal.
ghost use Rattle.std.specs.Prelude.{◌≡◌, IfOk};
ghost use Rattle.kb_refusals.specs.Refusals.{class_refusal_line, code_refusal_line, link_refusal_line, refusal_line, text_refusal_line, word_refusal_line};

use crate::NoMemory;
use crate::lines::{
    class_line, code_line, entry_line, field_line, file_line, handler_line, method_line,
    offset_line, opcode_line, outside_line, pool_line, reach_line, target_line, word_line,
};
use crate::refusal::{Refusal, TextRefusal};
use kb_classfile::ClassRefusal;
use kb_code::CodeRefusal;
use kb_words::WordFault;
use kb_world::LinkRefusal;
use std::alloc::Global;

/// The line of a refusal; that memory runs out has none.
#[tactic(auto, unfolding(crate::specs::Refusals::unbuilt_line))]
pub fn refusal_line(alloc: Global, refusal: &Refusal) -> Result<Vec<u8>, NoMemory>
    ensures { IfOk result (λ text. text.items ≡ refusal_line refusal.now) }
{
    match refusal {
        Refusal::Words(fault) => word_refusal_line(alloc, *fault),
        Refusal::Unbuilt => Ok(String::from_str(alloc, "refused 50\n")?.into_bytes()),
        Refusal::Class(file, found) => class_refusal_line(alloc, *file, *found),
        Refusal::Code(file, method, found) => code_refusal_line(alloc, *file, *method, *found),
        Refusal::Link(found) => link_refusal_line(alloc, found),
        Refusal::Text(found) => text_refusal_line(alloc, *found),
    }
}

#[tactic(auto, unfolding(crate::specs::Refusals::class_refusal_line))]
fn class_refusal_line(
    alloc: Global,
    file: usize,
    refusal: ClassRefusal,
) -> Result<Vec<u8>, NoMemory>
    ensures { IfOk result (λ text. text.items ≡ class_refusal_line file refusal) }
{
    match refusal {
        ClassRefusal::Magic => file_line(alloc, 10, file),
        ClassRefusal::Version(major) => {
            Ok(format!(in alloc; "refused 11 file {file} version {major}\n")?.into_bytes())
        }
        ClassRefusal::Short(at) => offset_line(alloc, 12, file, at),
        ClassRefusal::Tag(entry, tag) => {
            Ok(format!(in alloc; "refused 13 file {file} entry {entry} tag {tag}\n")?.into_bytes())
        }
        ClassRefusal::PoolIndex(at, entry) => entry_line(alloc, 14, file, at, entry),
        ClassRefusal::PoolKind(at, entry) => entry_line(alloc, 15, file, at, entry),
        ClassRefusal::CodeLength(at) => offset_line(alloc, 16, file, at),
        ClassRefusal::Extra(at) => offset_line(alloc, 17, file, at),
        ClassRefusal::TwoCodes(method) => {
            Ok(format!(in alloc; "refused 18 file {file} method {method}\n")?.into_bytes())
        }
        ClassRefusal::Long => file_line(alloc, 19, file),
        ClassRefusal::NoMemory => Ok(Vec::new(alloc)),
    }
}

#[tactic(auto, unfolding(crate::specs::Refusals::code_refusal_line))]
fn code_refusal_line(
    alloc: Global,
    file: usize,
    method: usize,
    refusal: CodeRefusal,
) -> Result<Vec<u8>, NoMemory>
    ensures { IfOk result (λ text. text.items ≡ code_refusal_line file method refusal) }
{
    match refusal {
        CodeRefusal::Opcode(at, op) => opcode_line(alloc, file, method, at, op),
        CodeRefusal::Cut(at) => code_line(alloc, 21, file, method, at),
        CodeRefusal::Target(at, to) => target_line(alloc, file, method, at, to),
        CodeRefusal::Switch(at) => code_line(alloc, 23, file, method, at),
        CodeRefusal::Range(handler) => handler_line(alloc, file, method, handler),
        CodeRefusal::NoMemory => Ok(Vec::new(alloc)),
    }
}

/// The line of a refusal of linking, or of reach.
#[tactic(auto, unfolding(crate::specs::Refusals::link_refusal_line))]
fn link_refusal_line(alloc: Global, refusal: &LinkRefusal) -> Result<Vec<u8>, NoMemory>
    ensures { IfOk result (λ text. text.items ≡ link_refusal_line refusal.now) }
{
    match refusal {
        LinkRefusal::TwoMembers(file, entry) => pool_line(alloc, 37, *file, *entry),
        LinkRefusal::BadName(file, entry) => pool_line(alloc, 38, *file, *entry),
        LinkRefusal::BadDescriptor(file, entry) => pool_line(alloc, 39, *file, *entry),
        LinkRefusal::Twice(name) => class_line(alloc, 40, name),
        LinkRefusal::Missing(name) => class_line(alloc, 41, name),
        LinkRefusal::Circle(name) => class_line(alloc, 42, name),
        LinkRefusal::BadSuper(name) => class_line(alloc, 43, name),
        LinkRefusal::SplitPackage(name, method) => method_line(alloc, 44, name, method),
        LinkRefusal::NoMethod(target) => reach_line(alloc, target),
        LinkRefusal::NoField(target, at) => field_line(alloc, target, *at),
        LinkRefusal::Outside(target, at, what) => outside_line(alloc, target, *at, *what),
        LinkRefusal::Initialiser(name) => class_line(alloc, 48, name),
        LinkRefusal::TooMany => Ok(String::from_str(alloc, "refused 49\n")?.into_bytes()),
        LinkRefusal::NoMemory => Ok(Vec::new(alloc)),
    }
}

#[tactic(auto, unfolding(crate::specs::Refusals::text_refusal_line))]
fn text_refusal_line(alloc: Global, refusal: TextRefusal) -> Result<Vec<u8>, NoMemory>
    ensures { IfOk result (λ text. text.items ≡ text_refusal_line refusal) }
{
    match refusal {
        TextRefusal::AssemblyLine(number) => {
            Ok(format!(in alloc; "refused 30 line {number}\n")?.into_bytes())
        }
        TextRefusal::TestLine(number) => {
            Ok(format!(in alloc; "refused 60 line {number}\n")?.into_bytes())
        }
        TextRefusal::NoTestMethod(test) => {
            Ok(format!(in alloc; "refused 61 test {test}\n")?.into_bytes())
        }
        TextRefusal::IllTypedTest(test) => {
            Ok(format!(in alloc; "refused 62 test {test}\n")?.into_bytes())
        }
        TextRefusal::Long => Ok(String::from_str(alloc, "refused 63\n")?.into_bytes()),
    }
}

#[tactic(auto, unfolding(crate::specs::Refusals::word_refusal_line))]
fn word_refusal_line(alloc: Global, fault: WordFault) -> Result<Vec<u8>, NoMemory>
    ensures { IfOk result (λ text. text.items ≡ word_refusal_line fault) }
{
    match fault {
        WordFault::NoTests => Ok(String::from_str(alloc, "refused 89\n")?.into_bytes()),
        WordFault::NoCommand => Ok(String::from_str(alloc, "refused 90\n")?.into_bytes()),
        WordFault::Unknown(word) => word_line(alloc, 91, word),
        WordFault::NoValue(word) => word_line(alloc, 92, word),
        WordFault::BadNumber(word) => word_line(alloc, 93, word),
        WordFault::OutOfRange(word) => word_line(alloc, 94, word),
        WordFault::NoMethod => Ok(String::from_str(alloc, "refused 95\n")?.into_bytes()),
        WordFault::NoFiles => Ok(String::from_str(alloc, "refused 96\n")?.into_bytes()),
        WordFault::Repeated(word) => word_line(alloc, 97, word),
        WordFault::BadTarget(word) => word_line(alloc, 98, word),
        WordFault::TooMuch => Ok(String::from_str(alloc, "refused 99\n")?.into_bytes()),
        WordFault::NoMemory => Ok(Vec::new(alloc)),
    }
}
