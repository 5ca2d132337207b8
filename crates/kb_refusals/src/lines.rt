//! The lines of refusals by their parts.
ghost use Rattle.std.specs.Prelude.{◌≡◌, ◌<◌, false, ◌++◌, codes, IfOk, OnOk};
ghost use Rattle.std.specs.Fmt.{digit_glyph};
ghost use Rattle.kb_names.specs.Targets.{target_text};
ghost use Rattle.kb_refusals.specs.Lines.{file_line, offset_line, entry_line, code_line, opcode_front, opcode_line, target_line, handler_line, pool_line, class_front, class_line, method_line, instruction_front, what_text, word_line, hexadecimal};

use crate::NoMemory;
use kb_names::{Name, Target, write_name, write_target};
use kb_world::What;
use std::alloc::Global;

/// The line of a refusal at a word of the command line.
#[tactic(auto, unfolding(crate::specs::Lines::word_line))]
pub(crate) fn word_line(alloc: Global, number: u32, word: usize) -> Result<Vec<u8>, NoMemory>
    ensures { IfOk result (λ text. text.items ≡ word_line number word) }
{
    Ok(format!(in alloc; "refused {number} word {word}\n")?.into_bytes())
}

/// The line of a refusal in a class file.
#[tactic(auto, unfolding(crate::specs::Lines::file_line))]
pub(crate) fn file_line(alloc: Global, number: u32, file: usize) -> Result<Vec<u8>, NoMemory>
    ensures { IfOk result (λ text. text.items ≡ file_line number file) }
{
    Ok(format!(in alloc; "refused {number} file {file}\n")?.into_bytes())
}

/// The line of a refusal at an offset in a class file.
#[tactic(auto, unfolding(crate::specs::Lines::offset_line))]
pub(crate) fn offset_line(
    alloc: Global,
    number: u32,
    file: usize,
    at: usize,
) -> Result<Vec<u8>, NoMemory>
    ensures { IfOk result (λ text. text.items ≡ offset_line number file at) }
{
    Ok(format!(in alloc; "refused {number} file {file} at {at}\n")?.into_bytes())
}

/// The line of a refusal at an entry that is named at an offset in a class file.
#[tactic(auto, unfolding(crate::specs::Lines::entry_line))]
pub(crate) fn entry_line(
    alloc: Global,
    number: u32,
    file: usize,
    at: usize,
    entry: u16,
) -> Result<Vec<u8>, NoMemory>
    ensures { IfOk result (λ text. text.items ≡ entry_line number file at entry) }
{
    Ok(format!(in alloc; "refused {number} file {file} at {at} entry {entry}\n")?.into_bytes())
}

/// The line of a refusal at an instruction of a method.
#[tactic(auto, unfolding(crate::specs::Lines::code_line))]
pub(crate) fn code_line(
    alloc: Global,
    number: u32,
    file: usize,
    method: usize,
    at: u32,
) -> Result<Vec<u8>, NoMemory>
    ensures { IfOk result (λ text. text.items ≡ code_line number file method at) }
{
    let text = format!(in alloc; "refused {number} file {file} method {method} at {at}\n")?;
    Ok(text.into_bytes())
}

/// The line of a refusal of an opcode, which is told by two hexadecimal digits.
pub(crate) fn opcode_line(
    alloc: Global,
    file: usize,
    method: usize,
    at: u32,
    op: u8,
) -> Result<Vec<u8>, NoMemory>
    ensures { IfOk result (λ text. text.items ≡ opcode_line file method at op) }
{
    let mut text = opcode_front(alloc, file, method, at)?;
    write_hexadecimal(op, &mut text)?;
    text.push(b'\n')?;
    Ok(text)
}

/// Writes an opcode as two hexadecimal digits in lower case.
fn write_hexadecimal(op: u8, into: &mut Vec<u8>) -> Result<(), NoMemory>
    ensures { OnOk result (into.new.items ≡ into.old.items ++ hexadecimal op) }
{
    into.push(digit(op / 16))?;
    into.push(digit(op % 16))?;
    Ok(())
}

/// The line of a refusal of an opcode, up to the opcode.
#[tactic(auto, unfolding(crate::specs::Lines::opcode_front))]
fn opcode_front(alloc: Global, file: usize, method: usize, at: u32) -> Result<Vec<u8>, NoMemory>
    ensures { IfOk result (λ text. text.items ≡ opcode_front file method at) }
{
    let text = format!(in alloc; "refused 20 file {file} method {method} at {at} opcode ")?;
    Ok(text.into_bytes())
}

/// The hexadecimal digit of a number, in lower case.
fn digit(number: u8) -> u8
    requires { number < 16 }
    ensures { result ≡ digit_glyph false number }
{
    if number < 10 {
        b'0' + number
    } else {
        b'a' - 10 + number
    }
}

/// The line of a refusal of a target.
#[tactic(auto, unfolding(crate::specs::Lines::target_line))]
pub(crate) fn target_line(
    alloc: Global,
    file: usize,
    method: usize,
    at: u32,
    to: i64,
) -> Result<Vec<u8>, NoMemory>
    ensures { IfOk result (λ text. text.items ≡ target_line file method at to) }
{
    let text = format!(in alloc; "refused 22 file {file} method {method} at {at} to {to}\n")?;
    Ok(text.into_bytes())
}

/// The line of a refusal of a handler.
#[tactic(auto, unfolding(crate::specs::Lines::handler_line))]
pub(crate) fn handler_line(
    alloc: Global,
    file: usize,
    method: usize,
    handler: u32,
) -> Result<Vec<u8>, NoMemory>
    ensures { IfOk result (λ text. text.items ≡ handler_line file method handler) }
{
    let text = format!(in alloc; "refused 24 file {file} method {method} handler {handler}\n")?;
    Ok(text.into_bytes())
}

/// The line of a refusal at an entry of the constant pool of a class file.
#[tactic(auto, unfolding(crate::specs::Lines::pool_line))]
pub(crate) fn pool_line(
    alloc: Global,
    number: u32,
    file: u32,
    entry: u16,
) -> Result<Vec<u8>, NoMemory>
    ensures { IfOk result (λ text. text.items ≡ pool_line number file entry) }
{
    Ok(format!(in alloc; "refused {number} file {file} entry {entry}\n")?.into_bytes())
}

/// The line of a refusal of a class.
#[tactic(auto, unfolding(crate::specs::Lines::class_line))]
pub(crate) fn class_line(alloc: Global, number: u32, class: &Name) -> Result<Vec<u8>, NoMemory>
    ensures { IfOk result (λ text. text.items ≡ class_line number class.now) }
{
    let mut text = class_front(alloc, number, class)?;
    text.push(b'\n')?;
    Ok(text)
}

/// The line of a refusal of a method of a class, by its name.
#[tactic(auto, unfolding(crate::specs::Lines::method_line))]
pub(crate) fn method_line(
    alloc: Global,
    number: u32,
    class: &Name,
    method: &Name,
) -> Result<Vec<u8>, NoMemory>
    ensures { IfOk result (λ text. text.items ≡ method_line number class.now method.now) }
{
    let mut text = class_front(alloc, number, class)?;
    text.extend_from_slice(b" method ".as_slice())?;
    write_name(method, &mut text)?;
    text.push(b'\n')?;
    Ok(text)
}

/// The line of a refusal of a class, up to the class's name.
#[tactic(auto, unfolding(crate::specs::Lines::class_front))]
fn class_front(alloc: Global, number: u32, class: &Name) -> Result<Vec<u8>, NoMemory>
    ensures { IfOk result (λ text. text.items ≡ class_front number class.now) }
{
    let mut text = format!(in alloc; "refused {number} class ")?.into_bytes();
    write_name(class, &mut text)?;
    Ok(text)
}

/// The line of the refusal of a target that names no method.
pub(crate) fn reach_line(alloc: Global, target: &Target) -> Result<Vec<u8>, NoMemory>
    ensures { IfOk result (λ text. text.items ≡ codes "refused 45 " ++ (target_text target.now ++ codes "\n")) }
{
    let mut text = String::from_str(alloc, "refused 45 ")?.into_bytes();
    write_target(target, &mut text)?;
    text.push(b'\n')?;
    Ok(text)
}

/// The line of the refusal of a field that is not there.
pub(crate) fn field_line(alloc: Global, target: &Target, at: u32) -> Result<Vec<u8>, NoMemory>
    ensures { IfOk result (λ text. text.items ≡ instruction_front 46 target.now at ++ codes "\n") }
{
    let mut text = instruction_front(alloc, 46, target, at)?;
    text.push(b'\n')?;
    Ok(text)
}

/// The line of the refusal of an instruction that cannot be carried out.
pub(crate) fn outside_line(
    alloc: Global,
    target: &Target,
    at: u32,
    what: What,
) -> Result<Vec<u8>, NoMemory>
    ensures { IfOk result (λ text. text.items ≡ instruction_front 47 target.now at ++ (what_text what ++ codes "\n")) }
{
    let mut text = instruction_front(alloc, 47, target, at)?;
    write_what(what, &mut text)?;
    text.push(b'\n')?;
    Ok(text)
}

/// Writes what of an instruction cannot be carried out.
fn write_what(what: What, into: &mut Vec<u8>) -> Result<(), NoMemory>
    ensures { OnOk result (into.new.items ≡ into.old.items ++ what_text what) }
{
    match what {
        What::Opcode(op) => {
            into.extend_from_slice(b" opcode ".as_slice())?;
            write_hexadecimal(op, into)?;
            return Ok(());
        }
        What::Constant => into.extend_from_slice(b" constant".as_slice())?,
        What::Operand => into.extend_from_slice(b" operand".as_slice())?,
        What::Kind => into.extend_from_slice(b" kind".as_slice())?,
        What::Method => into.extend_from_slice(b" method".as_slice())?,
    }
    Ok(())
}

/// The line of a refusal at an instruction of the method that the target names, up to the offset.
#[tactic(auto, unfolding(crate::specs::Lines::instruction_front))]
fn instruction_front(
    alloc: Global,
    number: u32,
    target: &Target,
    at: u32,
) -> Result<Vec<u8>, NoMemory>
    ensures { IfOk result (λ text. text.items ≡ instruction_front number target.now at) }
{
    let mut text = format!(in alloc; "refused {number} ")?.into_bytes();
    write_target(target, &mut text)?;
    let place = format!(in alloc; " at {at}")?;
    text.extend_from_slice(place.as_bytes())?;
    Ok(text)
}
