//! The spelling of names in texts.
ghost use Rattle.std.specs.Prelude.{◌≡◌, ℕ, ◌+◌, ◌*◌, ◌<◌, Option, Some, List, [], ◌∷◌, ◌++◌, IfOk, IfErr, IfSome, OnOk, OnErr, slice_index};
ghost use Rattle.kb_names.specs.Escapes.{is_plain as is_plain_byte, hex_digit, hex_value, pair_value as byte_of_pair, with_escaped, byte_text, name_text, SpellsName, IsNameText, name_step, name_read};
ghost use Rattle.std.specs.Io.{appended_bytes};
ghost use Rattle.kb_names.specs.Refusals.{RefusesName, ReadsName};

use crate::stages::{Stage, TextStop, read_text};
use crate::{Name, NoMemory, Row};
use std::alloc::Global;

/// Why the text of a name was not read.
#[derive(Clone, Copy, PartialEq, Eq)]
pub enum NameTextRefusal {
    /// The first offset at which no name goes on: the offset of the first byte that may not stand there, or
    /// the text's length where it ends too early.
    BadName(usize),
    /// Memory ran out.
    NoMemory,
}

// How far the text of a name is read.
#[derive(Drop)]
pub(crate) enum NameStage {
    Plain(Row<u8>),
    // Behind a `%`.
    Percent(Row<u8>),
    // Behind a `%` and the first digit.
    High(Row<u8>, u8),
}

impl Stage for NameStage {
    type Value = Row<u8>;

    ghost step = { name_step };

    ghost read = { name_read };

    #[tactic(auto, unfolding(crate::specs::Escapes::name_step))]
    fn next(self, _alloc: Global, byte: u8) -> Result<Option<NameStage>, NoMemory> {
        match self {
            NameStage::Plain(name) => {
                if byte == b'%' {
                    return Ok(Some(NameStage::Percent(name)));
                }
                if !is_plain(byte) {
                    return Ok(None);
                }
                Ok(Some(NameStage::Plain(name.with(byte)?)))
            }
            NameStage::Percent(name) => match digit_value(byte) {
                Some(_) => Ok(Some(NameStage::High(name, byte))),
                None => Ok(None),
            },
            NameStage::High(name, first) => match pair_value(first, byte) {
                Some(value) => escaped(name, value),
                None => Ok(None),
            },
        }
    }

    fn whole(self) -> Option<Row<u8>> {
        match self {
            NameStage::Plain(name) => Some(name),
            NameStage::Percent(_) | NameStage::High(_, _) => None,
        }
    }
}

// The name with a byte that is written with a `%`, unless it may not be written so.
fn escaped(name: Row<u8>, byte: u8) -> Result<Option<NameStage>, NoMemory>
    ensures { IfOk result (λ next. next ≡ with_escaped name byte) }
{
    if is_plain(byte) {
        return Ok(None);
    }
    Ok(Some(NameStage::Plain(name.with(byte)?)))
}

// Whether the byte is written as it is.
fn is_plain(byte: u8) -> bool
    ensures { result ≡ is_plain_byte byte }
{
    matches!(byte, b'a'..=b'z' | b'A'..=b'Z' | b'0'..=b'9' | b'_' | b'$' | b'/' | b'<' | b'>' | b'-')
}

// The digit in base 16, in upper case, of that letter.
fn digit_value(letter: u8) -> Option<u8>
    ensures value { result ≡ hex_value letter }
    ensures small { IfSome result (λ digit. digit < 16) }
{
    match letter {
        b'0'..=b'9' => Some(letter - b'0'),
        b'A'..=b'F' => Some(letter - b'A' + 10),
        _ => None,
    }
}

// The byte of two digits.
fn pair_value(first: u8, second: u8) -> Option<u8>
    ensures { result ≡ byte_of_pair first second }
{
    let high = digit_value(first)?;
    let low = digit_value(second)?;
    Some(16 * high + low)
}

/// Appends the one spelling of the name: a letter, a digit and each of `_ $ / < > -` stand for themselves,
/// each other byte as `%` and two digits in base 16, in upper case.
pub fn write_name(name: &Name, into: &mut Vec<u8>) -> Result<(), NoMemory>
    ensures ok { OnOk result (into.new.items ≡ into.old.items ++ name_text name.now) }
    ensures spelled { OnOk result (SpellsName name.now (appended_bytes into.old.items into.new.items)) }
    ensures err { OnErr result (into.new.items ≡ into.old.items) }
{
    let start = into.len();
    for byte in name.as_slice() {
        if write_byte(*byte, into).is_err() {
            into.truncate(start);
            return Err(NoMemory);
        }
    }
    Ok(())
}

// Appends the spelling of one byte, whole or, after an `Err`, not at all.
fn write_byte(byte: u8, into: &mut Vec<u8>) -> Result<(), NoMemory>
    ensures ok { OnOk result (into.new.items ≡ into.old.items ++ byte_text byte) }
    ensures err { OnErr result (into.new.items ≡ into.old.items) }
{
    let written = if is_plain(byte) {
        into.extend_from_slice(&[byte])
    } else {
        into.extend_from_slice(&[b'%', digit(byte / 16), digit(byte % 16)])
    };
    match written {
        Ok(()) => Ok(()),
        Err(_) => Err(NoMemory),
    }
}

// The letter of a digit in base 16.
fn digit(value: u8) -> u8
    requires { value < 16 }
    ensures { result ≡ hex_digit value }
{
    if value < 10 {
        b'0' + value
    } else {
        b'A' - 10 + value
    }
}

/// Reads a whole text as a name in its one spelling.
pub fn read_name(alloc: Global, text: &[u8]) -> Result<Name, NameTextRefusal>
    ensures found { IfOk result (λ name. SpellsName name text.now) }
    ensures only { (name : List ℕ) → SpellsName name text.now → ReadsName result name }
    ensures bad { IfErr result (RefusesName IsNameText text.now) }
{
    match read_text(alloc, NameStage::Plain(Row::new(alloc)), text) {
        Ok(name) => match Name::from_row(name) {
            Ok(name) => Ok(name),
            Err(NoMemory) => Err(NameTextRefusal::NoMemory),
        },
        Err(TextStop::At(at)) => Err(NameTextRefusal::BadName(at)),
        Err(TextStop::NoMemory) => Err(NameTextRefusal::NoMemory),
    }
}
