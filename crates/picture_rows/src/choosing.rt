//! The alternatives for a slot that is read for the first time, or for a location that is looked into, as a line of a text.

use kb_asked::{add, add_exact};
use kb_lazy::{read_choices, resolve_choices};
use kb_names::{ExactType, JType, read_type};
use kb_path_lines::{read_location, read_slot, split};
use kb_picture::{Choice, Init, Length, Origin, Picture};
use kb_table::{RowResult, RowStop, append_number, read_number};
use kb_world::World;
use std::alloc::Global;

/// Whether a slot is the receiver, and what bounds the alternatives.
#[derive(Clone, Copy, PartialEq, Eq)]
struct Settings {
    receiver: bool,
    init: Init,
    k: u32,
    array: u32,
}

/// Adds the alternatives for the slot or the location that the words name, of the type that they name, as in `o0.1 LNode; k=1` or
/// `l0 LNode;`.
pub fn add_choices(
    alloc: Global,
    world: &World,
    picture: &Picture,
    words: &str,
    text: &mut Vec<u8>,
) -> RowResult<()> {
    let (place, words) = split(words);
    let (kind, words) = split(words);
    let settings = read_settings(words)?;
    match read_type(alloc, kind.as_bytes()) {
        Ok(kind) => add_choices_at(alloc, world, picture, place, &kind, settings, text),
        Err(_) => Err(RowStop::Malformed),
    }
}

fn add_choices_at(
    alloc: Global,
    world: &World,
    picture: &Picture,
    place: &str,
    kind: &JType,
    settings: Settings,
    text: &mut Vec<u8>,
) -> RowResult<()> {
    match read_location(place) {
        Some(number) => add_objects_of(alloc, world, picture, number, kind, settings, text),
        None => {
            let slot = read_slot(place)?;
            add_choices_of(alloc, world, picture, slot, kind, settings, text)
        }
    }
}

fn add_objects_of(
    alloc: Global,
    world: &World,
    picture: &Picture,
    number: u32,
    kind: &JType,
    settings: Settings,
    text: &mut Vec<u8>,
) -> RowResult<()> {
    match resolve_choices(
        alloc,
        world,
        picture,
        number,
        kind,
        settings.k,
        settings.array,
    ) {
        Ok(choices) => add_each(alloc, choices.as_slice(), text),
        Err(_) => Err(RowStop::NoMemory),
    }
}

fn add_choices_of(
    alloc: Global,
    world: &World,
    picture: &Picture,
    slot: Origin,
    kind: &JType,
    settings: Settings,
    text: &mut Vec<u8>,
) -> RowResult<()> {
    match read_choices(
        alloc,
        world,
        picture,
        slot,
        kind,
        settings.receiver,
        settings.init,
        settings.k,
        settings.array,
    ) {
        Ok(choices) => add_each(alloc, choices.as_slice(), text),
        Err(_) => Err(RowStop::NoMemory),
    }
}

/// `receiver`, `lazier`, and bounds that are not 3.
fn read_settings(words: &str) -> RowResult<Settings> {
    let mut settings = Settings {
        receiver: false,
        init: Init::Lazy,
        k: 3,
        array: 3,
    };
    for word in words.split(' ') {
        add_word(word, &mut settings)?;
    }
    Ok(settings)
}

fn add_word(word: &str, settings: &mut Settings) -> RowResult<()> {
    let (name, count) = match word.split_once('=') {
        Some((name, count)) => (name, read_number(count)?),
        None => (word, 0),
    };
    match name.as_bytes() {
        b"" => {}
        b"receiver" => settings.receiver = true,
        b"lazier" => settings.init = Init::Lazier,
        b"k" => settings.k = count,
        b"array" => settings.array = count,
        _ => return Err(RowStop::Malformed),
    }
    Ok(())
}

fn add_each(alloc: Global, choices: &[Choice], text: &mut Vec<u8>) -> RowResult<()> {
    if choices.is_empty() {
        return add(b"no alternative\n", text);
    }
    let mut front: &[u8] = b"";
    for choice in choices {
        add(front, text)?;
        add_choice(alloc, choice, text)?;
        front = b" | ";
    }
    add(b"\n", text)
}

fn add_choice(alloc: Global, choice: &Choice, text: &mut Vec<u8>) -> RowResult<()> {
    match choice {
        Choice::Null => add(b"null", text),
        Choice::Location => add(b"location", text),
        Choice::Beyond => add(b"beyond", text),
        Choice::Alias(object) => append_number(alloc, "o", i64::from(*object), text),
        Choice::Fresh(kind, length) => add_fresh(alloc, kind, *length, text),
        _ => Err(RowStop::Malformed),
    }
}

fn add_fresh(alloc: Global, kind: &ExactType, length: Length, text: &mut Vec<u8>) -> RowResult<()> {
    add(b"new ", text)?;
    add_exact(kind, text)?;
    match length {
        Length::Plain => Ok(()),
        Length::Is(count) => append_number(alloc, " of ", i64::from(count), text),
        Length::Above(count) => append_number(alloc, " above ", i64::from(count), text),
    }
}
