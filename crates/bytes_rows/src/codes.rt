//! Questions to the code of methods.

use kb_code::{Handler, Instr, Listing, decode, op_name};
use kb_table::{RowResult, RowStop, read_number};
use std::alloc::Global;

/// Appends the answer to a question about code with handlers, or why it is refused: its `code`, instruction by instruction, how
/// many instructions there are (`count`), the `last` one, or whether the first one is looked at (`looked`) and by which name.
pub fn append_code_answer(
    alloc: Global,
    question: &str,
    bytes: &[u8],
    detail: &str,
    into: &mut String,
) -> RowResult<()> {
    let handlers = read_handlers(alloc, detail)?;
    append_decoded(alloc, question, bytes, handlers.as_slice(), into)
}

fn append_decoded(
    alloc: Global,
    question: &str,
    bytes: &[u8],
    handlers: &[Handler],
    into: &mut String,
) -> RowResult<()> {
    match decode(alloc, bytes, handlers) {
        Ok(listing) => append_of_listing(question, bytes, &listing, into),
        Err(refusal) => Ok(write!(into, "{refusal:?}")?),
    }
}

fn append_of_listing(
    question: &str,
    bytes: &[u8],
    listing: &Listing,
    into: &mut String,
) -> RowResult<()> {
    match question {
        "code" => append_listing(listing, into),
        "count" => append_count(listing, into),
        "last" => append_last(listing, into),
        "looked" => append_looked(bytes, listing, into),
        _ => Err(RowStop::Malformed),
    }
}

/// Handlers with `,` between two, each a start, an end, a target and the entry that is caught, with `-` between two; behind it
/// `*` and how often it stands there, where that is not once.
fn read_handlers(alloc: Global, text: &str) -> RowResult<Vec<Handler>> {
    let mut handlers = Vec::new(alloc);
    if text.is_empty() {
        return Ok(handlers);
    }
    for row in text.split(',') {
        match row.split_once('*') {
            Some((once, times)) => append_handlers(
                alloc,
                once,
                read_number(times)?,
                &mut handlers,
            )?,
            None => append_handlers(alloc, row, 1, &mut handlers)?,
        }
    }
    Ok(handlers)
}

fn append_handlers(
    alloc: Global,
    row: &str,
    times: u32,
    handlers: &mut Vec<Handler>,
) -> RowResult<()> {
    let handler = read_handler(alloc, row)?;
    for _ in 0..times {
        handlers.push(handler)?;
    }
    Ok(())
}

fn read_handler(alloc: Global, row: &str) -> RowResult<Handler> {
    let numbers = read_small_numbers(alloc, row)?;
    let [start, end, target, catch] = numbers.as_slice() else {
        return Err(RowStop::Malformed);
    };
    Ok(Handler {
        start: *start,
        end: *end,
        target: *target,
        catch: *catch,
    })
}

fn read_small_numbers(alloc: Global, row: &str) -> RowResult<Vec<u16>> {
    let mut numbers = Vec::new(alloc);
    for word in row.split('-') {
        numbers.push(small(word)?)?;
    }
    Ok(numbers)
}

fn small(word: &str) -> RowResult<u16> {
    match u16::try_from(read_number(word)?) {
        Ok(number) => Ok(number),
        Err(_) => Err(RowStop::Malformed),
    }
}

fn append_listing(listing: &Listing, into: &mut String) -> RowResult<()> {
    for (at, instruction) in listing.items.as_slice() {
        write!(into, "{at} {instruction:?}; ")?;
    }
    Ok(())
}

fn append_count(listing: &Listing, into: &mut String) -> RowResult<()> {
    let count = listing.items.as_slice().len();
    Ok(write!(into, "{count}")?)
}

fn append_last(listing: &Listing, into: &mut String) -> RowResult<()> {
    match listing.items.as_slice().last() {
        Some(item) => Ok(write!(into, "{item:?}")?),
        None => Err(RowStop::Malformed),
    }
}

/// The name of the first opcode, where its instruction is looked at.
fn append_looked(bytes: &[u8], listing: &Listing, into: &mut String) -> RowResult<()> {
    let (Some(opcode), Some((_, first))) = (bytes.first(), listing.items.as_slice().first()) else {
        return Err(RowStop::Malformed);
    };
    let name = op_name(*opcode);
    into.push_str(looked_words(name, first))?;
    Ok(into.push_str(skipped_words(name, first))?)
}

/// The name, or what stands in its place.
fn looked_words(name: Option<&'static str>, first: &Instr) -> &'static str {
    match (name, first) {
        (Some(name), _) => name,
        (None, Instr::Other(_)) => "skipped",
        (None, _) => "without a name",
    }
}

/// What stands behind the name of an instruction that is skipped.
fn skipped_words(name: Option<&'static str>, first: &Instr) -> &'static str {
    match (name, first) {
        (Some(_), Instr::Other(_)) => ", but skipped",
        _ => "",
    }
}
