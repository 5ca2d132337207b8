//! From the bytes of a method's code to its instructions.

ghost use Rattle.std.specs.Prelude.{◌<◌, ◌^◌, Ok, IfOk, IfErr, length};
ghost use Rattle.kb_code.specs.Listing.{Lists, IsLaidOut};
ghost use Rattle.kb_code.specs.Reading.{Gives, walk};
ghost use Rattle.kb_code.specs.Answers.{decoding, Refuses};
ghost use Rattle.kb_code.specs.Starts.{AreWithin};
ghost use Rattle.kb_code.specs.declared.listing.Listing.{Listing};

use crate::form::Loose;
use crate::instruction::Instr;
use crate::listing::{Handler, Listing};
use crate::placing::{handlers_fault, placed_items, table_of};
use crate::reader::Reader;
use crate::refusal::CodeRefusal;
use kb_rows::Row;
use std::alloc::Global;

/// The most bytes of code, and the most handlers, that numbers of 32 bits can name.
const MOST: usize = 0xffff_ffff;

/// All instructions of the code, with their offsets. Their targets are not looked at.
#[tactic(auto, unfolding(crate::specs::Reading::walk))]
fn walk(alloc: Global, code: &[u8]) -> Result<Vec<(u32, Loose)>, CodeRefusal>
    requires { length code.now < 2 ^ 32 }
    ensures read { Gives (λ items. items.items) result (walk code.now) }
    ensures within { IfOk result (λ items. AreWithin (length code.now) items.items) }
{
    let mut reader = Reader::new(code);
    let mut items = Vec::new(alloc);
    while reader.left() > 0 {
        items.push(reader.item(alloc)?)?;
    }
    Ok(items)
}

/// The listing of a code with these handlers, or the first fault.
#[tactic(auto, unfolding(crate::specs::Answers::decoding))]
fn listing_of(alloc: Global, code: &[u8], handlers: &[Handler]) -> Result<Listing, CodeRefusal>
    ensures { Gives (λ listing. listing.items) result (decoding code.now handlers.now) }
{
    if MOST < code.len() || MOST < handlers.len() {
        return Err(CodeRefusal::NoMemory);
    }
    let items = walk(alloc, code)?;
    let table = table_of(alloc, items.as_slice(), code.len())?;
    let placed = placed_items(alloc, table.as_slice(), items)?;
    if let Some(refusal) = handlers_fault(table.as_slice(), handlers) {
        return Err(refusal);
    }
    Ok(Listing {
        items: Row::from_vec(placed),
    })
}

/// The listing of a method's code with these handlers, or what is wrong with them.
///
/// All instructions are read first. Then the targets are looked at, in the order of the code, and then the handlers. Memory is
/// taken in proportion to the code, whatever the switches in it say of themselves. Code or a handler table of 2 ^ 32 entries or
/// more counts as out of memory.
///
/// Source: JVMS 8 sections 4.7.3 and 6.5.
pub fn decode(alloc: Global, code: &[u8], handlers: &[Handler]) -> Result<Listing, CodeRefusal>
    // What is told is the listing of the code.
    ensures found { IfOk result (λ listing. Lists listing code.now handlers.now) }
    // A listing of the code is found, unless memory ran out.
    ensures only { (listing : Listing) → Lists listing code.now handlers.now → Gives (λ found. found) result (Ok listing) }
    ensures laid_out { IfOk result (λ listing. IsLaidOut listing.items (length code.now)) }
    // A refusal is the first fault, unless memory ran out.
    ensures refused { IfErr result (Refuses code.now handlers.now) }
{
    listing_of(alloc, code, handlers)
}
