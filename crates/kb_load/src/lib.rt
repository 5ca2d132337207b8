//! From the bytes of class files to their world, for programs that want no reason where there is none: those that ask questions
//! from tables of rows. `specs/Worlds.antt` says what the world of these bytes is.
#![tactic(auto)]

mod worlds;

ghost use Rattle.std.specs.Prelude.{[], ◌∷◌, IfOk, IfSome};
ghost use Rattle.kb_class.specs.Given.{AreListings, IsGiven, IsGivenBy, AreGivenBy};
ghost use Rattle.kb_link.specs.Targets.{IsTargetOf};
ghost use Rattle.kb_world.specs.Reach.{IsAccepted};
ghost use Rattle.kb_load.specs.Worlds.{AddsClass, IsWorldOf, contents_of};

use kb_class::{GivenClass, MethodId, handlers_of};
use kb_classfile::{ClassFile, Method, read_class};
use kb_code::{CodeRefusal, Listing, decode};
use kb_names::Target;
use kb_rows::Row;
use kb_world::{World, link};
use std::alloc::Global;
pub use worlds::{InWorlds, WorldRows, read_world};

/// The world of the classes that these bytes spell, in order; None where some bytes are no class file, code that cannot be decoded
/// is among them, the classes cannot be linked, or memory runs out.
pub fn world_of(alloc: Global, files: &[Vec<u8>]) -> Option<World>
    ensures { IfSome result (IsWorldOf (contents_of files.now)) }
{
    let classes = given_classes(alloc, files)?;
    link(alloc, classes).ok()
}

/// The method that the target names, where it may be run; without the reason where it may not.
pub fn reached(alloc: Global, world: &World, target: &Target) -> Option<MethodId>
    ensures found { IfSome result (IsTargetOf world.now target.now) }
    ensures accepted { IfSome result (IsAccepted world.now) }
{
    world.reach(alloc, target).ok()
}

// The classes that these bytes spell, in order.
fn given_classes(alloc: Global, files: &[Vec<u8>]) -> Option<Vec<GivenClass>>
    ensures { IfSome result (λ classes. AreGivenBy (contents_of files.now) classes.items) }
{
    let mut classes = Vec::new(alloc);
    for bytes in files {
        add_class(alloc, bytes.as_slice(), &mut classes)?;
    }
    Some(classes)
}

// Adds the class that the bytes spell.
fn add_class(alloc: Global, bytes: &[u8], classes: &mut Vec<GivenClass>) -> Option<()>
    ensures { IfSome result (λ done. AddsClass bytes.now classes.old.items classes.new.items) }
{
    let class = given_class(alloc, bytes)?;
    let Ok(()) = classes.push(class) else {
        return None;
    };
    Some(())
}

/// The class that the bytes spell; None where they are no class file, its code cannot be decoded, or memory runs out.
pub fn given_class(alloc: Global, bytes: &[u8]) -> Option<GivenClass>
    ensures spelled { IfSome result (IsGivenBy bytes.now) }
    ensures given { IfSome result IsGiven }
{
    let Ok(file) = read_class(alloc, bytes) else {
        return None;
    };
    let Ok(listings) = listings_of(alloc, &file) else {
        return None;
    };
    Some(GivenClass {
        file,
        listings: Row::from_vec(listings),
    })
}

fn listings_of(alloc: Global, file: &ClassFile) -> Result<Vec<Option<Listing>>, CodeRefusal>
    ensures { IfOk result (λ listings. AreListings file.now.methods listings.items) }
{
    let mut listings = Vec::new(alloc);
    for method in file.methods.as_slice() {
        let listing = listing_of(alloc, method)?;
        listings.push(listing)?;
    }
    Ok(listings)
}

fn listing_of(alloc: Global, method: &Method) -> Result<Option<Listing>, CodeRefusal>
    ensures { IfOk result (λ listing. AreListings (method.now ∷ []) (listing ∷ [])) }
{
    let Some(code) = &method.code else {
        return Ok(None);
    };
    let handlers = handlers_of(alloc, code)?;
    match decode(alloc, code.bytes.as_slice(), handlers.as_slice()) {
        Ok(listing) => Ok(Some(listing)),
        Err(refusal) => Err(refusal),
    }
}
