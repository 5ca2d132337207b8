//! From the bytes of class files to their world.

ghost use Rattle.std.specs.Prelude.{[], ◌∷◌};
ghost use Rattle.kb_classfile.specs.Spelling.{IsClassFile};
ghost use Rattle.kb_class.specs.Given.{AreGiven, AreListings, IsGivenBy, AreGivenBy};
ghost use Rattle.kb_link.specs.Links.{Links};
ghost use Rattle.kiasan.specs.Answers.{ClassRefuses, FileRefuses, RefusesClasses, WorldRefuses};
ghost use Rattle.kiasan.specs.CodeFaults.{CodeRefuses, MethodsRefuse};
ghost use Rattle.kiasan.specs.Refusals.{Gives};

use crate::refusals::Stop;
use kb_class::{GivenClass, handlers_of};
use kb_classfile::{ClassFile, Method, read_class};
use kb_code::{Listing, decode};
use kb_refusals::Refusal;
use kb_rows::{Held, Row};
use kb_world::{World, link};
use std::alloc::Global;

/// The classes that these bytes spell, in order, each with the listings of its methods.
pub fn read_classes(alloc: Global, classes: &[Row<u8>]) -> Result<Vec<GivenClass>, Stop>
    ensures { Gives ⊥ (RefusesClasses classes.now) (λ given. AreGivenBy classes.now given.items) result }
{
    let mut given = Vec::new(alloc);
    for bytes in classes {
        let class = read_one(alloc, given.len(), bytes.as_slice())?;
        given.push(class)?;
    }
    Ok(given)
}

/// The class of the file of that number.
fn read_one(alloc: Global, number: usize, bytes: &[u8]) -> Result<GivenClass, Stop>
    ensures { Gives ⊥ (ClassRefuses number bytes.now) (λ class. IsGivenBy bytes.now class) result }
{
    let file = read_class_file(alloc, number, bytes)?;
    let listings = list_methods(alloc, number, file.get().methods.as_slice())?;
    Ok(GivenClass {
        file: file.into_inner(),
        listings: Row::from_vec(listings),
    })
}

/// The class file of that number.
#[tactic(auto, using(crate::proofs::ClassLaws::class_stops))]
fn read_class_file(alloc: Global, number: usize, bytes: &[u8]) -> Result<Held<ClassFile>, Stop>
    ensures { Gives ⊥ (FileRefuses number bytes.now) (λ file. IsClassFile file bytes.now) result }
{
    match read_class(alloc, bytes) {
        Ok(file) => Ok(Held::new(alloc, file)?),
        Err(refusal) => Err(Stop::from(Refusal::Class(number, refusal))),
    }
}

/// The listing of each method's code, in the class file of that number.
#[tactic(auto, using(crate::proofs::ClassLaws::none_listed))]
fn list_methods(
    alloc: Global,
    file: usize,
    methods: &[Method],
) -> Result<Vec<Option<Listing>>, Stop>
    ensures { Gives ⊥ (MethodsRefuse file methods.now) (λ listings. AreListings methods.now listings.items) result }
{
    let mut listings = Vec::new(alloc);
    for method in methods {
        let listing = list_method(alloc, file, listings.len(), method)?;
        listings.push(listing)?;
    }
    Ok(listings)
}

/// The listing of a method's code, if it has code.
#[tactic(auto, using(crate::proofs::ClassLaws::code_stops))]
fn list_method(
    alloc: Global,
    file: usize,
    number: usize,
    method: &Method,
) -> Result<Option<Listing>, Stop>
    ensures { Gives ⊥ (CodeRefuses file number method.now) (λ listing. AreListings (method.now ∷ []) (listing ∷ [])) result }
{
    let Some(code) = &method.code else {
        return Ok(None);
    };
    let handlers = handlers_of(alloc, code)?;
    match decode(alloc, code.bytes.as_slice(), handlers.as_slice()) {
        Ok(listing) => Ok(Some(listing)),
        Err(refusal) => Err(Stop::from(Refusal::Code(file, number, refusal))),
    }
}

/// The world of classes.
#[tactic(auto, using(crate::proofs::ClassLaws::link_stops))]
pub fn link_world(alloc: Global, given: Vec<GivenClass>) -> Result<Held<World>, Stop>
    requires { AreGiven given.items }
    ensures { Gives ⊥ (WorldRefuses given.items) (Links given.items) result }
{
    Ok(Held::new(alloc, link(alloc, given)?)?)
}
