//! The refusals of faults, and of a target that names no method.
ghost use Rattle.std.specs.Prelude.{◌≡◌, ◌⊎◌};
ghost use Rattle.kb_classes.specs.declared.refusal.LinkRefusal.TheVariants as refusals;

use kb_classes::LinkRefusal;
use kb_names::{Name, Target};
use std::alloc::Global;

/// The refusal of a target that names no method.
pub fn no_method(alloc: Global, target: &Target) -> LinkRefusal
    ensures { (result ≡ refusals.NoMemory) ⊎ (result ≡ refusals.NoMethod target.now) }
{
    match target.copied(alloc) {
        Ok(target) => LinkRefusal::NoMethod(target),
        Err(_) => LinkRefusal::NoMemory,
    }
}

/// The refusal of a class that is not there.
pub fn missing(alloc: Global, name: &Name) -> LinkRefusal
    ensures { (result ≡ refusals.NoMemory) ⊎ (result ≡ refusals.Missing name.now) }
{
    match name.copied(alloc) {
        Ok(name) => LinkRefusal::Missing(name),
        Err(_) => LinkRefusal::NoMemory,
    }
}

/// The refusal of a class that code initialises.
pub fn initialised(alloc: Global, name: &Name) -> LinkRefusal
    ensures { (result ≡ refusals.NoMemory) ⊎ (result ≡ refusals.Initialiser name.now) }
{
    match name.copied(alloc) {
        Ok(name) => LinkRefusal::Initialiser(name),
        Err(_) => LinkRefusal::NoMemory,
    }
}
