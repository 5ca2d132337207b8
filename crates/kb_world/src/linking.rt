//! From class files to the world of them.
ghost use Rattle.std.specs.Prelude.{IfOk, IfErr};
ghost use Rattle.kb_class.specs.Given.{AreGiven};
ghost use Rattle.kb_link.specs.Links.{Links, RefusesLink};

use crate::world::World;
use kb_class::GivenClass;
use kb_link::LinkRefusal;
use std::alloc::Global;

/// The world of these classes, in the order given, and of the platform classes.
///
/// The first rule that is broken is told, as [`kb_link::link`] tells it.
pub fn link(alloc: Global, given: Vec<GivenClass>) -> Result<World, LinkRefusal>
    requires { AreGiven given.items }
    ensures linked { IfOk result (Links given.items) }
    ensures refused { IfErr result (RefusesLink given.items) }
{
    let linked = kb_link::link(alloc, given)?;
    match World::of(alloc, linked) {
        Ok(world) => Ok(world),
        Err(_) => Err(LinkRefusal::NoMemory),
    }
}
