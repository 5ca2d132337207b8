//! Classes that are among their own superclasses and interfaces.
ghost use Rattle.std.specs.Prelude.{◌≡◌, ◌<◌, Some, length, IfOk, IfErr};
ghost use Rattle.kb_classes.specs.declared.refusal.LinkRefusal.TheVariants as refusals;
ghost use Rattle.kb_classes.specs.Subtypes.{direct_supers};
ghost use Rattle.kb_classes.specs.Rules.{HaveDifferentNames, HaveSupers, HaveNoCircle};
ghost use Rattle.kb_classes.specs.Refusals.{RefusesClasses};
ghost use Rattle.kb_link.specs.Stops.{NamesClass};

use kb_classes::{Classes, LinkRefusal};
use kb_names::Row;
use kb_order::{Order, order_of};
use std::alloc::Global;

/// What stands above each class, or the name of the first class that stands on a circle.
pub(crate) fn check_circles(
    alloc: Global,
    classes: &Classes,
    direct: Vec<Row<u32>>,
) -> Result<Order, LinkRefusal>
    requires direct { direct.items ≡ direct_supers classes.now }
    requires kept { HaveDifferentNames classes.now × HaveSupers classes.now }
    ensures order { IfOk result (λ order. (order ≡ direct_supers classes.now) × HaveNoCircle classes.now) }
    ensures refused { IfErr result (RefusesClasses classes.now) }
{
    let Ok(order) = order_of(alloc, direct) else {
        return Err(LinkRefusal::NoMemory);
    };
    match order.first_on_circle() {
        None => Ok(order),
        Some(number) => Err(circle(alloc, classes, number)),
    }
}

// The refusal of a class on a circle.
fn circle(alloc: Global, classes: &Classes, number: u32) -> LinkRefusal
    requires { number < length classes.now }
    ensures { NamesClass refusals.Circle classes.now number result }
{
    match classes.as_slice()[number as usize].name().copied(alloc) {
        Ok(name) => LinkRefusal::Circle(name),
        Err(_) => LinkRefusal::NoMemory,
    }
}
