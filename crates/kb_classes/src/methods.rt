//! Methods by their numbers.
ghost use Rattle.std.specs.Prelude.{◌≡◌, ◌++◌, ◌<◌, map, slice_get, Some, IfOk};
ghost use Rattle.kb_class.specs.Class.{Class};
ghost use Rattle.kb_class.specs.declared.members.MethodInfo.{MethodInfo};
ghost use Rattle.kb_classes.specs.Methods.{HasPlaces, method_in};

use crate::classes::Classes;
use kb_class::MethodInfo;
use kb_names::NoMemory;
use std::alloc::Global;

/// Where a method stands: the number of its class, and its place among the class's methods.
#[derive(Clone, Copy)]
pub struct MethodPlace {
    pub class: u32,
    pub place: u32,
}

/// Where each method stands, in the order of their numbers. Methods without places of 32 bits count as out of memory.
pub fn places_of(alloc: Global, classes: &Classes) -> Result<Vec<MethodPlace>, NoMemory>
    ensures { IfOk result (λ places. HasPlaces classes.now places.items) }
{
    let mut places = Vec::new(alloc);
    for (number, class) in classes.as_slice().iter().enumerate() {
        places = with_places(places, classes, number as u32, class.methods())?;
    }
    Ok(places)
}

// The places with those of the methods of a class behind them.
fn with_places(
    places: Vec<MethodPlace>,
    classes: &Classes,
    class: u32,
    methods: &[MethodInfo],
) -> Result<Vec<MethodPlace>, NoMemory>
    requires { (class_is : Class) × (slice_get classes.now class ≡ Some class_is) × (class_is.methods ≡ methods.now) }
    ensures { IfOk result (λ after. map (method_in classes.now) after.items ≡ map (method_in classes.now) places.items ++ map (λ (method : MethodInfo). Some method) methods.now) }
{
    if methods.len() > u32::MAX as usize {
        return Err(NoMemory);
    }
    let mut after = places;
    for place in 0..methods.len() {
        let Ok(()) = after.push(MethodPlace {
            class,
            place: place as u32,
        }) else {
            return Err(NoMemory);
        };
    }
    Ok(after)
}
