//! How a run ends.
ghost use Rattle.std.specs.Prelude.{◌≡◌, ◌↔◌, IfOk, IsTrue};

use crate::{Bound, NoMemory, Value};
use kb_names::Target;
use std::alloc::Global;

/// An instruction of a method, by its offset in the method's code; the code's length where the code runs off its
/// end.
#[derive(Drop)]
pub struct Place {
    pub method: Target,
    pub at: u32,
}

impl Place {
    /// Another place that equals this one.
    pub fn copied(&self, alloc: Global) -> Result<Place, NoMemory>
        ensures { IfOk result (λ copy. copy ≡ self.now) }
    {
        match self.method.copied(alloc) {
            Ok(method) => Ok(Place {
                method,
                at: self.at,
            }),
            Err(_) => Err(NoMemory),
        }
    }

    /// Whether they are one offset of one method.
    pub fn is_same(&self, other: &Place) -> bool
        ensures { IsTrue result ↔ (self.now ≡ other.now) }
    {
        if self.at != other.at {
            return false;
        }
        self.method.is_same(&other.method)
    }
}

/// How a run ends.
#[derive(Drop)]
pub enum Ending {
    /// The method has returned, with a value unless its result is `void`.
    Returned(Option<Value>),
    /// The object of that number was thrown and not caught.
    Threw(u32),
    /// The instruction there does not fit the values that it meets.
    IllTyped(Place),
    /// It would go beyond that bound.
    Past(Bound),
}

impl Ending {
    /// Another ending that equals this one.
    pub fn copied(&self, alloc: Global) -> Result<Ending, NoMemory>
        ensures { IfOk result (λ copy. copy ≡ self.now) }
    {
        match self {
            Ending::Returned(value) => Ok(Ending::Returned(*value)),
            Ending::Threw(object) => Ok(Ending::Threw(*object)),
            Ending::IllTyped(place) => Ok(Ending::IllTyped(place.copied(alloc)?)),
            Ending::Past(bound) => Ok(Ending::Past(*bound)),
        }
    }

    /// Whether they are one ending.
    pub fn is_same(&self, other: &Ending) -> bool
        ensures { IsTrue result ↔ (self.now ≡ other.now) }
    {
        match (self, other) {
            (Ending::Returned(value), Ending::Returned(other)) => value == other,
            (Ending::Threw(object), Ending::Threw(other)) => object == other,
            (Ending::IllTyped(place), Ending::IllTyped(other)) => place.is_same(other),
            (Ending::Past(bound), Ending::Past(other)) => bound == other,
            _ => false,
        }
    }
}
