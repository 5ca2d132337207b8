//! What is known of an object of the picture before its line is read.
ghost use Rattle.std.specs.Prelude.{◌≡◌, ◌^◌, ◌-◌, min, true, IfSome};
ghost use Rattle.std.specs.Option.{option_copied};
ghost use Rattle.kb_classes.specs.World.{World as PlainWorld};
ghost use Rattle.kb_names.specs.declared.types.ExactType.{ExactType};
ghost use Rattle.kb_picture.specs.WellFormed.{HasElement};
ghost use Rattle.kb_picture.specs.declared.picture.Length.{Length};
ghost use Rattle.kb_report_known.specs.Fields.{has_field_at};
ghost use Rattle.kb_report_known.specs.declared.known.Shape.TheVariants.{Fields as ShapeFields};
ghost use Rattle.kb_report_known.specs.Known.{IsShapeIn, IsShapeWith, most_slots, nothing_known, ways_of};

use crate::fields::{FieldAt, Fields};

/// How many slots an array may have: its elements have indices of 32 bits.
pub(crate) const INDICES: u64 = 4_294_967_296;

/// What the slots of an object that were named say of its exact type.
#[derive(Clone, Copy, PartialEq, Eq)]
pub enum Shape {
    /// None was named.
    Any,
    /// It is of a class that has this field; its other fields that were named are of classes above the one that declares it.
    Fields(FieldAt),
    /// It is an array that has an element at this index, and at no greater one that was named.
    Elements(u32),
}

impl Shape {
    /// What is known with one field more; None where no class has them all.
    pub fn with_field(self, fields: &Fields<'_>, field: FieldAt) -> Option<Shape>
        ensures shape { IsShapeWith fields.now self (λ (kind : ExactType) (length : Length). has_field_at fields.now kind field ≡ true) result }
        ensures names { IsShapeIn fields.now (ShapeFields field) → IsShapeIn fields.now self → IfSome result (IsShapeIn fields.now) }
    {
        match self {
            Shape::Any => Some(Shape::Fields(field)),
            Shape::Fields(lowest) => lower(fields, lowest, field),
            Shape::Elements(_) => None,
        }
    }

    /// What is known with one element more; None where fields were named.
    pub fn with_element(self, index: u32) -> Option<Shape>
        ensures shape { (world : PlainWorld) → IsShapeWith world self (λ (kind : ExactType) (length : Length). HasElement length index) result }
        ensures names { (world : PlainWorld) → IsShapeIn world self → IfSome result (IsShapeIn world) }
    {
        match self {
            Shape::Any => Some(Shape::Elements(index)),
            Shape::Fields(_) => None,
            Shape::Elements(greatest) => Some(Shape::Elements(greatest.max(index))),
        }
    }

    /// How many slots an object may have at most.
    fn most(self, fields: &Fields<'_>) -> u64
        ensures { result ≡ most_slots fields.now self }
    {
        match self {
            Shape::Fields(lowest) => fields.most(lowest) as u64,
            Shape::Any | Shape::Elements(_) => INDICES,
        }
    }
}

// The one of two fields whose class is below the other's.
fn lower(fields: &Fields<'_>, lowest: FieldAt, field: FieldAt) -> Option<Shape>
    ensures shape { IsShapeWith fields.now (ShapeFields lowest) (λ (kind : ExactType) (length : Length). has_field_at fields.now kind field ≡ true) result }
    ensures names { IsShapeIn fields.now (ShapeFields field) → IsShapeIn fields.now (ShapeFields lowest) → IfSome result (IsShapeIn fields.now) }
{
    fields.tell_linked();
    if fields.has(lowest.class, field) {
        return Some(Shape::Fields(lowest));
    }
    if fields.has(field.class, lowest) {
        return Some(Shape::Fields(field));
    }
    None
}

/// What is known of an object.
#[derive(Clone, Copy, PartialEq, Eq)]
pub(crate) struct Known {
    pub(crate) shape: Shape,
    /// How many of its slots are seen.
    pub(crate) seen: u64,
    /// How many of them are locations that have no line yet.
    pub(crate) waiting: u64,
    /// Whether a slot of an argument or of a smaller object leads to it.
    pub(crate) is_found: bool,
}

impl Known {
    /// Nothing is known.
    pub(crate) fn new() -> Known
        ensures { result ≡ nothing_known }
    {
        Known {
            shape: Shape::Any,
            seen: 0,
            waiting: 0,
            is_found: false,
        }
    }

    /// How many greater objects may still be found in its slots: where the see lines are over, in those alone that are locations,
    /// and no fields are given.
    pub(crate) fn ways(self, fields: Option<&Fields<'_>>) -> u64
        ensures { result ≡ min (ways_of (option_copied fields.entry) self) (2 ^ 64 - 1) }
    {
        match fields {
            Some(fields) => {
                let unseen = self.shape.most(fields).saturating_sub(self.seen);
                self.waiting.saturating_add(unseen)
            }
            None => self.waiting,
        }
    }
}
