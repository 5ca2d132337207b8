//! What the marks of a universe tell.
ghost use Rattle.std.specs.Prelude.{◌≡◌, ◌↔◌, ◌<◌, ◌+◌, ◌^◌, ◌&&◌, ℕ, suc, true, false, IfOk, IsTrue, length, nat_lt, slice_index_or};
ghost use Rattle.std.specs.List.{list_any};
ghost use Rattle.kb_names.specs.Types.{shape_of};
ghost use Rattle.kb_names.specs.declared.types.ExactType.TheVariants as exact;
ghost use Rattle.kb_class.specs.Naming.{Has};
ghost use Rattle.kb_link.specs.Links.{IsLinked};
ghost use Rattle.kb_classes.specs.Subtypes.{fits_array, is_above_arrays, is_super};
ghost use Rattle.kb_universe.specs.Marks.{class_types, is_array_below, HaveMarks, reach, HasLowArray};

use crate::elements::{dims_of, element_class, element_number};
use crate::marking::{class_count, longest_of, most_dims, own_marks};
use kb_class::ClassId;
use kb_link::{Linked, is_above_arrays};
use kb_names::{ExactType, JType, Name, NoMemory};
use std::alloc::Global;

/// Marks of a universe: of each class whether it is of it, and of each class, of boolean and of int the most dimensions of an
/// array over it.
#[derive(Drop)]
pub struct Marks {
    // By the numbers of the classes.
    own: Vec<bool>,
    // That of boolean, that of int, and then those of the classes.
    most: Vec<u32>,
    // The most of all.
    longest: u32,
    // How many classes the universe has. They stand before its arrays.
    classes: u32,
}

impl Marks {
    /// The marks of the universe of linked classes. An array of 2^32 - 1 dimensions or more counts as out of memory.
    pub fn of(alloc: Global, linked: &Linked) -> Result<Marks, NoMemory>
        ensures { IfOk result (HaveMarks linked.now) }
    {
        let own = own_marks(alloc, linked)?;
        let most = most_dims(alloc, linked)?;
        let longest = longest_of(linked.universe())?;
        let classes = class_count(linked.universe())?;
        Ok(Marks {
            own,
            most,
            longest,
            classes,
        })
    }

    /// Those types of the universe that are classes, in its order: no copy of them.
    pub fn class_types<'a>(&self, linked: &'a Linked) -> &'a [ExactType]
        requires { IsLinked linked.now × HaveMarks linked.now self.now }
        ensures { result.now ≡ class_types linked.now.universe }
    {
        &linked.universe()[..self.classes as usize]
    }

    /// Whether the type is of the universe.
    pub fn has(&self, linked: &Linked, of: &ExactType) -> bool
        requires { IsLinked linked.now × HaveMarks linked.now self.now }
        ensures { IsTrue result ↔ Has linked.now.universe of.now }
    {
        match of {
            ExactType::Class(name) => self.has_class(linked, name),
            ExactType::Array(component) => self.has_array(linked, component),
        }
    }

    // Whether the class of that name is of the universe.
    fn has_class(&self, linked: &Linked, name: &Name) -> bool
        requires { IsLinked linked.now × HaveMarks linked.now self.now }
        ensures { IsTrue result ↔ Has linked.now.universe (exact.Class name.now) }
    {
        match linked.class_named(name) {
            Some(class) => self.is_marked(class.0),
            None => false,
        }
    }

    // Whether the class of that number is marked.
    fn is_marked(&self, number: u32) -> bool
        ensures { result ≡ slice_index_or self.now.own.items number false }
    {
        match self.own.get(number as usize) {
            Some(mark) => *mark,
            None => false,
        }
    }

    // Whether the array of that component is of the universe.
    fn has_array(&self, linked: &Linked, component: &JType) -> bool
        requires { IsLinked linked.now × HaveMarks linked.now self.now }
        ensures { IsTrue result ↔ Has linked.now.universe (exact.Array component.now) }
    {
        dims_of(component) < self.reach_of(linked, component)
    }

    // The most dimensions of an array over the element of the component.
    fn reach_of(&self, linked: &Linked, component: &JType) -> u32
        ensures { result ≡ reach linked.now.classes self.now.most.items (shape_of component.now).base }
    {
        match element_number(linked, component) {
            Some(element) => self.most_at(element),
            None => 0,
        }
    }

    fn most_at(&self, element: usize) -> u32
        ensures { result ≡ slice_index_or self.now.most.items element 0 }
    {
        match self.most.get(element) {
            Some(dims) => *dims,
            None => 0,
        }
    }

    /// Whether an array of the universe is a subtype of the type.
    pub fn has_array_below(&self, linked: &Linked, of: &ExactType) -> bool
        requires { IsLinked linked.now × HaveMarks linked.now self.now }
        ensures { result ≡ list_any (is_array_below linked.now of.now) linked.now.universe }
    {
        match of {
            ExactType::Class(name) => self.has_array_of(name),
            ExactType::Array(component) => self.has_subtype(linked, component),
        }
    }

    // Whether there is an array, and every array is a subtype of the class of that name.
    fn has_array_of(&self, name: &Name) -> bool
        ensures { result ≡ (nat_lt 0 self.now.longest && is_above_arrays name.now) }
    {
        if self.longest == 0 {
            return false;
        }
        is_above_arrays(name.as_slice())
    }

    // Whether an array of the universe is a subtype of the array of that component: a longer one, whatever its element is, or one
    // as long.
    fn has_subtype(&self, linked: &Linked, component: &JType) -> bool
        requires { IsLinked linked.now × HaveMarks linked.now self.now }
        ensures { result ≡ list_any (is_array_below linked.now (exact.Array component.now)) linked.now.universe }
    {
        if self.has_longer(component) {
            return true;
        }
        match element_class(component) {
            Some(name) => self.has_low_array(linked, name, dims_of(component)),
            None => self.has_array(linked, component),
        }
    }

    // Whether there is an array of more dimensions, and every array is a subtype of the component's element.
    fn has_longer(&self, component: &JType) -> bool
        requires { self.now.longest < 2 ^ 32 }
        ensures { result ≡ (fits_array (shape_of component.now).base && nat_lt (suc (shape_of component.now).dims) self.now.longest) }
    {
        let Some(name) = element_class(component) else {
            return false;
        };
        if !is_above_arrays(name.as_slice()) {
            return false;
        }
        dims_of(component) < self.longest.saturating_sub(1)
    }

    // Whether the class of that name, or one below it, has an array of more dimensions.
    fn has_low_array(&self, linked: &Linked, name: &Name, dims: u32) -> bool
        ensures { IsTrue result ↔ HasLowArray linked.now self.now.most.items name.now dims }
    {
        match linked.class_named(name) {
            Some(high) => self.has_array_under(linked, high, dims),
            None => false,
        }
    }

    // Whether the class, or one below it, has an array of more dimensions.
    fn has_array_under(&self, linked: &Linked, high: ClassId, dims: u32) -> bool
        ensures { IsTrue result ↔ ((low : ℕ) × (low < length linked.now.classes) × (is_super linked.now.supers low high.0 ≡ true) × (dims < slice_index_or self.now.most.items (low + 2) 0)) }
    {
        for low in 0..linked.class_count() {
            if self.is_array_under(linked, ClassId(low), high, dims) {
                return true;
            }
        }
        false
    }

    // Whether the first class is the second one, or below it, and has an array of more dimensions.
    fn is_array_under(&self, linked: &Linked, low: ClassId, high: ClassId, dims: u32) -> bool
        ensures { result ≡ (is_super linked.now.supers low.0 high.0 && nat_lt dims (slice_index_or self.now.most.items (low.0 + 2) 0)) }
    {
        if !linked.is_above(low, high) {
            return false;
        }
        dims < self.most_at(low.0 as usize + 2)
    }
}
