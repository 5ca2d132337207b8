//! Which types are subtypes of which.
ghost use Rattle.std.specs.Prelude.{◌≡◌, ◌⊎◌};
ghost use Rattle.kb_names.specs.Types.{shape_of};
ghost use Rattle.kb_names.specs.declared.types.ExactType.TheVariants as exact;
ghost use Rattle.kb_classes.specs.Subtypes.{is_above_arrays, type_fits, fits, type_of_exact};

use crate::linked::Linked;
use kb_names::{ExactType, JType, Name};

impl Linked {
    /// Whether an object of the exact type is of the other type (JVMS 8 section 6.5, checkcast). It takes no memory, and no
    /// more time for a longer way from class to class: whether a class is below another is a mark in a table.
    pub fn subtype(&self, low: &ExactType, high: &JType) -> bool
        ensures { result ≡ fits self.now low.now high.now }
    {
        match low {
            ExactType::Class(name) => self.class_fits(name, high),
            ExactType::Array(component) => self.array_fits(component, high),
        }
    }

    /// Whether an object of the exact type is of the other exact type too, as [`Linked::subtype`] says it.
    pub fn exact_subtype(&self, low: &ExactType, high: &ExactType) -> bool
        ensures { result ≡ fits self.now low.now (type_of_exact high.now) }
    {
        match (low, high) {
            (ExactType::Class(below), ExactType::Class(above)) => self.is_below(
                below.as_slice(),
                above.as_slice(),
            ),
            (ExactType::Class(_), ExactType::Array(_)) => false,
            (ExactType::Array(_), ExactType::Class(above)) => is_above_arrays(above.as_slice()),
            (ExactType::Array(below), ExactType::Array(above)) => self.type_fits(below, above),
        }
    }

    // Whether the class is a subtype of the type.
    fn class_fits(&self, low: &Name, high: &JType) -> bool
        ensures { result ≡ fits self.now (exact.Class low.now) high.now }
    {
        match high {
            JType::Class(name) => self.is_below(low.as_slice(), name.as_slice()),
            _ => false,
        }
    }

    // Whether an array of that component is a subtype of the type.
    fn array_fits(&self, component: &JType, high: &JType) -> bool
        ensures { result ≡ fits self.now (exact.Array component.now) high.now }
    {
        match high {
            JType::Class(name) => is_above_arrays(name.as_slice()),
            JType::Array(above) => self.type_fits(component, above.get()),
            _ => false,
        }
    }

    // Whether the type is a subtype of the other one.
    fn type_fits(&self, low: &JType, high: &JType) -> bool
        ensures { result ≡ type_fits self.now low.now high.now }
    {
        let mut below = low;
        let mut above = high;
        while let (JType::Array(inner), JType::Array(outer)) = (below, above) {
            below = inner.get();
            above = outer.get();
        }
        self.end_fits(below, above)
    }

    // Whether the type is a subtype of the other one, of which one at most is an array.
    fn end_fits(&self, low: &JType, high: &JType) -> bool
        requires { ((shape_of low.now).dims ≡ 0) ⊎ ((shape_of high.now).dims ≡ 0) }
        ensures { result ≡ type_fits self.now low.now high.now }
    {
        match (low, high) {
            (JType::Class(below), JType::Class(above)) => self.is_below(
                below.as_slice(),
                above.as_slice(),
            ),
            (JType::Array(_), JType::Class(above)) => is_above_arrays(above.as_slice()),
            (JType::Bool, JType::Bool) => true,
            (JType::Byte, JType::Byte) => true,
            (JType::Char, JType::Char) => true,
            (JType::Short, JType::Short) => true,
            (JType::Int, JType::Int) => true,
            (JType::Long, JType::Long) => true,
            (JType::Float, JType::Float) => true,
            (JType::Double, JType::Double) => true,
            _ => false,
        }
    }
}

/// Whether the class is one that every array is a subtype of.
pub fn is_above_arrays(name: &[u8]) -> bool
    ensures { result ≡ is_above_arrays name.now }
{
    if name == b"java/lang/Object".as_slice() {
        return true;
    }
    if name == b"java/lang/Cloneable".as_slice() {
        return true;
    }
    name == b"java/io/Serializable".as_slice()
}
