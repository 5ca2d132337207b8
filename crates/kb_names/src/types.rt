//! Types of the Java virtual machine.
ghost use Rattle.std.specs.Prelude.{◌≡◌, ◌↔◌, IfOk, IsTrue};
ghost use Rattle.kb_names.specs.Types.{shape_of, arrays_of};

use crate::same::{Same, are_same};
use crate::{Name, NoMemory, SharedRow};
use std::alloc::Global;
use std::marker::Model;
use std::sync::Arc;

/// A type of a field, a parameter or a result (JVMS 8 section 4.3.2).
#[cycle(types)]
#[derive(Drop)]
pub enum JType {
    Bool,
    Byte,
    Char,
    Short,
    Int,
    Long,
    Float,
    Double,
    /// A class or an interface.
    Class(Name),
    /// An array, by its component.
    Array(Component),
}

/// The component type of an array, made once and shared by all copies.
#[cycle(types)]
#[derive(Drop)]
pub struct Component {
    of: Arc<JType, Global>,
}

impl Model for Component {
    ghost use Rattle.std.specs.Prelude.{◌+◌, ◌≤◌};
    ghost use Rattle.std.specs.Arc.{arc_value};
    ghost use Rattle.std.proofs.Common.{arith};
    ghost use Rattle.kb_names.specs.Shape.{Shape};

    ghost Value = { Shape };

    ghost use Rattle.kb_names.specs.Types.{shape_of};

    ghost view = { λ component. shape_of (arc_value component.of) };

    ghost size = { λ shape. shape.dims };

    ghost size_decreases = { λ a h. Prim.grind arith };
}

impl Component {
    /// The component of that type.
    pub fn new(alloc: Global, of: JType) -> Result<Component, NoMemory>
        ensures { IfOk result (λ component. component ≡ shape_of of) }
    {
        Ok(Component {
            of: Arc::new(alloc, of)?,
        })
    }

    /// The type.
    pub fn get(&self) -> &JType
        ensures { result.now ≡ arrays_of self.now.dims self.now.base }
    {
        &self.of
    }

    // Another owner of the type.
    fn copied(&self) -> Result<Component, NoMemory>
        ensures { IfOk result (λ copy. copy ≡ self.now) }
    {
        Ok(Component {
            of: Arc::try_clone(&self.of)?,
        })
    }
}

impl JType {
    /// Another type that equals this one. It takes no memory.
    pub fn copied(&self, alloc: Global) -> Result<JType, NoMemory>
        ensures { IfOk result (λ copy. copy ≡ self.now) }
    {
        match self {
            JType::Bool => Ok(JType::Bool),
            JType::Byte => Ok(JType::Byte),
            JType::Char => Ok(JType::Char),
            JType::Short => Ok(JType::Short),
            JType::Int => Ok(JType::Int),
            JType::Long => Ok(JType::Long),
            JType::Float => Ok(JType::Float),
            JType::Double => Ok(JType::Double),
            JType::Class(name) => Ok(JType::Class(name.copied(alloc)?)),
            JType::Array(component) => Ok(JType::Array(component.copied()?)),
        }
    }

    /// Whether they are one type.
    #[cycle(same)]
    pub fn is_same(&self, other: &JType) -> bool
        ensures { IsTrue result ↔ (self.now ≡ other.now) }
    {
        match (self, other) {
            (JType::Class(name), JType::Class(other)) => name == other,
            (JType::Array(component), JType::Array(other)) => component.of.is_same(&other.of),
            (JType::Bool, JType::Bool) => true,
            (JType::Byte, JType::Byte) => true,
            (JType::Char, JType::Char) => true,
            (JType::Short, JType::Short) => true,
            (JType::Int, JType::Int) => true,
            (JType::Long, JType::Long) => true,
            (JType::Float, JType::Float) => true,
            (JType::Double, JType::Double) => true,
            _ => false,
        }
    }
}

impl Same for JType {
    fn is_same_as(&self, other: &JType) -> bool {
        self.is_same(other)
    }
}

// Another result that equals this one.
fn copied_result(alloc: Global, of: &Option<JType>) -> Result<Option<JType>, NoMemory>
    ensures { IfOk result (λ copy. copy ≡ of.now) }
{
    match of {
        Some(of) => Ok(Some(of.copied(alloc)?)),
        None => Ok(None),
    }
}

// Whether they are one result.
fn is_same_result(one: &Option<JType>, other: &Option<JType>) -> bool
    ensures { IsTrue result ↔ (one.now ≡ other.now) }
{
    match (one, other) {
        (Some(of), Some(other)) => of.is_same(other),
        (None, None) => true,
        _ => false,
    }
}

/// The parameters and the result of a method; no result for `void` (JVMS 8 section 4.3.3).
#[derive(Drop)]
pub struct MethodType {
    pub params: SharedRow<JType>,
    pub result: Option<JType>,
}

impl MethodType {
    /// Another type that equals this one.
    pub fn copied(&self, alloc: Global) -> Result<MethodType, NoMemory>
        ensures { IfOk result (λ copy. copy ≡ self.now) }
    {
        let params = self.params.copied()?;
        let returned = copied_result(alloc, &self.result)?;
        Ok(MethodType {
            params,
            result: returned,
        })
    }

    /// Whether they are one type.
    pub fn is_same(&self, other: &MethodType) -> bool
        ensures { IsTrue result ↔ (self.now ≡ other.now) }
    {
        if !is_same_result(&self.result, &other.result) {
            return false;
        }
        are_same(self.params.as_slice(), other.params.as_slice())
    }
}

/// What an object is: of a class, or an array with its component.
#[derive(Drop)]
pub enum ExactType {
    Class(Name),
    Array(JType),
}

impl ExactType {
    /// Another type that equals this one.
    pub fn copied(&self, alloc: Global) -> Result<ExactType, NoMemory>
        ensures { IfOk result (λ copy. copy ≡ self.now) }
    {
        match self {
            ExactType::Class(name) => Ok(ExactType::Class(name.copied(alloc)?)),
            ExactType::Array(component) => Ok(ExactType::Array(component.copied(alloc)?)),
        }
    }

    /// Whether they are one type.
    pub fn is_same(&self, other: &ExactType) -> bool
        ensures { IsTrue result ↔ (self.now ≡ other.now) }
    {
        match (self, other) {
            (ExactType::Class(name), ExactType::Class(other)) => name == other,
            (ExactType::Array(component), ExactType::Array(other)) => component.is_same(other),
            _ => false,
        }
    }
}

/// A method of a class, by the class's name, its own and its type.
#[derive(Drop)]
pub struct Target {
    pub class: Name,
    pub name: Name,
    pub kind: MethodType,
}

impl Target {
    /// Another target that equals this one.
    pub fn copied(&self, alloc: Global) -> Result<Target, NoMemory>
        ensures { IfOk result (λ copy. copy ≡ self.now) }
    {
        let class = self.class.copied(alloc)?;
        let name = self.name.copied(alloc)?;
        let kind = self.kind.copied(alloc)?;
        Ok(Target { class, name, kind })
    }

    /// Whether they are one target.
    pub fn is_same(&self, other: &Target) -> bool
        ensures { IsTrue result ↔ (self.now ≡ other.now) }
    {
        if self.class != other.class {
            return false;
        }
        if self.name != other.name {
            return false;
        }
        self.kind.is_same(&other.kind)
    }
}
