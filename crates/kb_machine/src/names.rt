//! The names of the classes of which a run makes objects.

ghost use Rattle.std.specs.Prelude.{◌≡◌, IfOk, IfSome};

use crate::NoMemory;
use indexmap::IndexSet;
use kb_names::{ExactType, JType, Name};
use std::alloc::Global;
use std::marker::Model;

/// Names of classes that are the run's own. All runs over a world share the world's names, and each copy of one changes the count
/// of its owners, for which runs on several processors would wait; the count of a run's own name changes in that run alone.
/// Contracts see nothing of them.
#[derive(Drop)]
pub(crate) struct Names {
    // Of classes that instructions name.
    named: IndexSet<Name>,
    // The place of the one of them that was asked for last. Code that makes many objects of one class asks for its name again
    // and again, which is then compared and not hashed.
    last: usize,
    // Of classes of which the machine itself throws objects: a few.
    thrown: Vec<Name>,
}

impl Model for Names {
    ghost Value = { Unit {0} };

    ghost view = { λ names. tt };
}

impl Names {
    /// None so far. It takes no memory.
    pub(crate) fn new(alloc: Global) -> Names {
        Names {
            named: IndexSet::new(alloc),
            last: 0,
            thrown: Vec::new(alloc),
        }
    }

    /// The type, with the run's own name of its class.
    pub(crate) fn own_type(&mut self, alloc: Global, of: &ExactType) -> Result<ExactType, NoMemory>
        ensures { IfOk result (λ own. own ≡ of.now) }
    {
        match of {
            ExactType::Class(name) => Ok(ExactType::Class(self.own_name(alloc, name)?)),
            ExactType::Array(component) => {
                Ok(ExactType::Array(self.own_component(alloc, component)?))
            }
        }
    }

    // The component, with the run's own name of its class. One that is an array is shared with the world.
    fn own_component(&mut self, alloc: Global, of: &JType) -> Result<JType, NoMemory>
        ensures { IfOk result (λ own. own ≡ of.now) }
    {
        match of {
            JType::Class(name) => Ok(JType::Class(self.own_name(alloc, name)?)),
            _ => of.copied(alloc),
        }
    }

    /// The run's own name of a class: its bytes are copied where it is asked for first.
    pub(crate) fn own_name(&mut self, alloc: Global, name: &Name) -> Result<Name, NoMemory>
        ensures { IfOk result (λ own. own ≡ name.now) }
    {
        match self.named.get_index(self.last) {
            Some(own) if own.as_slice() == name.as_slice() => own.copied(alloc),
            _ => self.look_up(alloc, name),
        }
    }

    // The run's own name of a class, by its hash.
    fn look_up(&mut self, alloc: Global, name: &Name) -> Result<Name, NoMemory>
        ensures { IfOk result (λ own. own ≡ name.now) }
    {
        match self.named.get_full(name) {
            Some((place, own)) => {
                self.last = place;
                own.copied(alloc)
            }
            None => self.add_named(alloc, name),
        }
    }

    fn add_named(&mut self, alloc: Global, name: &Name) -> Result<Name, NoMemory>
        ensures { IfOk result (λ own. own ≡ name.now) }
    {
        let own = Name::from_slice(alloc, name.as_slice())?;
        self.last = self.named.len();
        self.named.insert(own.copied(alloc)?)?;
        Ok(own)
    }

    /// The run's own name of a class of which the machine itself throws objects.
    pub(crate) fn thrown_name(&mut self, alloc: Global, class: &[u8]) -> Result<Name, NoMemory>
        ensures { IfOk result (λ own. own ≡ class.now) }
    {
        match name_among(self.thrown.as_slice(), class) {
            Some(own) => own.copied(alloc),
            None => self.add_thrown(alloc, class),
        }
    }

    fn add_thrown(&mut self, alloc: Global, class: &[u8]) -> Result<Name, NoMemory>
        ensures { IfOk result (λ own. own ≡ class.now) }
    {
        let own = Name::from_slice(alloc, class)?;
        self.thrown.push(own.copied(alloc)?)?;
        Ok(own)
    }
}

// The first of these names that has the bytes.
fn name_among<'n>(names: &'n [Name], bytes: &[u8]) -> Option<&'n Name>
    ensures { IfSome result (λ name. name.now ≡ bytes.now) }
{
    let mut rest = names;
    while let [name, others @ ..] = rest {
        if name.as_slice() == bytes {
            return Some(name);
        }
        rest = others;
    }
    None
}
