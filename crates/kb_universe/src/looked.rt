//! Entries that have been looked at, each once for each use of it.
ghost use Rattle.std.specs.Prelude.{◌≡◌, ◌↔◌, ◌⊎◌, [], IsTrue, OnOk};
ghost use Rattle.kb_class.specs.Naming.{Has};
ghost use Rattle.kb_universe.specs.Uses.{use_of};
ghost use Rattle.kb_universe.specs.declared.looked.Asked.{Asked as PlainAsked};

use crate::calls::Call;
use indexmap::IndexSet;
use kb_code::Instr;
use kb_names::NoMemory;
use std::alloc::Global;
use std::marker::Model;

/// What an instruction does with the entry that it names: it calls the method, makes an object of the class or an array of the
/// type, or compares with the type (checkcast, instanceof).
#[derive(Clone, Copy, PartialEq, Eq, Hash)]
pub enum Use {
    Call(Call),
    Object,
    Array,
    Cast,
}

/// A use of an entry of a class.
#[derive(Clone, Copy, PartialEq, Eq, Hash)]
pub struct Asked {
    pub class: u32,
    pub entry: u16,
    pub usage: Use,
}

/// Entries with the uses for which they have been looked at. Contracts see the list of them.
#[derive(Drop)]
pub struct Looked {
    set: IndexSet<Asked>,
}

impl Model for Looked {
    ghost use Rattle.std.specs.Prelude.{List};
    ghost use Rattle.kb_universe.specs.declared.looked.Asked.{Asked as PlainAsked};

    ghost Value = { List PlainAsked };

    ghost view = { λ looked. looked.set.keys };
}

impl Looked {
    /// None so far.
    pub fn new(alloc: Global) -> Looked
        ensures { result ≡ [] }
    {
        Looked {
            set: IndexSet::new(alloc),
        }
    }

    /// Whether the entry has been looked at for that use.
    pub fn has(&self, asked: Asked) -> bool
        ensures { IsTrue result ↔ Has self.now asked }
    {
        self.set.contains(&asked)
    }

    /// Adds an entry for a use.
    pub fn add(&mut self, asked: Asked) -> Result<(), NoMemory>
        ensures { OnOk result ((other : PlainAsked) → Has self.new other ↔ (Has self.old other ⊎ (other ≡ asked))) }
    {
        self.set.insert_full(asked)?;
        Ok(())
    }
}

/// What an instruction does with the entry that it names, where that is more than to read it.
pub fn use_of(instr: &Instr) -> Option<(Use, u16)>
    ensures { result ≡ use_of instr.now }
{
    match instr {
        Instr::Virtual(entry) => Some((Use::Call(Call::Virtual), *entry)),
        Instr::Special(entry) => Some((Use::Call(Call::Special), *entry)),
        Instr::Static(entry) => Some((Use::Call(Call::Static), *entry)),
        Instr::Interface(entry) => Some((Use::Call(Call::Interface), *entry)),
        Instr::New(entry) => Some((Use::Object, *entry)),
        Instr::NewRefs(entry) => Some((Use::Array, *entry)),
        Instr::Cast(entry) | Instr::InstanceOf(entry) => Some((Use::Cast, *entry)),
        _ => None,
    }
}
