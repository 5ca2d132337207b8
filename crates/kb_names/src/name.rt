//! Names, which are lists of bytes.
ghost use Rattle.std.specs.Prelude.{◌≡◌, ◌↔◌, ◌<◌, [], IfOk, IsTrue};
ghost use Rattle.kb_names.specs.Bytes.{AreBytes};

use crate::{NoMemory, Row, SharedRow};
use std::alloc::Global;
use std::hash::{Hash, Hasher};
use std::marker::Model;

/// The name of a class, a field or a method: any bytes, made once and shared by all copies. That each item of a
/// name is a byte, below 256, is an invariant.
#[derive(Drop)]
pub struct Name {
    bytes: SharedRow<u8>,
}

impl Model for Name {
    ghost use Rattle.std.specs.Prelude.{List, ℕ};

    ghost Value = { List ℕ };

    ghost view = { λ name. name.bytes };

    ghost use Rattle.kb_names.specs.Bytes.{AreBytes};

    ghost invariant = { λ name. AreBytes name.bytes };
}

impl Name {
    /// The name of no bytes. It takes no memory.
    pub fn new(_alloc: Global) -> Name
        ensures { result ≡ [] }
    {
        Name {
            bytes: SharedRow::new(),
        }
    }

    /// Whether it has no bytes.
    pub fn is_empty(&self) -> bool
        ensures { IsTrue result ↔ (self.now ≡ []) }
    {
        self.as_slice().is_empty()
    }

    /// The name of these bytes, which are not copied.
    pub fn from_vec(bytes: Vec<u8>) -> Result<Name, NoMemory>
        ensures { IfOk result (λ name. name ≡ bytes.items) }
    {
        tell_bytes(bytes.as_slice());
        Ok(Name {
            bytes: SharedRow::from_vec(bytes)?,
        })
    }

    // The name of these bytes, which are not copied.
    pub(crate) fn from_row(bytes: Row<u8>) -> Result<Name, NoMemory>
        ensures { IfOk result (λ name. name ≡ bytes) }
    {
        Name::from_vec(bytes.into_vec())
    }

    /// The name of these bytes, copied.
    pub fn from_slice(alloc: Global, bytes: &[u8]) -> Result<Name, NoMemory>
        ensures { IfOk result (λ name. name ≡ bytes.now) }
    {
        Name::from_vec(bytes.to_vec(alloc)?)
    }

    /// Its bytes.
    pub fn as_slice(&self) -> &[u8]
        ensures same { result.now ≡ self.now }
        ensures bytes { AreBytes self.now }
    {
        self.bytes.as_slice()
    }

    /// Another owner of the name. It copies no byte.
    pub fn copied(&self, _alloc: Global) -> Result<Name, NoMemory>
        ensures { IfOk result (λ name. name ≡ self.now) }
    {
        Ok(Name {
            bytes: self.bytes.copied()?,
        })
    }
}

// Does nothing. That an item of a list is a byte is known once it is read.
fn tell_bytes(bytes: &[u8])
    ensures { AreBytes bytes.now }
{
    for byte in bytes {
        tell_byte(*byte);
    }
}

fn tell_byte(_byte: u8)
    ensures { _byte < 256 }
{}

impl PartialEq for Name {
    ghost use Rattle.std.specs.Str.{bytes_eq};
    ghost use Rattle.std.specs.Cmp.{partial_equiv_from_equiv};
    ghost use Rattle.std.proofs.lemmas.Cmp.{nat_list_eq_equiv};

    ghost eq = { bytes_eq };

    ghost laws = { partial_equiv_from_equiv nat_list_eq_equiv };

    fn eq(&self, other: &Name) -> bool {
        self.as_slice() == other.as_slice()
    }
}

impl Eq for Name {
    ghost use Rattle.std.proofs.lemmas.Cmp.{nat_list_eq_equiv};

    ghost laws = { nat_list_eq_equiv };
}

// A name is fed to a hasher whole: a list is fed item by item, which takes many times as long.
impl Hash for Name {
    ghost use Rattle.std.specs.Prelude.{ℕ, List, [], ◌∷◌};
    ghost use Rattle.std.proofs.Common.{ap};
    ghost use Rattle.std.proofs.lemmas.Slice.Eq.{bytes_eq-Decides};

    ghost hash_input = { λ name. name ∷ [] };

    ghost respects_eq = { λ x y e. ap (λ (bytes : List ℕ). bytes ∷ []) ((bytes_eq-Decides x y).0 e) };

    fn hash<H: Hasher>(&self, state: &mut H) {
        state.write(self.as_slice());
    }
}
