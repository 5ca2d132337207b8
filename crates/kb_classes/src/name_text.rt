//! Names by their bytes.

use indexmap::Equivalent;
use kb_names::Name;
use std::hash::{Hash, Hasher};

/// The bytes of a name, by which it is looked up where there is no [`Name`]. They are hashed as the name is.
#[derive(Clone, Copy)]
pub(crate) struct NameText<'a> {
    pub(crate) bytes: &'a [u8],
}

impl<'a> PartialEq for NameText<'a> {
    ghost use Rattle.std.specs.Str.{bytes_eq};
    ghost use Rattle.std.specs.Cmp.{on_per, partial_equiv_from_equiv};
    ghost use Rattle.std.proofs.lemmas.Cmp.{nat_list_eq_equiv};

    ghost eq = { λ x y. bytes_eq x.bytes.now y.bytes.now };

    ghost laws = { on_per (λ x. x.bytes.now) (partial_equiv_from_equiv nat_list_eq_equiv) };

    fn eq(&self, other: &NameText<'a>) -> bool {
        self.bytes == other.bytes
    }
}

impl<'a> Eq for NameText<'a> {
    ghost use Rattle.std.specs.Cmp.{on_equiv};
    ghost use Rattle.std.proofs.lemmas.Cmp.{nat_list_eq_equiv};

    ghost laws = { on_equiv (λ x. x.bytes.now) nat_list_eq_equiv };
}

impl<'a> Hash for NameText<'a> {
    ghost use Rattle.std.specs.Prelude.{ℕ, List, [], ◌∷◌};
    ghost use Rattle.std.proofs.Common.{ap};
    ghost use Rattle.std.proofs.lemmas.Slice.Eq.{bytes_eq-Decides};

    ghost hash_input = { λ text. text.bytes.now ∷ [] };

    ghost respects_eq = { λ x y e. ap (λ (bytes : List ℕ). bytes ∷ []) ((bytes_eq-Decides x.bytes.now y.bytes.now).0 e) };

    fn hash<H: Hasher>(&self, state: &mut H) {
        state.write(self.bytes);
    }
}

impl<'a> Equivalent<Name> for NameText<'a> {
    ghost use Rattle.std.specs.Prelude.{ℕ, List, [], ◌∷◌};
    ghost use Rattle.std.specs.Str.{bytes_eq};
    ghost use Rattle.std.proofs.Common.{ap};
    ghost use Rattle.std.proofs.lemmas.Slice.Eq.{bytes_eq-Decides};

    ghost equivalent = { λ text name. bytes_eq text.bytes.now name };

    ghost respects_hash = { λ text name e. ap (λ (bytes : List ℕ). bytes ∷ []) ((bytes_eq-Decides text.bytes.now name).0 e) };

    ghost respects_eq = { λ text x y e. ap (λ (bytes : List ℕ). bytes_eq bytes y) ((bytes_eq-Decides text.bytes.now x).0 e) };

    fn equivalent(&self, name: &Name) -> bool {
        self.bytes == name.as_slice()
    }
}
