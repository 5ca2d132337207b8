//! Names of initialisers and the like.
ghost use Rattle.std.specs.Prelude.{◌≡◌};
ghost use Rattle.kb_classes.specs.Split.{is_special};

/// Whether it is the name of an initialiser or the like.
pub fn is_special(name: &[u8]) -> bool
    ensures { result ≡ is_special name.now }
{
    match name {
        [first, ..] => *first == b'<',
        [] => false,
    }
}
