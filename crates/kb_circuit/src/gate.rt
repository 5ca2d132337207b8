//! The kinds of gates.
use kb_chain::Lit;

/// A gate of two inputs. `Mux` gives the first where its literal is true, else the second. `MaskedMux` gives the same by
/// its second literal, but false where its first is.
#[derive(Clone, Copy)]
pub(crate) enum Gate {
    And,
    Or,
    Xor,
    Mux(Lit),
    MaskedMux(Lit, Lit),
}
