//! The watches at a literal.
use kb_chain::Lit;

/// That a clause watches the literal in whose list this stands. As long as the blocker, another of its literals, is true,
/// the clause need not be looked at.
#[derive(Clone, Copy, Default, Drop)]
pub struct Watch {
    pub clause: u32,
    pub blocker: Lit,
}
