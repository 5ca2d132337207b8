//! Shifts of words by fixed numbers of places.
ghost use Rattle.std.specs.Prelude.{◌≡◌, ◌<◌};
ghost use Rattle.kb_circuit.specs.Circuit.{falsity};
ghost use Rattle.kb_circuit.specs.Shifts.{moved, moved_up, moved_down};

use kb_chain::Lit;

/// A shift of the Java virtual machine: up, down with the sign, and down with zeros.
#[derive(Clone, Copy)]
pub(crate) enum Shift {
    Shl,
    Shr,
    Ushr,
}

impl Shift {
    /// The bits moved by so many places.
    pub(crate) fn moved(self, places: usize, bits: &[Lit; 32]) -> [Lit; 32]
        requires { places < 32 }
        ensures { result ≡ moved self places bits.now }
    {
        let none = Lit::new(1, false);
        match self {
            Shift::Shl => moved_up(none, places, bits),
            Shift::Shr => moved_down(bits[31], places, bits),
            Shift::Ushr => moved_down(none, places, bits),
        }
    }
}

fn moved_up(fill: Lit, places: usize, bits: &[Lit; 32]) -> [Lit; 32]
    requires { places < 32 }
    ensures { result ≡ moved_up fill places bits.now }
{
    let mut out = [fill; 32];
    let all = &mut out[..];
    all[places..].copy_from_slice(&bits[..32 - places]);
    out
}

fn moved_down(fill: Lit, places: usize, bits: &[Lit; 32]) -> [Lit; 32]
    requires { places < 32 }
    ensures { result ≡ moved_down fill places bits.now }
{
    let all = &bits[..];
    let mut out = [fill; 32];
    out[..32 - places].copy_from_slice(&all[places..]);
    out
}
