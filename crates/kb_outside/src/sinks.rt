//! What bytes are written to.
ghost use Rattle.std.specs.Prelude.{◌≡◌, ℕ, ◌<◌, ◌≤◌, Option, List, length, take, IfOk, OnOk, OnErr};
ghost use Rattle.kb_outside.specs.Outside.{Rose, Grows, GrowsByPart};

/// The sink failed and took nothing. It has counted it.
#[derive(Clone, Copy, Debug, PartialEq, Eq)]
pub struct SinkFailed;

/// Takes bytes, in order.
pub trait Sink {
    /// All bytes that were taken, where the sink tells them.
    ghost written: { Self → Option (List ℕ) };

    /// How many writes have failed, in a count that stops at the last value of a u64.
    ghost faults: { Self → ℕ };

    /// Takes the first bytes of `piece`, at least one, and says how many.
    fn write(&mut self, piece: &[u8]) -> Result<usize, SinkFailed>
        requires { 0 < length piece.now }
        ensures some { IfOk result (λ n. 0 < n) }
        ensures within { IfOk result (λ n. n ≤ length piece.now) }
        ensures taken { IfOk result (λ n. Grows (written self.old) (written self.new) (take n piece.now)) }
        ensures nothing { OnErr result (written self.new ≡ written self.old) }
        ensures counted { OnErr result (Rose (faults self.old) (faults self.new)) }
        ensures later { faults self.old ≤ faults self.new };
}

/// Writes the whole text, piece by piece. Takes no memory. After a failure a front of the text was written.
pub fn send_all<K: Sink>(out: &mut K, text: &[u8]) -> Result<(), SinkFailed>
    ensures whole { OnOk result (Grows (K.written out.old) (K.written out.new) text.now) }
    ensures part { OnErr result (GrowsByPart (K.written out.old) (K.written out.new) text.now) }
    ensures counted { OnErr result (Rose (K.faults out.old) (K.faults out.new)) }
    ensures later { K.faults out.old ≤ K.faults out.new }
{
    let mut sent = 0;
    while sent < text.len() {
        sent += out.write(&text[sent..])?;
    }
    Ok(())
}
