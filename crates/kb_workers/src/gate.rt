//! What is told of each piece before and after the work on it.

/// It is told when work on a piece begins and when it has ended, by the thread that does the work. Threads share it.
pub trait Gate {
    /// The work on the piece of this number, from 0, begins.
    fn enter(&self, piece: usize);

    /// The work on that piece has ended.
    fn leave(&self, piece: usize);
}

/// The gate that does nothing.
#[derive(Drop)]
pub struct OpenGate;

impl Gate for OpenGate {
    fn enter(&self, _piece: usize) {}

    fn leave(&self, _piece: usize) {}
}
