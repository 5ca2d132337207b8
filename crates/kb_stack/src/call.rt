//! How a call finds its method.

/// How a call finds its method: by the receiver's class (invokevirtual, invokeinterface), upwards from a class that does not
/// depend on the receiver (invokespecial), or as the method that is named (invokestatic).
#[derive(Clone, Copy)]
pub enum Call {
    BySelection,
    Special,
    Static,
}
