//! Calls, and the entries that they take.
ghost use Rattle.std.specs.Prelude.{◌≡◌};
ghost use Rattle.kb_universe.specs.Uses.{takes};

use kb_class::ReferenceKind;

/// How a method is called: by invokevirtual, invokeinterface, invokespecial or invokestatic.
#[derive(Clone, Copy, PartialEq, Eq, Hash)]
pub enum Call {
    Virtual,
    Interface,
    Special,
    Static,
}

/// A call of an entry of a class.
#[derive(Clone, Copy)]
pub struct EntryCall {
    pub class: u32,
    pub entry: u16,
    pub call: Call,
}

/// Whether the entry is one that the call takes.
pub fn takes(call: Call, what: ReferenceKind) -> bool
    ensures { result ≡ takes call what }
{
    match (call, what) {
        (Call::Virtual, ReferenceKind::Method) => true,
        (Call::Interface, ReferenceKind::InterfaceMethod) => true,
        (Call::Special | Call::Static, ReferenceKind::Method) => true,
        (Call::Special | Call::Static, ReferenceKind::InterfaceMethod) => true,
        _ => false,
    }
}
