//! How the program ends.

ghost use Rattle.std.specs.Prelude.{◌≡◌};
ghost use Rattle.kb_refusals.specs.StatusNumber.{status_number};

/// How the program ends. Each comes exactly where the contract of the top call says; that memory runs out is free.
#[derive(Clone, Copy, Debug, PartialEq, Eq)]
pub enum Status {
    /// What was asked for was written whole; of a replay, each test passes.
    Complete,
    /// It was written, and some path is undecided or open.
    Partial,
    /// The words have a fault.
    Words,
    /// A class file was refused.
    Class,
    /// Class files are not linked, or a method, a field or a class that is reached is not there.
    Link,
    /// An instruction that is reached cannot be carried out, a class is initialised by code, or something is not built yet.
    Outside,
    /// A file could not be read.
    ReadFault,
    /// The output could not be written.
    WriteFault,
    /// Memory ran out.
    Memory,
    /// A text, or a test, was refused.
    Text,
    /// A test's run is not as the test says.
    Differs,
}

impl Status {
    /// The program's exit status.
    pub fn number(self) -> u8
        ensures { result ≡ status_number self }
    {
        match self {
            Status::Complete => 0,
            Status::Partial => 1,
            Status::Words => 2,
            Status::Class => 3,
            Status::Link => 4,
            Status::Outside => 5,
            Status::ReadFault => 6,
            Status::WriteFault => 7,
            Status::Memory => 8,
            Status::Text => 9,
            Status::Differs => 10,
        }
    }
}
