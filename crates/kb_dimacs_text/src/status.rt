//! How the program ends.
ghost use Rattle.std.specs.Prelude.{◌≡◌};
ghost use Rattle.kb_dimacs_text.specs.StatusNumber.{exit_code};

/// How the program ends. The first three are the exit statuses of the SAT competitions.
#[derive(Clone, Copy, PartialEq, Eq)]
pub enum Status {
    /// The formula is satisfiable.
    Satisfiable,
    /// The formula is unsatisfiable.
    Unsatisfiable,
    /// The budget was spent.
    Unknown,
    /// The words or the input have a fault.
    Refused,
    /// The input could not be read.
    ReadFault,
    /// The output could not be written.
    WriteFault,
    /// Memory ran out.
    Memory,
}

impl Status {
    /// The program's exit status.
    pub fn number(self) -> u8
        ensures { result ≡ exit_code self }
    {
        match self {
            Status::Satisfiable => 10,
            Status::Unsatisfiable => 20,
            Status::Unknown => 0,
            Status::Refused => 1,
            Status::ReadFault => 6,
            Status::WriteFault => 7,
            Status::Memory => 8,
        }
    }
}
