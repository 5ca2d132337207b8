//! Why a program of rows stops.
ghost use Rattle.std.specs.Prelude.{◌≡◌, Ok, IfOk};

use std::alloc::{AllocError, AllocFailed};
use std::io::{Error, ErrorKind};

/// Why a program of rows stops. It is small, since every function that may stop has it on each of its ways out.
#[derive(Clone, Copy, PartialEq, Eq)]
pub enum RowStop {
    /// A row asks for nothing.
    Malformed,
    /// A file could not be read, or is not there.
    NoFile,
    /// A file has more bytes than there is room for.
    TooLong,
    /// Memory ran out.
    NoMemory,
    /// What a row comes to was not written.
    NotSent,
}

/// What a function of a program of rows answers.
pub type RowResult<T> = Result<T, RowStop>;

impl From<AllocError> for RowStop {
    ghost use Rattle.kb_table.specs.declared.faults.RowStop.TheVariants.{NoMemory};

    ghost from_gives = { λ _ stop. stop ≡ NoMemory };

    fn from(_error: AllocError) -> RowStop {
        RowStop::NoMemory
    }
}

impl<T: Drop> From<AllocFailed<T>> for RowStop {
    ghost use Rattle.kb_table.specs.declared.faults.RowStop.TheVariants.{NoMemory};

    ghost from_gives = { λ _ stop. stop ≡ NoMemory };

    fn from(_refused: AllocFailed<T>) -> RowStop {
        RowStop::NoMemory
    }
}

/// For `main` alone.
impl From<RowStop> for Error {
    fn from(stop: RowStop) -> Error {
        let kind = match stop {
            RowStop::Malformed => ErrorKind::InvalidData,
            RowStop::NoFile => ErrorKind::NotFound,
            RowStop::TooLong => ErrorKind::FileTooLarge,
            RowStop::NoMemory => ErrorKind::OutOfMemory,
            RowStop::NotSent => ErrorKind::Other,
        };
        Error::from(kind)
    }
}

/// What was answered, where nothing but memory can be short.
pub fn kept<T, E: Drop>(answered: Result<T, E>) -> RowResult<T>
    ensures { IfOk result (λ value. answered ≡ Ok value) }
{
    match answered {
        Ok(value) => Ok(value),
        Err(_) => Err(RowStop::NoMemory),
    }
}
