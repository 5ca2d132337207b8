//! Why an exploration stops.

use crate::NoMemory;
use kb_picture::Path;

/// Why there is no list of paths.
#[derive(Drop)]
pub enum DriveStop {
    /// The oracle's answer of that number does not serve the conditions of the path, which is open. The oracle has counted it.
    Oracle(u32, Path),
    /// Memory ran out.
    NoMemory,
}

impl From<NoMemory> for DriveStop {
    ghost use Rattle.std.specs.Prelude.{◌≡◌};
    ghost use Rattle.kb_drive.specs.declared.stop.DriveStop.TheVariants.{NoMemory};

    ghost from_gives = { λ _ e. e ≡ NoMemory };

    fn from(_error: NoMemory) -> DriveStop {
        DriveStop::NoMemory
    }
}
