//! Pieces of an exploration.
ghost use Rattle.std.specs.Prelude.{◌≡◌, [], IfOk};

use crate::NoMemory;
use kb_frames::SymState;
use kb_rows::Row;
use std::alloc::Global;

/// A state to which an exploration has led, with the decisions that led to it, and with values that meet its conditions: that
/// of variable 0 first, and 0 for each variable behind the last one.
#[derive(Drop)]
pub struct Piece {
    pub state: SymState,
    pub decisions: Row<u32>,
    pub values: Row<i32>,
}

impl Piece {
    /// The piece that is a whole exploration, from a state that has no conditions.
    pub fn whole(alloc: Global, start: SymState) -> Piece
        ensures { result ≡ record { state = start; decisions = []; values = [] } }
    {
        Piece {
            state: start,
            decisions: Row::new(alloc),
            values: Row::new(alloc),
        }
    }

    pub(crate) fn copied(&self, alloc: Global) -> Result<Piece, NoMemory>
        ensures { IfOk result (λ copy. copy ≡ self.now) }
    {
        let decisions = self.decisions.as_slice().to_vec(alloc)?;
        let values = self.values.as_slice().to_vec(alloc)?;
        let state = self.state.copy()?;
        Ok(Piece {
            state,
            decisions: Row::from_vec(decisions),
            values: Row::from_vec(values),
        })
    }
}
