//! When a search restarts, and when it reduces its clause database. Both are free: any time would do.
use crate::parameters::{REDUCTION_FIRST, REDUCTION_GROWTH, RESTART_UNIT};

/// After how many conflicts a search goes back to level 0: Luby's sequence, in hundreds (Luby, Sinclair and Zuckerman, 1993),
/// by Knuth's reluctant doubling.
#[derive(Clone, Copy, Drop)]
pub struct Pace {
    left: u32,
    turn: u32,
    factor: u32,
}

impl Pace {
    pub fn new() -> Pace {
        Pace {
            left: RESTART_UNIT,
            turn: 1,
            factor: 1,
        }
    }

    /// Counts one conflict, and says whether it is time to go back.
    pub fn is_due(&mut self) -> bool {
        if self.left > 1 {
            self.left -= 1;
            return false;
        }
        self.step();
        self.left = RESTART_UNIT.saturating_mul(self.factor);
        true
    }

    /// Goes on to the next number of Luby's sequence.
    fn step(&mut self) {
        if self.turn & self.turn.wrapping_neg() == self.factor {
            self.turn = self.turn.wrapping_add(1);
            self.factor = 1;
        } else {
            self.factor = self.factor.wrapping_mul(2);
        }
    }
}

/// After how many learned clauses some are let go: intervals that grow by the same number (as in Glucose: Audemard and Simon,
/// 2009).
#[derive(Clone, Copy, Drop)]
pub struct Crowding {
    left: u32,
    interval: u32,
}

impl Crowding {
    pub fn new() -> Crowding {
        Crowding {
            left: REDUCTION_FIRST,
            interval: REDUCTION_FIRST,
        }
    }

    /// Counts one learned clause, and says whether it is time to let some go.
    pub fn is_due(&mut self) -> bool {
        if self.left > 1 {
            self.left -= 1;
            return false;
        }
        self.interval = self.interval.saturating_add(REDUCTION_GROWTH);
        self.left = self.interval;
        true
    }
}
