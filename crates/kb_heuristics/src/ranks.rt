//! How much each learned clause is worth: on how many levels its literals stood (literal block distance: Audemard and Simon,
//! 2009), and whether it was of use lately. Free.
ghost use Rattle.std.specs.Prelude.{◌≡◌, ◌-◌, ◌<◌, ◌≤◌, true, length};
ghost use Rattle.kb_chain.specs.Literal.{Literal, has, negated};
ghost use Rattle.kb_propagate.specs.Trail.{level_start};

use kb_chain::{Chain, Lit};
use kb_propagate::{NoMemory, Trail};
use std::alloc::Global;

/// What is known of a clause's use.
#[derive(Clone, Copy, Drop)]
pub struct Rank {
    /// On how many levels its literals stood when it was learned (as Audemard and Simon, 2009, count); 0 for a clause that
    /// stays.
    pub levels: u32,
    /// Whether a clause was learned by its help since clauses were let go last.
    pub used: bool,
}

/// The rank of a clause that stays.
const STAYING: Rank = Rank {
    levels: 0,
    used: false,
};

/// The ranks of clauses, by number.
#[derive(Drop)]
pub struct Ranks {
    pub ranks: Vec<Rank>,
}

impl Ranks {
    pub fn new(alloc: Global) -> Ranks {
        Ranks {
            ranks: Vec::new(alloc),
        }
    }

    /// Notes that the clauses of a chain were of help.
    pub fn note(&mut self, chain: &Chain) {
        self.note_clause(chain.start);
        for step in chain.steps.as_slice() {
            self.note_clause(step.1);
        }
    }

    fn note_clause(&mut self, number: u32) {
        if let Some(rank) = self.ranks.get_mut(number as usize) {
            rank.used = true;
        }
    }

    /// From now on no clause counts as used.
    pub fn clear_uses(&mut self) {
        for rank in self.ranks.iter_mut() {
            rank.used = false;
        }
    }

    /// The rank of the clause of this number, which was learned.
    pub fn set(&mut self, number: u32, levels: u32) -> Result<(), NoMemory> {
        let place = number as usize;
        if place >= self.ranks.len() {
            self.ranks.resize(place + 1, STAYING)?;
        }
        self.ranks[place] = Rank { levels, used: true };
        Ok(())
    }
}

/// On how many levels the literals of a learned clause stand. That of the last level stands first; the others are counted right
/// where they are ordered from the latest to the earliest.
pub fn levels_of(trail: &Trail, literals: &[Lit]) -> u32
    requires { (l : Literal) → has literals.now l ≡ true → has trail.now.literals (negated l) ≡ true }
{
    trail.tell_trail();
    if trail.level() == 0 {
        return 1;
    }
    let mut levels = 1u32;
    let mut start = trail.start(trail.level() - 1);
    for literal in literals {
        let position = trail.position(literal.negated());
        if position < start {
            levels = levels.saturating_add(1);
            start = start_before(trail, position);
        }
    }
    levels
}

/// Where the level of a position begins.
fn start_before(trail: &Trail, position: usize) -> usize
    requires above { 0 < length trail.now.starts }
    requires below { position < level_start trail.now.starts (length trail.now.starts - 1) }
    ensures { result ≤ position }
{
    let level = level_of(trail, position);
    if level == 0 {
        return 0;
    }
    trail.start(level - 1)
}

/// The level of a position above level 0 and below the last level.
pub fn level_of(trail: &Trail, position: usize) -> usize
    requires above { 0 < length trail.now.starts }
    requires below { position < level_start trail.now.starts (length trail.now.starts - 1) }
    ensures below { position < level_start trail.now.starts result }
    ensures above { 0 < result → level_start trail.now.starts (result - 1) ≤ position }
    ensures inside { result < length trail.now.starts }
{
    let mut low = 0;
    let mut high = trail.level() - 1;
    while low < high {
        let middle = low + (high - low) / 2;
        if position < trail.start(middle) {
            high = middle;
        } else {
            low = middle + 1;
        }
    }
    low
}
