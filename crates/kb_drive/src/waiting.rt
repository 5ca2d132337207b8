//! Choices that wait, and the taking of their alternatives.
ghost use Rattle.std.specs.Prelude.{◌≡◌, suc, [], ◌∷◌, length, slice_get, IfOk, IfSome, OnOk};
ghost use Rattle.kb_ways.specs.Reached.{IsReached};
ghost use Rattle.kb_drive.specs.Following.{IsTakenFrom, IsTakenOf, has_more};
ghost use Rattle.kb_drive.specs.Walks.{CanBeTaken, EachWaiting};

use crate::NoMemory;
use crate::valued::Valued;
use kb_frames::Outcome;
use kb_heap::Bounds;
use kb_picture::Choice;
use kb_rows::Row;
use kb_world::World;
use std::alloc::Global;
use std::marker::Model;

/// A choice of a piece: all its alternatives, and the number of the next one that is taken.
#[derive(Drop)]
pub(crate) struct Waiting {
    pub(crate) piece: Valued,
    pub(crate) choices: Row<Choice>,
    pub(crate) next: u32,
}

/// An alternative that was taken: the piece behind it, with the values from before it, what became of its state, and how many
/// conditions stood before.
#[derive(Drop)]
pub(crate) struct Taken {
    pub(crate) piece: Valued,
    pub(crate) outcome: Outcome,
    pub(crate) stood: usize,
}

/// The choices that wait, one state for each. Contracts see the list of them from the last one on, which is the next to go on.
#[derive(Drop)]
pub(crate) struct WaitingChoices {
    choices: Vec<Waiting>,
}

impl Model for WaitingChoices {
    ghost use Rattle.std.specs.Prelude.{List, reverse};
    ghost use Rattle.kb_drive.specs.declared.waiting.Waiting.{Waiting as Item};

    ghost Value = { List Item };

    ghost view = { λ w. reverse w.choices.items };
}

impl WaitingChoices {
    pub(crate) fn new(alloc: Global) -> WaitingChoices
        ensures { result ≡ [] }
    {
        WaitingChoices {
            choices: Vec::new(alloc),
        }
    }

    pub(crate) fn push(&mut self, waiting: Waiting) -> Result<(), NoMemory>
        ensures { OnOk result (self.new ≡ waiting ∷ self.old) }
    {
        self.choices.push(waiting)?;
        Ok(())
    }

    /// Takes the next alternative of the last choice, which waits on where it has a further one. None where no choice waits.
    pub(crate) fn take_next(
        &mut self,
        alloc: Global,
        world: &World,
        bounds: &Bounds,
    ) -> Result<Option<Taken>, NoMemory>
        requires { EachWaiting (CanBeTaken world.now bounds.now) self.old }
        ensures taken { IfOk result (IsTakenFrom world.now bounds.now self.old self.new) }
        ensures reached { IfOk result (λ taken. IfSome taken (λ t. IsReached world.now t.piece.state)) }
    {
        let Some(last) = self.choices.pop() else {
            return Ok(None);
        };
        if last.has_more() {
            let taken = self.take_one(alloc, world, bounds, last)?;
            return Ok(Some(taken));
        }
        let taken = last.take_last(alloc, world, bounds)?;
        Ok(Some(taken))
    }

    // Takes the next alternative of a choice, which waits on.
    fn take_one(
        &mut self,
        alloc: Global,
        world: &World,
        bounds: &Bounds,
        choice: Waiting,
    ) -> Result<Taken, NoMemory>
        requires { CanBeTaken world.now bounds.now choice }
        ensures taken { IfOk result (IsTakenOf world.now bounds.now choice (slice_get choice.choices choice.next)) }
        ensures waits { OnOk result (self.new ≡ record choice { next = suc choice.next } ∷ self.old) }
        ensures reached { IfOk result (λ taken. IsReached world.now taken.piece.state) }
    {
        let taken = choice.take_copy(alloc, world, bounds)?;
        self.put_back(choice)?;
        Ok(taken)
    }

    // Puts a choice back, with one alternative fewer.
    fn put_back(&mut self, choice: Waiting) -> Result<(), NoMemory>
        ensures { OnOk result (self.new ≡ record choice { next = suc choice.next } ∷ self.old) }
    {
        let waiting = choice.behind_one()?;
        self.push(waiting)
    }
}

impl Waiting {
    // Whether others wait behind its next alternative.
    fn has_more(&self) -> bool
        ensures { result ≡ has_more self.now }
    {
        (self.next as usize) + 1 < self.choices.as_slice().len()
    }

    // The choice with one alternative fewer.
    fn behind_one(self) -> Result<Waiting, NoMemory>
        ensures { IfOk result (λ waiting. waiting ≡ record self { next = suc self.next }) }
    {
        let next = self.next.checked_add(1).ok_or(NoMemory)?;
        Ok(Waiting {
            piece: self.piece,
            choices: self.choices,
            next,
        })
    }

    // Takes the next alternative in a copy of the state: others wait for it.
    fn take_copy(&self, alloc: Global, world: &World, bounds: &Bounds) -> Result<Taken, NoMemory>
        requires { CanBeTaken world.now bounds.now self.now }
        ensures taken { IfOk result (IsTakenOf world.now bounds.now self.now (slice_get self.now.choices self.now.next)) }
        ensures reached { IfOk result (λ taken. IsReached world.now taken.piece.state) }
    {
        let piece = self.piece.copied(alloc)?;
        let choices = self.choices.as_slice();
        take_in(alloc, world, bounds, piece, choices, self.next)
    }

    // Takes the last alternative in the state itself.
    fn take_last(self, alloc: Global, world: &World, bounds: &Bounds) -> Result<Taken, NoMemory>
        requires { CanBeTaken world.now bounds.now self }
        ensures taken { IfOk result (IsTakenOf world.now bounds.now self (slice_get self.choices self.next)) }
        ensures reached { IfOk result (λ taken. IsReached world.now taken.piece.state) }
    {
        let piece = self.piece;
        let choices = self.choices;
        take_in(alloc, world, bounds, piece, choices.as_slice(), self.next)
    }
}

impl Taken {
    /// The same with these values.
    pub(crate) fn with_values(self, values: Row<i32>) -> Taken
        ensures { result ≡ record self { piece = record self.piece { values = values } } }
    {
        Taken {
            piece: self.piece.with_values(values),
            outcome: self.outcome,
            stood: self.stood,
        }
    }
}

// Takes the alternative of that number in the state of the piece. Where it is one of several, it is a decision.
fn take_in(
    alloc: Global,
    world: &World,
    bounds: &Bounds,
    piece: Valued,
    choices: &[Choice],
    next: u32,
) -> Result<Taken, NoMemory>
    requires { CanBeTaken world.now bounds.now (record { piece = piece; choices = choices.now; next = next }) }
    ensures taken { IfOk result (IsTakenOf world.now bounds.now (record { piece = piece; choices = choices.now; next = next }) (slice_get choices.now next)) }
    ensures reached { IfOk result (λ taken. IsReached world.now taken.piece.state) }
{
    let stood = piece.get().state.conditions().len();
    let (piece, outcome) = piece.gone_on(alloc, world, bounds, choices, next)?;
    Ok(Taken {
        piece,
        outcome,
        stood,
    })
}
