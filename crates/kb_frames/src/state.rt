//! Symbolic states.
ghost use Rattle.std.specs.Prelude.{◌≡◌, IfOk};
ghost use Rattle.kb_heap.specs.declared.heap.Input.{Input as PlainInput};
ghost use Rattle.kb_heap.specs.declared.bounds.RunBounds.{RunBounds};
ghost use Rattle.kb_semantics.specs.Inputs.{IsTypeCorrect};
ghost use Rattle.kb_semantics.specs.Step.{start_of};
ghost use Rattle.kb_frames.specs.State.{start_state};
ghost use Rattle.kb_frames.specs.StandsFor.{StandsFor};

use crate::NoMemory;
use crate::frame::{SymFrame, copied_callers};
use crate::value::{Cell, SymValue};
use kb_class::MethodId;
use kb_names::ExactType;
use kb_numbered::Conditions;
use kb_picture::{GrowingPicture, Init};
use kb_pile::Pile;
use kb_rows::{Held, Row};
use kb_semantics::World;
use kb_terms::Pool;
use std::alloc::Global;
use std::marker::Model;

/// An object that the run has made, with the present values of its slots or elements.
#[derive(Drop)]
pub struct SymObject {
    pub kind: ExactType,
    pub values: Row<SymValue>,
}

impl SymObject {
    fn copied(&self, alloc: Global) -> Result<SymObject, NoMemory>
        ensures { IfOk result (λ copy. copy ≡ self.now) }
    {
        let kind = self.kind.copied(alloc)?;
        let values = self.values.as_slice().to_vec(alloc)?;
        Ok(SymObject {
            kind,
            values: Row::from_vec(values),
        })
    }
}

fn copied_objects(alloc: Global, objects: &[SymObject]) -> Result<Row<SymObject>, NoMemory>
    ensures { IfOk result (λ copy. copy ≡ objects.now) }
{
    let mut copy = Row::new(alloc);
    for object in objects {
        copy.push(object.copied(alloc)?)?;
    }
    Ok(copy)
}

fn copied_cells(alloc: Global, cells: &[Row<Cell>]) -> Result<Row<Row<Cell>>, NoMemory>
    ensures { IfOk result (λ copy. copy ≡ cells.now) }
{
    let mut copy = Row::new(alloc);
    for slots in cells {
        let slots = slots.as_slice().to_vec(alloc)?;
        copy.push(Row::from_vec(slots))?;
    }
    Ok(copy)
}

/// How far a run is.
#[derive(Drop)]
pub(crate) enum Stage {
    /// It reads its arguments, in order: those that were read.
    Begins(Row<SymValue>),
    /// It has a current frame, and those of its callers.
    Runs(SymFrame, Pile<SymFrame>),
}

impl Stage {
    fn copied(&self, alloc: Global) -> Result<Stage, NoMemory>
        ensures { IfOk result (λ copy. copy ≡ self.now) }
    {
        match self {
            Stage::Begins(read) => Ok(Stage::Begins(Row::from_vec(read.as_slice().to_vec(alloc)?))),
            Stage::Runs(frame, callers) => {
                Ok(Stage::Runs(frame.copied(alloc)?, copied_callers(alloc, callers)?))
            }
        }
    }
}

/// What a state keeps of heaps.
#[derive(Drop)]
struct HeapParts {
    cells: Row<Row<Cell>>,
    made: Row<SymObject>,
    picture: GrowingPicture,
}

/// What a state keeps of terms and of their truths.
#[derive(Drop)]
struct TruthParts {
    when: Conditions,
    nodes: Pool,
}

/// A state of the runs of a method over all inputs of a path at once.
#[derive(Drop)]
pub struct SymState {
    pub(crate) alloc: Global,
    pub(crate) init: Init,
    pub(crate) method: MethodId,
    pub(crate) stage: Stage,
    /// How many instructions were carried out.
    pub(crate) carried: u32,
    pub(crate) picture: GrowingPicture,
    /// Of each object of the picture what its slots or elements hold.
    pub(crate) cells: Row<Row<Cell>>,
    /// The objects that the run has made.
    pub(crate) made: Row<SymObject>,
    pub(crate) pool: Pool,
    /// The conditions, in the order in which they were met.
    pub(crate) when: Conditions,
    /// The place of an array that was chosen for the index of the present instruction.
    pub(crate) chosen: Option<u32>,
}

impl Model for SymState {
    ghost use Rattle.kb_frames.specs.State.{State};

    ghost Value = { State };

    ghost view = { λ s. record { init = s.init; method = s.method; stage = s.stage; carried = s.carried; picture = s.picture; cells = s.cells; made = s.made; nodes = s.pool; when = s.when; chosen = s.chosen } };
}

/// The state before the arguments are read: it stands for the beginning of each run of the method. Nothing is read of the
/// world.
pub fn start(
    alloc: Global,
    _world: &World,
    target: MethodId,
    init: Init,
) -> Result<SymState, NoMemory>
    ensures state { IfOk result (λ s. s ≡ start_state init target) }
    ensures stands { IfOk result (λ s. (bounds : RunBounds) (input : PlainInput) → IsTypeCorrect _world.now target input → StandsFor (record { world = _world.now; bounds = bounds }) s input (start_of _world.now target input)) }
{
    Ok(first_state(alloc, target, init))
}

fn first_state(alloc: Global, method: MethodId, init: Init) -> SymState
    ensures { result ≡ start_state init method }
{
    SymState {
        alloc,
        init,
        method,
        stage: Stage::Begins(Row::new(alloc)),
        carried: 0,
        picture: GrowingPicture::new(alloc),
        cells: Row::new(alloc),
        made: Row::new(alloc),
        pool: Pool::new(alloc),
        when: Conditions::new(alloc),
        chosen: None,
    }
}

impl SymState {
    /// Another state that equals this one.
    pub fn copy(&self) -> Result<SymState, NoMemory>
        ensures { IfOk result (λ copy. copy ≡ self.now) }
    {
        let heaps = self.copied_heaps()?;
        let truths = self.copied_truths()?;
        let stage = self.stage.copied(self.alloc)?;
        Ok(self.with_parts(stage, heaps.into_inner(), truths.into_inner()))
    }

    fn copied_heaps(&self) -> Result<Held<HeapParts>, NoMemory>
        ensures { IfOk result (λ parts. parts ≡ record { cells = self.now.cells; made = self.now.made; picture = self.now.picture }) }
    {
        let alloc = self.alloc;
        let cells = copied_cells(alloc, self.cells.as_slice())?;
        let made = copied_objects(alloc, self.made.as_slice())?;
        let picture = self.picture.copied(alloc)?;
        Held::new(
            alloc,
            HeapParts {
                cells,
                made,
                picture,
            },
        )
    }

    fn copied_truths(&self) -> Result<Held<TruthParts>, NoMemory>
        ensures { IfOk result (λ parts. parts ≡ record { when = self.now.when; nodes = self.now.nodes }) }
    {
        let when = self.when.copied(self.alloc)?;
        let nodes = self.pool.copy()?;
        Held::new(self.alloc, TruthParts { when, nodes })
    }

    // The state with these parts in the place of its own.
    fn with_parts(&self, stage: Stage, heaps: HeapParts, truths: TruthParts) -> SymState
        ensures { result ≡ record self.now { stage = stage; picture = heaps.picture; cells = heaps.cells; made = heaps.made; nodes = truths.nodes; when = truths.when } }
    {
        SymState {
            alloc: self.alloc,
            init: self.init,
            method: self.method,
            stage,
            carried: self.carried,
            picture: heaps.picture,
            cells: heaps.cells,
            made: heaps.made,
            pool: truths.nodes,
            when: truths.when,
            chosen: self.chosen,
        }
    }
}
