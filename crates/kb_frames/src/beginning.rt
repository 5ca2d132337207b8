//! How a run begins: its arguments are read, and it has its first frame.
ghost use Rattle.std.specs.Prelude.{◌≡◌, ◌++◌, map, replicate, Some, IfOk, OnOk};
ghost use Rattle.kb_frames.specs.Lent.{begun, begun_frame, begun_locals, read_count};

use crate::NoMemory;
use crate::first_reads::numbered;
use crate::frame::SymFrame;
use crate::state::{Stage, SymState};
use crate::value::SymValue;
use kb_class::MethodId;
use kb_lookups::max_locals;
use kb_pile::Pile;
use kb_rows::Row;
use kb_semantics::World;
use std::alloc::Global;

impl SymState {
    /// How many arguments were read, while they are: the number of the next one.
    pub fn read_count(&self) -> Result<u32, NoMemory>
        ensures { IfOk result (λ count. count ≡ read_count self.now.stage) }
    {
        match &self.stage {
            Stage::Begins(read) => numbered(read.as_slice().len()),
            Stage::Runs(..) => Ok(0),
        }
    }

    /// Begins the run, its arguments being read. After memory ran out the state is only dropped.
    pub fn begin(&mut self, world: &World) -> Result<(), NoMemory>
        ensures { OnOk result (self.new ≡ begun world.now self.old) }
    {
        let alloc = self.alloc;
        if let Stage::Begins(read) = &self.stage {
            let frame = begun_frame(alloc, world, self.method, read.as_slice())?;
            self.stage = Stage::Runs(frame, Pile::new(alloc));
        }
        Ok(())
    }
}

/// The frame of a method that begins with these arguments.
pub(crate) fn begun_frame(
    alloc: Global,
    world: &World,
    method: MethodId,
    arguments: &[SymValue],
) -> Result<SymFrame, NoMemory>
    ensures { IfOk result (λ frame. frame ≡ begun_frame world.now method arguments.now) }
{
    let limit = usize::from(max_locals(world, method));
    let locals = begun_locals(alloc, arguments, limit)?;
    Ok(SymFrame {
        method,
        at: 0,
        locals,
        stack: Pile::new(alloc),
        transfers: 0,
    })
}

// The locals of a frame that begins with these arguments, the others not written.
fn begun_locals(
    alloc: Global,
    read: &[SymValue],
    limit: usize,
) -> Result<Row<Option<SymValue>>, NoMemory>
    ensures { IfOk result (λ locals. locals ≡ begun_locals read.now limit) }
{
    let mut locals = written_locals(alloc, read)?;
    add_equal(limit.saturating_sub(read.len()), None, &mut locals)?;
    Ok(locals)
}

fn written_locals(alloc: Global, read: &[SymValue]) -> Result<Row<Option<SymValue>>, NoMemory>
    ensures { IfOk result (λ locals. locals ≡ map (λ value. Some value) read.now) }
{
    let mut locals = Row::new(alloc);
    for value in read {
        locals.push(Some(*value))?;
    }
    Ok(locals)
}

/// Adds so many equal items.
#[tactic(auto, using(crate::proofs::BeginLaws::one_more))]
pub(crate) fn add_equal<T: Copy + Drop>(
    count: usize,
    item: T,
    items: &mut Row<T>,
) -> Result<(), NoMemory>
    ensures { OnOk result (items.new ≡ items.old ++ replicate count item) }
{
    for place in 0..count {
        let _ = place;
        items.push(item)?;
    }
    Ok(())
}
