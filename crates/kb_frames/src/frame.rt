//! The frames of a state (The Java Virtual Machine Specification, Java SE 8 Edition, section 2.6).
ghost use Rattle.std.specs.Prelude.{◌≡◌, slice_set, Some, IfOk};
ghost use Rattle.kb_frames.specs.Calls.{frame_told};

use crate::NoMemory;
use crate::value::SymValue;
use kb_class::MethodId;
use kb_pile::Pile;
use kb_rows::Row;
use std::alloc::Global;

/// A frame. A local that was never written is None. `transfers` counts the transfers of control to an offset not above one's
/// own. A caller's frame stands at its invoke.
#[derive(Drop)]
pub(crate) struct SymFrame {
    pub(crate) method: MethodId,
    /// The offset of the instruction.
    pub(crate) at: u32,
    pub(crate) locals: Row<Option<SymValue>>,
    pub(crate) stack: Pile<SymValue>,
    pub(crate) transfers: u32,
}

/// What is told of a frame: its method, the offset of its instruction, how many values its stack has, and how often it was
/// transferred to an offset not above its own.
#[derive(Clone, Copy)]
pub struct FrameAt {
    pub method: MethodId,
    pub at: u32,
    pub height: usize,
    pub transfers: u32,
}

impl SymFrame {
    pub(crate) fn told(&self) -> FrameAt
        ensures { result ≡ frame_told self.now }
    {
        FrameAt {
            method: self.method,
            at: self.at,
            height: self.stack.len(),
            transfers: self.transfers,
        }
    }

    pub(crate) fn copied(&self, alloc: Global) -> Result<SymFrame, NoMemory>
        ensures { IfOk result (λ copy. copy ≡ self.now) }
    {
        let locals = self.locals.as_slice().to_vec(alloc)?;
        let stack = Pile::from_vec(self.stack.as_slice().to_vec(alloc)?);
        Ok(SymFrame {
            method: self.method,
            at: self.at,
            locals: Row::from_vec(locals),
            stack,
            transfers: self.transfers,
        })
    }

    /// Writes a local. One that the frame does not have is left out.
    #[tactic(auto, using(std::proofs::lemmas::List::set_past))]
    pub(crate) fn store(&mut self, number: usize, value: SymValue)
        ensures { self.new ≡ record self.old { locals = slice_set self.old.locals number (Some value) } }
    {
        if number < self.locals.as_slice().len() {
            self.locals.set(number, Some(value));
        }
    }
}

/// A copy of callers' frames.
pub(crate) fn copied_callers(
    alloc: Global,
    callers: &Pile<SymFrame>,
) -> Result<Pile<SymFrame>, NoMemory>
    ensures { IfOk result (λ copy. copy ≡ callers.now) }
{
    let frames = copied_frames(alloc, callers.as_slice())?;
    Ok(Pile::from_vec(frames.into_vec()))
}

fn copied_frames(alloc: Global, frames: &[SymFrame]) -> Result<Row<SymFrame>, NoMemory>
    ensures { IfOk result (λ copy. copy ≡ frames.now) }
{
    let mut copy = Row::new(alloc);
    for frame in frames {
        copy.push(frame.copied(alloc)?)?;
    }
    Ok(copy)
}
