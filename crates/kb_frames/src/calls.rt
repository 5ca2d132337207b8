//! How frames come and go: a method is called with what lies on the stack, and frames are left again, by a return or a throw.
ghost use Rattle.std.specs.Prelude.{◌≡◌, drop, length, option_map, reverse, slice_get, take, OnOk};
ghost use Rattle.kb_frames.specs.Calls.{called, frame_told, frames_of, landed, left};
ghost use Rattle.kb_frames.specs.Lent.{callers_of, stack_of};

use crate::NoMemory;
use crate::beginning::begun_frame;
use crate::frame::FrameAt;
use crate::state::{Stage, SymState};
use crate::value::SymValue;
use kb_class::MethodId;
use kb_semantics::World;
use std::mem;

impl SymState {
    /// How many callers the current frame has.
    pub fn callers(&self) -> usize
        ensures { result ≡ length (callers_of self.now.stage) }
    {
        match &self.stage {
            Stage::Begins(_) => 0,
            Stage::Runs(_, callers) => callers.len(),
        }
    }

    /// What is told of the frame so deep, the current one being 0 and the nearest caller's 1; None where there is none. It takes
    /// constant time.
    pub fn frame_at(&self, depth: usize) -> Option<FrameAt>
        ensures { result ≡ option_map frame_told (slice_get (frames_of self.now.stage) depth) }
    {
        let Stage::Runs(frame, callers) = &self.stage else {
            return None;
        };
        if depth == 0 {
            return Some(frame.told());
        }
        match callers.get(depth - 1) {
            Some(caller) => Some(caller.told()),
            None => None,
        }
    }

    /// Calls a method with so many values from the top of the stack, the last argument being on the top. Its frame is the current
    /// one then; the frame that calls it stays where it stands, without these values. It takes time in proportion to the
    /// arguments and the locals of the new frame, and no frame is copied. After memory ran out the state is only dropped.
    pub fn call(&mut self, world: &World, method: MethodId, count: usize) -> Result<(), NoMemory>
        ensures { OnOk result (self.new ≡ called world.now method (reverse (take count (stack_of self.old.stage))) (drop count (stack_of self.old.stage)) self.old) }
    {
        let alloc = self.alloc;
        if let Stage::Runs(frame, callers) = &mut self.stage {
            let begun = begun_frame(alloc, world, method, frame.stack.top(count))?;
            frame.stack.pop(count);
            callers.push(mem::replace(frame, begun))?;
        }
        Ok(())
    }

    /// Leaves so many frames for that of the next caller. Where there are not so many callers, all stay. It takes time in
    /// proportion to the frames that are left.
    #[tactic(auto, using(crate::proofs::FrameLaws::past_first))]
    pub fn leave(&mut self, count: usize)
        ensures { self.new ≡ left count self.old }
    {
        if let Stage::Runs(frame, callers) = &mut self.stage {
            if count == 0 {
                return;
            }
            if let Some(caller) = callers.pop_past(count - 1) {
                *frame = caller;
            }
        }
    }

    /// Leaves so many frames, and the next one has nothing but the value on its stack, and counts so many transfers to an offset
    /// not above one's own. It takes time in proportion to the frames that are left. After memory ran out the state is only
    /// dropped.
    pub fn land(&mut self, count: usize, value: SymValue, transfers: u32) -> Result<(), NoMemory>
        ensures { OnOk result (self.new ≡ landed count value transfers self.old) }
    {
        self.leave(count);
        match &mut self.stage {
            Stage::Begins(_) => Ok(()),
            Stage::Runs(frame, _) => {
                frame.transfers = transfers;
                frame.stack.hold(value)
            }
        }
    }
}
