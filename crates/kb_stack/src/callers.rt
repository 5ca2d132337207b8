//! The frames of the callers.

ghost use Rattle.std.specs.Prelude.{◌≡◌, ◌∷◌, [], length, IfNone, IfSome, OnOk};

use crate::NoMemory;
use crate::frame::Frame;
use std::alloc::Global;
use std::marker::Model;

/// The frames of the callers. Contracts see the list of them from the nearest on.
#[derive(Drop)]
pub struct Callers {
    frames: Vec<Frame>,
}

impl Model for Callers {
    ghost use Rattle.std.specs.Prelude.{List, reverse};
    ghost use Rattle.kb_semantics.specs.Config.{Frame as PlainFrame};

    ghost Value = { List PlainFrame };

    ghost view = { λ c. reverse c.frames.items };
}

impl Callers {
    pub fn new(alloc: Global) -> Callers
        ensures { result ≡ [] }
    {
        Callers {
            frames: Vec::new(alloc),
        }
    }

    pub fn len(&self) -> usize
        ensures { result ≡ length self.now }
    {
        self.frames.len()
    }

    pub fn push(&mut self, frame: Frame) -> Result<(), NoMemory>
        ensures { OnOk result (self.new ≡ frame ∷ self.old) }
    {
        match self.frames.push(frame) {
            Ok(()) => Ok(()),
            Err(_) => Err(NoMemory),
        }
    }

    /// Takes off the nearest one.
    pub fn pop(&mut self) -> Option<Frame>
        ensures some { IfSome result (λ frame. self.old ≡ frame ∷ self.new) }
        ensures none { IfNone result (self.old ≡ []) }
    {
        self.frames.pop()
    }
}
