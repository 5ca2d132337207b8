//! What steps read of a state and write into it.
ghost use Rattle.std.specs.Prelude.{◌≡◌, ◌+◌, ◌<◌, ◌^◌, length, reverse, slice_get, take, IfOk, OnOk, OnErr};
ghost use Rattle.kb_terms.specs.Terms.{AreOperands, HasNode, Extends, made_node};
ghost use Rattle.kb_terms.specs.declared.node.Node.TheVariants.{Const};
ghost use Rattle.kb_frames.specs.Lent.{stack_of, local_in, transfers_of, pushed, popped, stored, moved, transferred, carried_on, placed, with_nodes};

use crate::NoMemory;
use crate::state::{Stage, SymState};
use crate::value::SymValue;
use kb_class::MethodId;
use kb_picture::{Init, Picture};
use kb_terms::{Op, Pool, TermId};

impl SymState {
    /// The method of whose run it is a state.
    pub fn method(&self) -> MethodId
        ensures { result ≡ self.now.method }
    {
        self.method
    }

    /// When it is chosen which object a reference is.
    pub fn init(&self) -> Init
        ensures { result ≡ self.now.init }
    {
        self.init
    }

    /// How many instructions were carried out.
    pub fn carried(&self) -> u32
        ensures { result ≡ self.now.carried }
    {
        self.carried
    }

    pub fn picture(&self) -> &Picture
        ensures { result.now ≡ self.now.picture }
    {
        self.picture.get()
    }

    pub fn pool(&self) -> &Pool
        ensures { result.now ≡ self.now.nodes }
    {
        &self.pool
    }

    /// How many values the operand stack of the current frame has.
    pub fn height(&self) -> usize
        ensures { result ≡ length (stack_of self.now.stage) }
    {
        match &self.stage {
            Stage::Begins(_) => 0,
            Stage::Runs(frame, _) => frame.stack.len(),
        }
    }

    /// The value so deep on the operand stack, the top being 0.
    pub fn value_at(&self, depth: usize) -> Option<SymValue>
        ensures { result ≡ slice_get (stack_of self.now.stage) depth }
    {
        match &self.stage {
            Stage::Begins(_) => None,
            Stage::Runs(frame, _) => frame.stack.get(depth).copied(),
        }
    }

    /// So many values from the top of the operand stack of the current frame, the lowest one first. All of them, where there are
    /// fewer.
    pub fn topmost(&self, count: usize) -> &[SymValue]
        ensures { result.now ≡ reverse (take count (stack_of self.now.stage)) }
    {
        match &self.stage {
            Stage::Begins(_) => &[],
            Stage::Runs(frame, _) => frame.stack.top(count),
        }
    }

    /// The value of a local of the current frame, if it was written.
    pub fn local(&self, number: u16) -> Option<SymValue>
        ensures { result ≡ local_in self.now.stage number }
    {
        match &self.stage {
            Stage::Begins(_) => None,
            Stage::Runs(frame, _) => *frame.locals.as_slice().get(number as usize)?,
        }
    }

    /// How often the current frame was transferred to an offset not above its own.
    pub fn transfers(&self) -> u32
        ensures { result ≡ transfers_of self.now.stage }
    {
        match &self.stage {
            Stage::Begins(_) => 0,
            Stage::Runs(frame, _) => frame.transfers,
        }
    }

    /// Pushes a value.
    pub fn push(&mut self, value: SymValue) -> Result<(), NoMemory>
        ensures ok { OnOk result (self.new ≡ pushed self.old value) }
        ensures err { OnErr result (self.new ≡ self.old) }
    {
        match &mut self.stage {
            Stage::Begins(_) => Ok(()),
            Stage::Runs(frame, _) => frame.stack.push(value),
        }
    }

    /// Takes so many values off the stack.
    pub fn pop(&mut self, count: usize)
        ensures { self.new ≡ popped self.old count }
    {
        match &mut self.stage {
            Stage::Begins(_) => {}
            Stage::Runs(frame, _) => frame.stack.pop(count),
        }
    }

    /// Writes a local of the current frame. A local that it does not have is left out.
    pub fn store(&mut self, number: u16, value: SymValue)
        ensures { self.new ≡ stored self.old number value }
    {
        match &mut self.stage {
            Stage::Begins(_) => {}
            Stage::Runs(frame, _) => frame.store(number as usize, value),
        }
    }

    /// Goes to the instruction at an offset.
    pub fn move_to(&mut self, at: u32)
        ensures { self.new ≡ moved self.old at }
    {
        match &mut self.stage {
            Stage::Begins(_) => {}
            Stage::Runs(frame, _) => frame.at = at,
        }
    }

    /// Counts a transfer to an offset not above one's own.
    pub fn count_transfer(&mut self)
        requires { transfers_of self.old.stage + 1 < 2 ^ 32 }
        ensures { self.new ≡ transferred self.old }
    {
        match &mut self.stage {
            Stage::Begins(_) => {}
            Stage::Runs(frame, _) => frame.transfers += 1,
        }
    }

    /// Counts an instruction that was carried out. What it has chosen is no longer so.
    pub fn count_instruction(&mut self)
        requires { self.old.carried + 1 < 2 ^ 32 }
        ensures { self.new ≡ carried_on self.old }
    {
        self.carried += 1;
        self.chosen = None;
    }

    /// The place that was chosen for the index of the present instruction.
    pub fn chosen(&self) -> Option<u32>
        ensures { result ≡ self.now.chosen }
    {
        self.chosen
    }

    /// Chooses a place for the index of the present instruction.
    pub fn choose_place(&mut self, place: u32)
        ensures { self.new ≡ placed place self.old }
    {
        self.chosen = Some(place);
    }

    /// The term that is this constant.
    pub fn constant(&mut self, value: i32) -> Result<TermId, NoMemory>
        ensures state { self.new ≡ with_nodes self.old self.new.nodes }
        ensures node { IfOk result (λ t. HasNode self.old.nodes self.new.nodes t (Const value)) }
        ensures extends { Extends self.old.nodes self.new.nodes }
        ensures err { OnErr result (self.new ≡ self.old) }
    {
        match self.pool.constant(value) {
            Ok(term) => Ok(term),
            Err(_) => Err(NoMemory),
        }
    }

    /// The term of an operation on terms, folded where its operands are constants.
    pub fn make(&mut self, op: Op, left: TermId, right: Option<TermId>) -> Result<TermId, NoMemory>
        requires { AreOperands self.old.nodes op left right }
        ensures state { self.new ≡ with_nodes self.old self.new.nodes }
        ensures node { IfOk result (λ t. HasNode self.old.nodes self.new.nodes t (made_node self.old.nodes op left right)) }
        ensures extends { Extends self.old.nodes self.new.nodes }
        ensures err { OnErr result (self.new ≡ self.old) }
    {
        match self.pool.make(op, left, right) {
            Ok(term) => Ok(term),
            Err(_) => Err(NoMemory),
        }
    }
}
