//! The locals of a frame (JVMS 8 section 2.6.1).

ghost use Rattle.std.specs.Prelude.{◌≡◌, ◌-◌, ◌++◌, length, map, replicate, slice_get, slice_set, Some, None, OnOk, IfOk};
ghost use Rattle.std.specs.Option.{option_and_then};
ghost use Rattle.kb_semantics.specs.Config.{first_locals};

use crate::NoMemory;
use kb_heap::Value;
use std::alloc::Global;
use std::marker::Model;

/// Locals, which are kept up to the highest that was written. Contracts see all of them: None where one was never written.
#[derive(Drop)]
pub(crate) struct Locals {
    written: Vec<Option<Value>>,
    count: usize,
}

impl Model for Locals {
    ghost use Rattle.std.specs.Prelude.{List, Option};
    ghost use Rattle.kb_heap.specs.declared.heap.Value.{Value as Item};

    ghost Value = { List (Option Item) };

    ghost use Rattle.kb_stack.specs.Unwritten.{with_unwritten};

    ghost view = { λ l. with_unwritten l.count l.written.items };
}

impl Locals {
    /// Those of a frame that begins with these arguments, of which all are kept.
    #[tactic(auto, using(crate::proofs::LocalLaws::same_first))]
    pub(crate) fn begin(alloc: Global, args: &[Value], count: usize) -> Result<Locals, NoMemory>
        ensures { IfOk result (λ locals. locals ≡ first_locals args.now count) }
    {
        let written = arguments(alloc, args)?;
        Ok(Locals { written, count })
    }

    /// The value of a local, if it was written.
    #[tactic(auto, using(crate::proofs::LocalLaws::same_read))]
    pub(crate) fn get(&self, local: usize) -> Option<Value>
        ensures { result ≡ option_and_then (λ v. v) (slice_get self.now local) }
    {
        match self.written.get(local) {
            Some(value) => *value,
            None => None,
        }
    }

    /// Writes a local, where there is one.
    #[tactic(auto, using(crate::proofs::LocalLaws::written_there, crate::proofs::LocalLaws::same_write, crate::proofs::LocalLaws::unwritten_past))]
    pub(crate) fn set(&mut self, local: usize, value: Value) -> Result<(), NoMemory>
        ensures { OnOk result (self.new ≡ slice_set self.old local (Some value)) }
    {
        if local < self.written.len() {
            self.written[local] = Some(value);
            return Ok(());
        }
        if local >= self.count {
            return Ok(());
        }
        grow_to(&mut self.written, local + 1)?;
        self.written[local] = Some(value);
        Ok(())
    }
}

// Adds locals that were never written, up to that many.
fn grow_to(locals: &mut Vec<Option<Value>>, count: usize) -> Result<(), NoMemory>
    ensures { OnOk result (locals.new.items ≡ locals.old.items ++ replicate (count - length locals.old.items) None) }
{
    if locals.len() < count {
        locals.resize(count, None)?;
    }
    Ok(())
}

// The locals that the arguments are.
fn arguments(alloc: Global, args: &[Value]) -> Result<Vec<Option<Value>>, NoMemory>
    ensures { IfOk result (λ locals. locals.items ≡ map (λ v. Some v) args.now) }
{
    let mut locals = Vec::new(alloc);
    for value in args {
        locals.push(Some(*value))?;
    }
    Ok(locals)
}
