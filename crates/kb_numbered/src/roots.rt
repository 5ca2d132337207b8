//! From what the walk begins that numbers the terms of a path.
ghost use Rattle.std.specs.Prelude.{◌≡◌, ◌++◌, map, IfOk, OnOk};
ghost use Rattle.std.specs.List.{flat_map};
ghost use Rattle.kb_picture.specs.declared.path.Write.{Write as PlainWrite};
ghost use Rattle.kb_picture.specs.declared.path.Made.{Made as PlainMade};
ghost use Rattle.kb_picture.specs.Numbering.{ending_outs, ended_outs, leaf_outs, terms_of_out};
ghost use Rattle.kb_numbered.specs.Numbered.{term_id, terms_stated, walk_roots};

use crate::NoMemory;
use kb_picture::{Ended, Leaf, Made, Out, SymEnding, Write};
use kb_terms::{Operand, TermId};
use std::alloc::Global;

/// The terms of the conditions, and those that the leaf states.
pub(crate) fn walk_roots(
    alloc: Global,
    when: &[(TermId, bool)],
    leaf: &Leaf,
) -> Result<Vec<TermId>, NoMemory>
    ensures { IfOk result (λ roots. roots.items ≡ walk_roots when.now leaf.now) }
{
    let mut roots = condition_roots(alloc, when)?;
    let values = leaf_outs(alloc, leaf)?;
    add_terms(&values, &mut roots)?;
    Ok(roots)
}

fn condition_roots(alloc: Global, when: &[(TermId, bool)]) -> Result<Vec<TermId>, NoMemory>
    ensures { IfOk result (λ roots. roots.items ≡ map (λ condition. condition.0) when.now) }
{
    let mut roots = Vec::with_capacity(alloc, when.len())?;
    for (term, _) in when {
        roots.push(*term)?;
    }
    Ok(roots)
}

// The values that a leaf states, in order.
fn leaf_outs(alloc: Global, leaf: &Leaf) -> Result<Vec<Out>, NoMemory>
    ensures { IfOk result (λ values. values.items ≡ leaf_outs leaf.now) }
{
    match leaf {
        Leaf::Ended(ended) => ended_outs(alloc, ended),
        Leaf::Cut(..) | Leaf::Undecided(_) | Leaf::Open => Ok(Vec::new(alloc)),
    }
}

fn ended_outs(alloc: Global, ended: &Ended) -> Result<Vec<Out>, NoMemory>
    ensures { IfOk result (λ values. values.items ≡ ended_outs ended.now) }
{
    let mut values = Vec::new(alloc);
    add_ending(&ended.ending, &mut values)?;
    add_writes(ended.writes.as_slice(), &mut values)?;
    add_made(ended.made.as_slice(), &mut values)?;
    Ok(values)
}

fn add_ending(ending: &SymEnding, values: &mut Vec<Out>) -> Result<(), NoMemory>
    ensures { OnOk result (values.new.items ≡ values.old.items ++ ending_outs ending.now) }
{
    match ending {
        SymEnding::Returned(Some(value)) | SymEnding::Threw(value) => {
            values.push(*value)?;
            Ok(())
        }
        SymEnding::Returned(None) | SymEnding::IllTyped(_) => Ok(()),
    }
}

fn add_writes(writes: &[Write], values: &mut Vec<Out>) -> Result<(), NoMemory>
    ensures { OnOk result (values.new.items ≡ values.old.items ++ map (λ (write : PlainWrite). write.value) writes.now) }
{
    let mut rest = writes;
    while let [write, others @ ..] = rest {
        values.push(write.value)?;
        rest = others;
    }
    Ok(())
}

fn add_made(made: &[Made], values: &mut Vec<Out>) -> Result<(), NoMemory>
    ensures { OnOk result (values.new.items ≡ values.old.items ++ flat_map (λ (object : PlainMade). object.values) made.now) }
{
    let mut rest = made;
    while let [object, others @ ..] = rest {
        values.extend_from_slice(object.values.as_slice())?;
        rest = others;
    }
    Ok(())
}

// Adds the terms of the pool that the values state.
#[tactic(auto, using(crate::proofs::PathSteps::next_stated))]
fn add_terms(values: &[Out], roots: &mut Vec<TermId>) -> Result<(), NoMemory>
    ensures { OnOk result (roots.new.items ≡ roots.old.items ++ terms_stated values.now) }
{
    let mut rest = values;
    while let [value, others @ ..] = rest {
        add_term(*value, roots)?;
        rest = others;
    }
    Ok(())
}

fn add_term(value: Out, roots: &mut Vec<TermId>) -> Result<(), NoMemory>
    ensures { OnOk result (roots.new.items ≡ roots.old.items ++ map term_id (terms_of_out value)) }
{
    match value {
        Out::Int(Operand::Term(number)) => {
            roots.push(TermId(number))?;
            Ok(())
        }
        Out::Int(Operand::Const(_)) | Out::Int(Operand::Var(_)) => Ok(()),
        Out::Null | Out::Loc(_) | Out::Obj(_) | Out::Literal(_) | Out::New(_) => Ok(()),
    }
}
