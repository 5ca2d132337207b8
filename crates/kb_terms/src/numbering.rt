//! The numbering of terms in texts.
ghost use Rattle.std.specs.Prelude.{◌≡◌, ◌++◌, [], length, reverse, IfOk, OnOk};
ghost use Rattle.kb_terms.specs.Terms.{IsTerm, AreTerms, IsPool};
ghost use Rattle.kb_terms.specs.Numbering.{numbering, visit, place_of, IsNumbering};
ghost use Rattle.kb_terms.specs.declared.numbering.Task.TheVariants.{Enter};
ghost use Rattle.kb_terms.specs.Walk.{task_term, tasks_left, terms_after};

use crate::NoMemory;
use crate::node::{Node, TermId};
use crate::pool::{Pool, node_of};
use indexmap::IndexSet;
use std::alloc::Global;
use std::marker::Model;

/// The operations at and below some terms, each after its operands, the left one first, and only once (the postorder of
/// a depth-first search, Tarjan 1972). An operation's number is its place, from 0; constants and variables have none.
/// Contracts see the list of the terms.
#[derive(Drop)]
pub struct Numbering {
    terms: IndexSet<TermId>,
}

impl Model for Numbering {
    ghost use Rattle.std.specs.Prelude.{List, length, ◌≤◌, ◌^◌};
    ghost use Rattle.kb_terms.specs.declared.node.TermId.{TermId};

    ghost Value = { List TermId };

    ghost view = { λ n. n.terms.keys };

    ghost invariant = { λ n. length n.terms.keys ≤ 2 ^ 32 };
}

impl Numbering {
    /// The terms in the order of their numbers.
    pub fn terms(&self) -> &[TermId]
        ensures { result.now ≡ self.now }
    {
        self.terms.as_slice()
    }

    /// The number of a term, in constant time; `None` for a term that has none.
    pub fn number_of(&self, term: TermId) -> Option<u32>
        ensures { result ≡ place_of self.now term }
    {
        let place = self.terms.get_index_of(&term)?;
        Some(place as u32)
    }
}

// What is left to do on a walk: to come to a term, or to number it, its operands being done.
#[derive(Clone, Copy)]
enum Task {
    Enter(TermId),
    Emit(TermId),
}

impl Pool {
    /// The numbering of the operations at and below the roots, in time that is linear in their number and without
    /// recursion. Refused only where memory runs out.
    #[tactic(auto, unfolding(crate::specs::Numbering::numbering))]
    pub fn numbering(&self, alloc: Global, roots: &[TermId]) -> Result<Numbering, NoMemory>
        requires { AreTerms self.now roots.now }
        ensures order { IfOk result (λ n. n ≡ numbering self.now roots.now) }
        ensures numbered { IfOk result (IsNumbering self.now roots.now) }
    {
        let mut terms = IndexSet::new(alloc);
        let mut tasks = Vec::new(alloc);
        let nodes = self.nodes();
        for root in roots {
            walk(nodes, *root, &mut tasks, &mut terms)?;
        }
        if terms.len() > u32::MAX as usize {
            return Err(NoMemory);
        }
        Ok(Numbering { terms })
    }
}

// Adds the operations at and below a root that are not yet there.
fn walk(
    nodes: &[Node],
    root: TermId,
    tasks: &mut Vec<Task>,
    terms: &mut IndexSet<TermId>,
) -> Result<(), NoMemory>
    requires formed { IsPool nodes.now }
    requires root { IsTerm nodes.now root }
    requires idle { tasks.old.items ≡ [] }
    ensures terms { OnOk result (terms.new.keys ≡ visit (length nodes.now) nodes.now terms.old.keys root) }
    ensures idle { OnOk result (tasks.new.items ≡ []) }
{
    tasks.push(Task::Enter(root))?;
    while let Some(task) = tasks.pop() {
        perform(nodes, task, tasks, terms)?;
    }
    Ok(())
}

fn perform(
    nodes: &[Node],
    task: Task,
    tasks: &mut Vec<Task>,
    terms: &mut IndexSet<TermId>,
) -> Result<(), NoMemory>
    requires { IsTerm nodes.now (task_term task) }
    ensures terms { OnOk result (terms.new.keys ≡ terms_after terms.old.keys task) }
    ensures tasks { OnOk result (reverse tasks.new.items ≡ tasks_left nodes.now terms.old.keys task ++ reverse tasks.old.items) }
{
    match task {
        Task::Enter(term) => enter(nodes, term, tasks, terms),
        Task::Emit(term) => {
            terms.insert(term)?;
            Ok(())
        }
    }
}

// Leaves the tasks of a term that is not yet there, those of its operands on top.
fn enter(
    nodes: &[Node],
    term: TermId,
    tasks: &mut Vec<Task>,
    terms: &IndexSet<TermId>,
) -> Result<(), NoMemory>
    requires { IsTerm nodes.now term }
    ensures { OnOk result (reverse tasks.new.items ≡ tasks_left nodes.now terms.now.keys (Enter term) ++ reverse tasks.old.items) }
{
    if terms.contains(&term) {
        return Ok(());
    }
    match node_of(nodes, term) {
        Node::Const(_) | Node::Var(..) => Ok(()),
        Node::Op(_, left, None) => {
            tasks.push(Task::Emit(term))?;
            tasks.push(Task::Enter(left))?;
            Ok(())
        }
        Node::Op(_, left, Some(right)) => {
            tasks.push(Task::Emit(term))?;
            tasks.push(Task::Enter(right))?;
            tasks.push(Task::Enter(left))?;
            Ok(())
        }
    }
}
