//! The terms of a path, and those that a walk from what it states has met.
ghost use Rattle.std.specs.Prelude.{◌≡◌, ◌<◌, ◌++◌, ◌∷◌, ◌==◌, ◌↔◌, [], IsTrue, not, length, reverse, slice_get, IfOk, OnOk};
ghost use Rattle.std.specs.List.{list_any};
ghost use Rattle.std.specs.Str.{bytes_eq};
ghost use Rattle.kb_blast.specs.Meaning.{IsComparison};
ghost use Rattle.kb_picture.specs.Numbering.{terms_of_operand};
ghost use Rattle.kb_report_known.specs.Walk.{may_be_next, has_operand, AreFormed, IsBefore, MeetsNext, Meets, no_terms, with_term, met_with, met_after, operand_tasks, second_tasks, tasks_left};
ghost use Rattle.kb_report_known.specs.declared.terms.Task.TheVariants.{Enter};

use crate::NoMemory;
use kb_terms::{Op, Operand, Term};
use kb_texts::Texts;
use std::alloc::Global;
use std::marker::Model;

/// The texts of the terms that are listed, so that none stands twice, and how many of them a walk has met: the first so many.
/// Contracts see both.
#[derive(Drop)]
pub struct Terms {
    texts: Texts,
    met: usize,
}

impl Model for Terms {
    ghost use Rattle.kb_report_known.specs.Walk.{Listed};

    ghost Value = { Listed };

    ghost view = { λ t. record { texts = t.texts; met = t.met } };
}

impl Terms {
    /// No terms.
    pub fn new(alloc: Global) -> Terms
        ensures { result ≡ no_terms }
    {
        Terms {
            texts: Texts::new(alloc),
            met: 0,
        }
    }

    /// Adds the text of a term; whether it was not there.
    pub fn add(&mut self, alloc: Global, text: &[u8]) -> Result<bool, NoMemory>
        ensures new { IfOk result (λ new. new ≡ not (list_any (bytes_eq text.now) self.old.texts)) }
        ensures listed { OnOk result (self.new ≡ with_term self.old text.now) }
    {
        if self.texts.has(text) {
            return Ok(false);
        }
        self.texts.place(alloc, text)?;
        Ok(true)
    }

    /// Whether a walk has met all of these terms.
    pub fn are_met(&self, terms: &[Term]) -> bool
        ensures { result ≡ (self.now.met == length terms.now) }
    {
        self.met == terms.len()
    }

    /// Goes on with the walk from that term; whether the terms that it meets and none met before are the next ones.
    pub fn meet(&mut self, alloc: Global, terms: &[Term], root: u32) -> Result<bool, NoMemory>
        ensures { AreFormed terms.now → root < length terms.now → IfOk result (Meets terms.now (root ∷ []) self.old self.new) }
    {
        match met_from(alloc, terms, self.met, root)? {
            Some(met) => {
                self.met = met;
                Ok(true)
            }
            None => Ok(false),
        }
    }

    /// The same of an operand, which may be a term.
    pub fn meet_operand(
        &mut self,
        alloc: Global,
        terms: &[Term],
        operand: Operand,
    ) -> Result<bool, NoMemory>
        ensures { AreFormed terms.now → IsBefore (length terms.now) operand → IfOk result (Meets terms.now (terms_of_operand operand) self.old self.new) }
    {
        match operand {
            Operand::Const(_) | Operand::Var(_) => Ok(true),
            Operand::Term(root) => self.meet(alloc, terms, root),
        }
    }
}

// What is left to do on a walk: to come to a term, or to meet it, its operands being met.
#[derive(Clone, Copy, PartialEq, Eq)]
enum Task {
    Enter(u32),
    Meet(u32),
}

// How many terms are met behind the walk from that term, where the first so many were before; None where they are not the next
// ones.
fn met_from(
    alloc: Global,
    terms: &[Term],
    before: usize,
    root: u32,
) -> Result<Option<usize>, NoMemory>
    ensures { AreFormed terms.now → root < length terms.now → IfOk result (MeetsNext terms.now before root) }
{
    let mut met = before;
    let mut tasks = Vec::new(alloc);
    tasks.push(Task::Enter(root))?;
    while let Some(task) = tasks.pop() {
        match perform(terms, met, task, &mut tasks)? {
            Some(next) => met = next,
            None => return Ok(None),
        }
    }
    Ok(Some(met))
}

// Does the task, and leaves others in its place; how many terms are met then, or None where the one that is met is not the next one.
fn perform(
    terms: &[Term],
    met: usize,
    task: Task,
    tasks: &mut Vec<Task>,
) -> Result<Option<usize>, NoMemory>
    ensures met { IfOk result (λ next. next ≡ met_after met task) }
    ensures tasks { OnOk result (reverse tasks.new.items ≡ tasks_left terms.now met task ++ reverse tasks.old.items) }
{
    match task {
        Task::Enter(term) => {
            enter(terms, met, term, tasks)?;
            Ok(Some(met))
        }
        Task::Meet(term) => Ok(next_met(met, term)),
    }
}

// How many terms are met with that one.
fn next_met(met: usize, term: u32) -> Option<usize>
    ensures { result ≡ met_with met term }
{
    if term as usize != met {
        return None;
    }
    Some(met + 1)
}

// Leaves the tasks of a term that is not met, those of its operands on top.
fn enter(terms: &[Term], met: usize, number: u32, tasks: &mut Vec<Task>) -> Result<(), NoMemory>
    ensures { OnOk result (reverse tasks.new.items ≡ tasks_left terms.now met (Enter number) ++ reverse tasks.old.items) }
{
    if (number as usize) < met {
        return Ok(());
    }
    tasks.push(Task::Meet(number))?;
    match terms.get(number as usize) {
        Some(term) => enter_operands(number, *term, tasks),
        None => Ok(()),
    }
}

fn enter_operands(number: u32, term: Term, tasks: &mut Vec<Task>) -> Result<(), NoMemory>
    ensures { OnOk result (reverse tasks.new.items ≡ operand_tasks number term.left ++ (second_tasks number term.right ++ reverse tasks.old.items)) }
{
    if let Some(right) = term.right {
        enter_operand(number, right, tasks)?;
    }
    enter_operand(number, term.left, tasks)
}

// Leaves the task of an operand that is a term before that one.
fn enter_operand(number: u32, operand: Operand, tasks: &mut Vec<Task>) -> Result<(), NoMemory>
    ensures { OnOk result (reverse tasks.new.items ≡ operand_tasks number operand ++ reverse tasks.old.items) }
{
    match operand {
        Operand::Const(_) | Operand::Var(_) => Ok(()),
        Operand::Term(below) => {
            if below < number {
                tasks.push(Task::Enter(below))?;
            }
            Ok(())
        }
    }
}

/// Whether the term may be the next one behind so many: it has as many operands as its operation, and they are there, of so many
/// variables and of the terms before it.
pub fn may_be_next(term: Term, terms: usize, variables: usize) -> bool
    ensures { result ≡ may_be_next term terms variables }
{
    if !has_operand(term.left, terms, variables) {
        return false;
    }
    match term.right {
        Some(right) => term.op.is_binary() && has_operand(right, terms, variables),
        None => !term.op.is_binary(),
    }
}

/// Whether the operand is an int, one of so many variables or one of so many terms.
pub fn has_operand(operand: Operand, terms: usize, variables: usize) -> bool
    ensures { result ≡ has_operand operand terms variables }
{
    match operand {
        Operand::Const(_) => true,
        Operand::Var(number) => (number as usize) < variables,
        Operand::Term(number) => (number as usize) < terms,
    }
}

/// Whether the term of that number is there and a comparison.
pub fn is_comparison(terms: &[Term], number: u32) -> bool
    ensures { IsTrue result ↔ IsComparison (slice_get terms.now number) }
{
    match terms.get(number as usize) {
        Some(term) => matches!(term.op, Op::Eq | Op::Lt | Op::Ult),
        None => false,
    }
}
