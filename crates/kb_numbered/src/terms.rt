//! The terms and the conditions of a path, by the numbers of its terms.
ghost use Rattle.std.specs.Prelude.{◌≡◌, [], ◌++◌, IfOk, OnOk};
ghost use Rattle.std.specs.List.{cons_option};
ghost use Rattle.kb_terms.specs.Terms.{node_at};
ghost use Rattle.kb_blast.specs.Query.{number_in, operand_of, operands_of, listed_from, listed, numbered_conditions};

use crate::NoMemory;
use kb_rows::Row;
use kb_terms::{Node, Numbering, Operand, Term, TermId};
use std::alloc::Global;

/// The numbered terms of the pool, listed.
#[tactic(auto, using(crate::proofs::PathSteps::push_option))]
pub(crate) fn listed(
    alloc: Global,
    nodes: &[Node],
    numbering: &Numbering,
) -> Result<Row<Term>, NoMemory>
    ensures { IfOk result (λ terms. terms ≡ listed nodes.now numbering.now numbering.now) }
{
    let mut terms = Row::new(alloc);
    let mut rest = numbering.terms();
    while let [term, others @ ..] = rest {
        add_listed(listed_term(nodes, numbering, *term), &mut terms)?;
        rest = others;
    }
    Ok(terms)
}

fn add_listed(term: Option<Term>, terms: &mut Row<Term>) -> Result<(), NoMemory>
    ensures { OnOk result (terms.new ≡ terms.old ++ cons_option term []) }
{
    match term {
        Some(term) => {
            terms.push(term)?;
            Ok(())
        }
        None => Ok(()),
    }
}

fn listed_term(nodes: &[Node], numbering: &Numbering, term: TermId) -> Option<Term>
    ensures { result ≡ listed_from nodes.now numbering.now (node_at nodes.now term) }
{
    match nodes.get(term.0 as usize) {
        Some(Node::Op(op, left, right)) => Some(Term {
            op: *op,
            left: operand_of(nodes, numbering, *left),
            right: operands_of(nodes, numbering, *right),
        }),
        Some(Node::Const(_)) | Some(Node::Var(..)) | None => None,
    }
}

/// A term of the pool as an operand.
pub(crate) fn operand_of(nodes: &[Node], numbering: &Numbering, term: TermId) -> Operand
    ensures { result ≡ operand_of nodes.now numbering.now term }
{
    match nodes.get(term.0 as usize) {
        Some(Node::Const(value)) => Operand::Const(*value),
        Some(Node::Var(number, _)) => Operand::Var(*number),
        Some(Node::Op(..)) => Operand::Term(number_in(numbering, term)),
        None => Operand::Const(0),
    }
}

fn operands_of(nodes: &[Node], numbering: &Numbering, term: Option<TermId>) -> Option<Operand>
    ensures { result ≡ operands_of nodes.now numbering.now term }
{
    match term {
        Some(term) => Some(operand_of(nodes, numbering, term)),
        None => None,
    }
}

fn number_in(numbering: &Numbering, term: TermId) -> u32
    ensures { result ≡ number_in numbering.now term }
{
    numbering.number_of(term).unwrap_or(0)
}

/// The conditions, each with the number of its term.
pub(crate) fn numbered_conditions(
    alloc: Global,
    numbering: &Numbering,
    when: &[(TermId, bool)],
) -> Result<Row<(u32, bool)>, NoMemory>
    ensures { IfOk result (λ conditions. conditions ≡ numbered_conditions numbering.now when.now) }
{
    let mut conditions = Row::new(alloc);
    for (term, truth) in when {
        conditions.push((number_in(numbering, *term), *truth))?;
    }
    Ok(conditions)
}
