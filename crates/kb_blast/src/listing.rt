//! Terms of a pool in a plain list, with the variables that occur in them.
ghost use Rattle.std.specs.Prelude.{◌≡◌, ◌≤◌, length, true, IfOk, OnOk};
ghost use Rattle.std.specs.List.{list_all};
ghost use Rattle.std.specs.Option.{ForSome};
ghost use Rattle.kb_terms.specs.Terms.{IsTerm, node_at};
ghost use Rattle.kb_blast.specs.Query.{number_in, operand_of, operands_of, listed, kinds_of, node_passes, is_any};
ghost use Rattle.kb_blast.specs.Conditions.{occurring, with_kinds};
ghost use Rattle.kb_blast.specs.Listing.{noted, noted_all};

use crate::NoMemory;
use kb_terms::{Node, Numbering, Operand, Pool, Term, TermId, VarKind};
use std::alloc::Global;
use std::collections::BTreeMap;

/// The numbered terms, and the kinds of the variables that occur in them.
#[derive(Drop)]
pub(crate) struct Listing {
    pub(crate) terms: Vec<Term>,
    pub(crate) kinds: BTreeMap<u32, VarKind>,
}

/// Lists the numbered terms, without a look at any other term.
pub(crate) fn listed(alloc: Global, pool: &Pool, numbering: &Numbering) -> Result<Listing, NoMemory>
    requires { list_all (λ t. node_passes is_any (node_at pool.now t)) numbering.now ≡ true }
    ensures terms { IfOk result (λ l. l.terms.items ≡ listed pool.now numbering.now numbering.now) }
    ensures kinds { IfOk result (λ l. l.kinds.entries ≡ with_kinds (kinds_of pool.now) (occurring l.terms.items)) }
{
    let mut terms = Vec::with_capacity(alloc, numbering.terms().len())?;
    let mut kinds = BTreeMap::new(alloc);
    let mut rest = numbering.terms();
    while let [term, others @ ..] = rest {
        if let Node::Op(op, left, right) = pool.node(*term) {
            let left = operand(pool, numbering, left, &mut kinds)?;
            let right = second(pool, numbering, right, &mut kinds)?;
            terms.push(Term { op, left, right })?;
        }
        rest = others;
    }
    Ok(Listing { terms, kinds })
}

/// A term as an operand; the kind of one that is a variable is noted.
fn operand(
    pool: &Pool,
    numbering: &Numbering,
    term: TermId,
    kinds: &mut BTreeMap<u32, VarKind>,
) -> Result<Operand, NoMemory>
    requires { IsTerm pool.now term }
    ensures operand { IfOk result (λ operand. operand ≡ operand_of pool.now numbering.now term) }
    ensures kinds { OnOk result (kinds.new.entries ≡ noted kinds.old.entries (node_at pool.now term)) }
{
    match pool.node(term) {
        Node::Const(value) => Ok(Operand::Const(value)),
        Node::Var(number, kind) => {
            kinds.insert(number, kind)?;
            Ok(Operand::Var(number))
        }
        Node::Op(..) => Ok(Operand::Term(number_in(numbering, term))),
    }
}

fn second(
    pool: &Pool,
    numbering: &Numbering,
    term: Option<TermId>,
    kinds: &mut BTreeMap<u32, VarKind>,
) -> Result<Option<Operand>, NoMemory>
    requires { ForSome term (IsTerm pool.now) }
    ensures operand { IfOk result (λ operand. operand ≡ operands_of pool.now numbering.now term) }
    ensures kinds { OnOk result (kinds.new.entries ≡ noted_all pool.now kinds.old.entries term) }
{
    match term {
        Some(term) => Ok(Some(operand(pool, numbering, term, kinds)?)),
        None => Ok(None),
    }
}

/// The number of a term.
pub(crate) fn number_in(numbering: &Numbering, term: TermId) -> u32
    ensures { result ≡ number_in numbering.now term }
{
    numbering.number_of(term).unwrap_or(0)
}
