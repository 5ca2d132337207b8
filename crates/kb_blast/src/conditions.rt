//! Conditions as a formula.
ghost use Rattle.std.specs.Prelude.{◌≡◌, ◌≤◌, ◌↔◌, ℤ, List, [], length, map, IfOk, OnOk};
ghost use Rattle.kb_chain.specs.Literal.{Literal};
ghost use Rattle.kb_chain.specs.Cnf.{Cnf, AllWithin};
ghost use Rattle.kb_terms.specs.Terms.{variables_of};
ghost use Rattle.kb_blast.specs.Query.{Query, AreConditions, query_of, numbered_conditions, roots_of};
ghost use Rattle.kb_blast.specs.Conditions.{occurring_kinds, blasted, formula_of, words_of, condition_literal, term_words, with_conditions};
ghost use Rattle.kb_blast.specs.Meaning.{IsRising, SaysExactly, Meets, MeetsInPool, AreReadable};
ghost use Rattle.kb_blast.specs.Listing.{numbers_of, literals_of};

use crate::NoMemory;
use crate::listing::{Listing, listed, number_in};
use crate::terms::{term_word, term_words};
use crate::variables::variable_words;
use kb_chain::{Formula, Lit, Row};
use kb_circuit::Builder;
use kb_terms::{Numbering, Pool, TermId};
use std::alloc::Global;
use std::collections::BTreeMap;

/// A formula, and the literals of the program variables that occur in its conditions, by rising number.
#[derive(Drop)]
pub struct Blasted {
    pub formula: Formula,
    pub vars: Row<(u32, [Lit; 32])>,
}

/// The formula of conditions on comparisons, each a term with its stated truth. The terms below may have every
/// operation. It looks at no term of the pool but those at and below the conditions' terms. Refused where memory runs out, and
/// where the formula would need more than 2^31 - 1 variables.
pub fn blast(alloc: Global, pool: &Pool, when: &[(TermId, bool)]) -> Result<Blasted, NoMemory>
    requires { AreConditions pool.now when.now }
    ensures formula { IfOk result (λ b. b.formula ≡ formula_of (query_of pool.now when.now)) }
    ensures vars { IfOk result (λ b. b.vars ≡ words_of (query_of pool.now when.now)) }
    ensures law { IfOk result (λ b. SaysExactly b.vars b.formula (MeetsInPool pool.now when.now)) }
    ensures listed { IfOk result (λ _. (inputs : List ℤ) → MeetsInPool pool.now when.now inputs ↔ Meets (query_of pool.now when.now) inputs) }
    ensures readable { IfOk result (λ b. AreReadable b.formula.vars (variables_of pool.now) b.vars) }
{
    let roots = roots_of(alloc, when)?;
    let numbering = pool.numbering(alloc, &roots)?;
    // Its contract says that the pool is formed.
    let _nodes = pool.nodes();
    let listing = listed(alloc, pool, &numbering)?;
    let blasted = built(alloc, &listing, &numbering, when)?;
    Ok(blasted)
}

/// The formula of conditions on listed terms.
fn built(
    alloc: Global,
    listing: &Listing,
    numbering: &Numbering,
    when: &[(TermId, bool)],
) -> Result<Blasted, NoMemory>
    requires { IsRising (numbers_of listing.now.kinds.entries) }
    ensures { IfOk result (λ b. (query : Query) → listing.now.kinds.entries ≡ occurring_kinds query → listing.now.terms.items ≡ query.terms
        → numbered_conditions numbering.now when.now ≡ query.conditions → (b.vars, b.formula) ≡ blasted query) }
{
    let mut builder = Builder::new(alloc)?;
    let words = variable_words(alloc, &mut builder, &listing.kinds)?;
    add_circuits(alloc, &mut builder, &words, listing, numbering, when)?;
    let vars = row_of(alloc, &words)?;
    Ok(Blasted {
        formula: builder.finish(),
        vars,
    })
}

/// Adds the circuits of listed terms, and the clauses of conditions on them.
fn add_circuits(
    alloc: Global,
    builder: &mut Builder,
    vars: &BTreeMap<u32, [Lit; 32]>,
    listing: &Listing,
    numbering: &Numbering,
    when: &[(TermId, bool)],
) -> Result<(), NoMemory>
    requires { AllWithin builder.old.vars (literals_of vars.now.entries) }
    ensures { OnOk result ((words : List (List Literal)) (middle : Cnf) → term_words vars.now.entries [] listing.now.terms.items builder.old ≡ (words, middle)
        → builder.new ≡ with_conditions words (numbered_conditions numbering.now when.now) middle) }
{
    let words = term_words(alloc, builder, vars, &listing.terms)?;
    add_conditions(builder, numbering, &words, when)?;
    Ok(())
}

/// The terms of conditions.
pub(crate) fn roots_of(alloc: Global, when: &[(TermId, bool)]) -> Result<Vec<TermId>, NoMemory>
    ensures { IfOk result (λ roots. roots.items ≡ roots_of when.now) }
{
    let mut roots = Vec::with_capacity(alloc, when.len())?;
    let mut rest = when;
    while let [(term, _), others @ ..] = rest {
        roots.push(*term)?;
        rest = others;
    }
    Ok(roots)
}

/// Adds the clause of each condition.
fn add_conditions(
    builder: &mut Builder,
    numbering: &Numbering,
    words: &[[Lit; 32]],
    when: &[(TermId, bool)],
) -> Result<(), NoMemory>
    requires { AllWithin builder.old.vars words.now }
    ensures { IfOk result (λ _. builder.new ≡ with_conditions words.now (numbered_conditions numbering.now when.now) builder.old) }
{
    let _truth = builder.truth();
    let mut rest = when;
    while let [(term, truth), others @ ..] = rest {
        let literal = condition_literal(words, number_in(numbering, *term), *truth);
        builder.unit(literal)?;
        rest = others;
    }
    Ok(())
}

/// The lowest bit of the term of that number, negated where it is to be false.
fn condition_literal(words: &[[Lit; 32]], number: u32, truth: bool) -> Lit
    ensures { result ≡ condition_literal words.now (number, truth) }
{
    let word = term_word(words, number);
    if truth { word[0] } else { word[0].negated() }
}

fn row_of(
    alloc: Global,
    words: &BTreeMap<u32, [Lit; 32]>,
) -> Result<Row<(u32, [Lit; 32])>, NoMemory>
    ensures { IfOk result (λ row. row ≡ words.now.entries) }
{
    let mut row = Row::new(alloc);
    for (number, word) in words {
        row.push((*number, *word))?;
    }
    Ok(row)
}
