//! The terms and the conditions of a path, and the numbers of its terms.
ghost use Rattle.std.specs.Prelude.{◌≡◌, IfOk};
ghost use Rattle.kb_terms.specs.Terms.{AreTerms};
ghost use Rattle.kb_blast.specs.Query.{listed, numbered_conditions};
ghost use Rattle.kb_numbered.specs.Numbered.{walk_numbering, walk_roots};

use crate::NoMemory;
use crate::roots::walk_roots;
use crate::terms::{listed, numbered_conditions};
use kb_picture::Leaf;
use kb_rows::{Held, Row};
use kb_terms::{Numbering, Pool, Term, TermId};
use std::alloc::Global;

/// The terms and the conditions of a path, and the numbers of its terms.
#[derive(Drop)]
pub(crate) struct Numbered {
    pub(crate) terms: Row<Term>,
    pub(crate) when: Row<(u32, bool)>,
    pub(crate) numbering: Numbering,
}

/// The terms and the conditions, by the numbers of the terms that these and the leaf meet. In the leaf the terms have their
/// numbers in the pool.
pub(crate) fn numbered_terms(
    alloc: Global,
    pool: &Pool,
    when: &[(TermId, bool)],
    leaf: &Leaf,
) -> Result<Held<Numbered>, NoMemory>
    requires { AreTerms pool.now (walk_roots when.now leaf.now) }
    ensures numbering { IfOk result (λ numbered. numbered.numbering ≡ walk_numbering pool.now when.now leaf.now) }
    ensures terms { IfOk result (λ numbered. numbered.terms ≡ listed pool.now numbered.numbering numbered.numbering) }
    ensures when { IfOk result (λ numbered. numbered.when ≡ numbered_conditions numbered.numbering when.now) }
{
    let roots = walk_roots(alloc, when, leaf)?;
    let numbering = pool.numbering(alloc, &roots)?;
    let terms = listed(alloc, pool.nodes(), &numbering)?;
    let when = numbered_conditions(alloc, &numbering, when)?;
    Held::new(
        alloc,
        Numbered {
            terms,
            when,
            numbering,
        },
    )
}
