//! A path, from what an exploration has of it.
ghost use Rattle.std.specs.Prelude.{◌≡◌, IfOk, IfErr};
ghost use Rattle.kb_terms.specs.Terms.{AreTerms};
ghost use Rattle.kb_blast.specs.Query.{listed, numbered_conditions};
ghost use Rattle.kb_numbered.specs.Numbered.{numbered_path, walk_numbering, walk_roots};

use crate::NoMemory;
use crate::leaf::numbered_leaf;
use crate::numbered::numbered_terms;
use kb_picture::{Leaf, Path, Picture};
use kb_rows::{Held, Row};
use kb_terms::{Numbering, Pool, Term, TermId};
use std::alloc::Global;

/// There was no memory for a path: its leaf, as it was handed in.
#[derive(Drop)]
pub struct PathStop {
    pub leaf: Leaf,
}

/// All of a path but its leaf, and the numbers of its terms.
#[derive(Drop)]
struct Trunk {
    decisions: Row<u32>,
    picture: Picture,
    terms: Row<Term>,
    when: Row<(u32, bool)>,
    numbering: Numbering,
}

/// The path with this picture, with these conditions on terms of the pool, and with these decisions and this leaf. In the leaf
/// that is handed in, the terms have their numbers in the pool; the path numbers those that its conditions and its leaf meet. It
/// takes time in proportion to what it gives. Refused only where memory runs out, and then the leaf is handed back.
pub fn numbered_path(
    alloc: Global,
    picture: &Picture,
    pool: &Pool,
    when: &[(TermId, bool)],
    decisions: &[u32],
    leaf: Leaf,
) -> Result<Path, PathStop>
    requires { AreTerms pool.now (walk_roots when.now leaf) }
    ensures path { IfOk result (λ p. p ≡ numbered_path picture.now pool.now when.now decisions.now leaf (walk_numbering pool.now when.now leaf)) }
    ensures back { IfErr result (λ stop. stop.leaf ≡ leaf) }
{
    match trunk_of(alloc, picture, pool, when, decisions, &leaf) {
        Ok(trunk) => {
            let leaf = numbered_leaf(pool.nodes(), &trunk.get().numbering, leaf);
            Ok(with_leaf(trunk.into_inner(), leaf))
        }
        Err(NoMemory) => Err(PathStop { leaf }),
    }
}

fn trunk_of(
    alloc: Global,
    picture: &Picture,
    pool: &Pool,
    when: &[(TermId, bool)],
    decisions: &[u32],
    leaf: &Leaf,
) -> Result<Held<Trunk>, NoMemory>
    requires { AreTerms pool.now (walk_roots when.now leaf.now) }
    ensures numbering { IfOk result (λ trunk. trunk.numbering ≡ walk_numbering pool.now when.now leaf.now) }
    ensures decisions { IfOk result (λ trunk. trunk.decisions ≡ decisions.now) }
    ensures picture { IfOk result (λ trunk. trunk.picture ≡ picture.now) }
    ensures terms { IfOk result (λ trunk. trunk.terms ≡ listed pool.now trunk.numbering trunk.numbering) }
    ensures when { IfOk result (λ trunk. trunk.when ≡ numbered_conditions trunk.numbering when.now) }
{
    let numbered = numbered_terms(alloc, pool, when, leaf)?;
    let decisions = decisions.to_vec(alloc)?;
    let picture = picture.copied(alloc)?;
    let numbered = numbered.into_inner();
    Held::new(
        alloc,
        Trunk {
            decisions: Row::from_vec(decisions),
            picture,
            terms: numbered.terms,
            when: numbered.when,
            numbering: numbered.numbering,
        },
    )
}

fn with_leaf(trunk: Trunk, leaf: Leaf) -> Path
    ensures { result ≡ record { decisions = trunk.decisions; picture = trunk.picture; terms = trunk.terms; when = trunk.when; leaf = leaf } }
{
    Path {
        decisions: trunk.decisions,
        picture: trunk.picture,
        terms: trunk.terms,
        when: trunk.when,
        leaf,
    }
}
