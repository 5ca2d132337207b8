//! Whether conditions have a formula.
ghost use Rattle.std.specs.Prelude.{◌≡◌, ◌↔◌, true, length};
ghost use Rattle.kb_terms.specs.Terms.{node_at};
ghost use Rattle.kb_blast.specs.Query.{AreConditions, node_passes, is_comparison};

use kb_terms::{Node, Op, Pool, TermId};

/// Whether each condition is on a comparison.
pub fn can_blast(pool: &Pool, when: &[(TermId, bool)]) -> bool
    ensures { (result ≡ true) ↔ AreConditions pool.now when.now }
{
    let mut rest = when;
    while let [(term, _), others @ ..] = rest {
        if !is_comparison(pool, *term) {
            return false;
        }
        rest = others;
    }
    true
}

fn is_comparison(pool: &Pool, term: TermId) -> bool
    ensures { result ≡ node_passes is_comparison (node_at pool.now term) }
{
    match pool.nodes().get(term.0 as usize) {
        Some(Node::Op(op, _, _)) => match op {
            Op::Eq | Op::Lt | Op::Ult => true,
            _ => false,
        },
        _ => false,
    }
}
