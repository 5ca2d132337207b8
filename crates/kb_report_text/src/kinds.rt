//! What a leaf is counted as.
ghost use Rattle.std.specs.Prelude.{◌≡◌};
ghost use Rattle.kb_report_text.specs.Report.{kind_of, count_of};

use kb_picture::{Leaf, Path};

/// What the last line of a report counts.
#[derive(Clone, Copy, PartialEq, Eq)]
pub enum LeafKind {
    Ended,
    Cut,
    Undecided,
    Open,
}

fn kind_of(leaf: &Leaf) -> LeafKind
    ensures { result ≡ kind_of leaf.now }
{
    match leaf {
        Leaf::Ended(_) => LeafKind::Ended,
        Leaf::Cut(..) => LeafKind::Cut,
        Leaf::Undecided(_) => LeafKind::Undecided,
        Leaf::Open => LeafKind::Open,
    }
}

/// How many paths have a leaf of that kind.
pub(crate) fn count_of(kind: LeafKind, paths: &[Path]) -> usize
    ensures { result ≡ count_of kind paths.now }
{
    let mut count: usize = 0;
    let mut rest = paths;
    while let [path, others @ ..] = rest {
        rest = others;
        if kind == kind_of(&path.leaf) {
            count += 1;
        }
    }
    count
}
