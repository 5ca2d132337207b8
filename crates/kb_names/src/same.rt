//! Lists whose items are equal one by one.
ghost use Rattle.std.specs.Prelude.{◌≡◌, ◌↔◌, IsTrue};

/// What is told apart from all others of its kind.
pub trait Same {
    /// Whether they are equal.
    fn is_same_as(&self, other: &Self) -> bool
        ensures { IsTrue result ↔ (self.now ≡ other.now) };
}

/// Whether they are the same items in the same order.
pub fn are_same<T: Same>(left: &[T], right: &[T]) -> bool
    ensures { IsTrue result ↔ (left.now ≡ right.now) }
{
    let mut lefts = left;
    let mut rights = right;
    while let ([first, others @ ..], [second, rest @ ..]) = (lefts, rights) {
        if !first.is_same_as(second) {
            return false;
        }
        lefts = others;
        rights = rest;
    }
    lefts.is_empty() && rights.is_empty()
}
