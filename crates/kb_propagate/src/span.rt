//! Parts of a table in which lists stand one after the other.
ghost use Rattle.std.specs.Prelude.{◌≡◌, ◌+◌, ◌-◌, ◌<◌, ◌≤◌};

/// Where the items of a list stand: from `start` up to `end`, which is not of them.
#[derive(Clone, Copy, Drop)]
pub(crate) struct Span {
    pub(crate) start: u32,
    pub(crate) end: u32,
}

impl Span {
    /// Where in the table an item of the list stands.
    pub(crate) fn place(self, item: usize) -> usize
        requires { self.start + item < self.end }
        ensures { result ≡ self.start + item }
    {
        self.start as usize + item
    }

    /// The span of no items at the same place.
    pub(crate) fn emptied(self) -> Span
        ensures start { result.start ≡ self.start }
        ensures end { result.end ≡ self.start }
    {
        Span {
            start: self.start,
            end: self.start,
        }
    }

    /// The span of as many items that begins at an earlier place.
    pub(crate) fn earlier(self, start: u32) -> Span
        requires order { self.start ≤ self.end }
        requires earlier { start ≤ self.start }
        ensures start { result.start ≡ start }
        ensures end { result.end ≡ start + (self.end - self.start) }
    {
        Span {
            start,
            end: start + (self.end - self.start),
        }
    }
}
