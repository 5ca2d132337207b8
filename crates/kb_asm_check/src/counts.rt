//! How many items the lists of a class have.

ghost use Rattle.std.specs.Prelude.{◌≡◌, IsTrue};
ghost use Rattle.kb_asm_check.specs.Limits.{counted, are_few};

use kb_asm_text::{BodyLine, Line};

/// The most items of a list of a class file.
const MOST_ITEMS: u32 = 65_535;

/// How many superinterfaces, fields and methods stand before a line, and how many handlers in the open body.
#[derive(Clone, Copy)]
pub(crate) struct Counts {
    interfaces: u32,
    fields: u32,
    methods: u32,
    handlers: u32,
}

impl Counts {
    /// No items.
    pub(crate) fn none() -> Counts
        ensures { result ≡ record { interfaces = 0; fields = 0; methods = 0; handlers = 0 } }
    {
        Counts {
            interfaces: 0,
            fields: 0,
            methods: 0,
            handlers: 0,
        }
    }

    /// With one line more.
    pub(crate) fn with(self, line: &Line) -> Counts
        requires { IsTrue (are_few self) }
        ensures { result ≡ counted self line.now }
    {
        let mut counts = self;
        match line {
            Line::Implements(_) => counts.interfaces += 1,
            Line::Field(_) => counts.fields += 1,
            Line::Method(_) => {
                counts.methods += 1;
                counts.handlers = 0;
            }
            Line::Body(BodyLine::Catch(_)) => counts.handlers += 1,
            _ => {}
        }
        counts
    }

    /// Whether two bytes count the items of each list.
    pub(crate) fn are_few(self) -> bool
        ensures { result ≡ are_few self }
    {
        self.interfaces <= MOST_ITEMS
            && self.fields <= MOST_ITEMS
            && self.methods <= MOST_ITEMS
            && self.handlers <= MOST_ITEMS
    }
}
