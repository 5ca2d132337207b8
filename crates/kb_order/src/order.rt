//! What stands above what.

ghost use Rattle.std.specs.Prelude.{◌≡◌, ◌<◌, ◌≤◌, ◌↔◌, ℕ, IfOk, length};
ghost use Rattle.std.specs.Bool.{IsTrue};
ghost use Rattle.kb_order.specs.Order.{IsComplete, IsAbove, IsStrictlyAbove, IsDirectlyAbove, HasNoCircle, IsFirstOnCircle, AreMarksAbove, IsRank, set_marks};

use crate::NoMemory;
use crate::table::{is_marked, table_of};
use kb_rows::Row;
use std::alloc::Global;
use std::marker::Model;

/// The table has a mark for each two numbers: more of them would hardly fit.
const MOST: usize = 65_536;

/// Numbers with what stands above each. Contracts see the list of what stands directly above.
#[derive(Drop)]
pub struct Order {
    direct: Row<Row<u32>>,
    /// A row for each number, in which a mark for each: whether it stands strictly above.
    table: Row<Row<bool>>,
}

impl Model for Order {
    ghost use Rattle.std.specs.Prelude.{List, ℕ, length, ◌^◌, ◌≤◌};
    ghost use Rattle.kb_order.specs.Table.{IsTable};

    ghost Value = { List (List ℕ) };

    ghost view = { λ order. order.direct };

    ghost invariant = { λ order. IsTable order.direct order.table × (length order.direct ≤ 2 ^ 16) };
}

/// The order in which these numbers stand directly above 0, 1 and so on. More than 65,536 numbers count as out
/// of memory. The time grows with the sum of the lists' lengths, and besides with the number of lists alone.
pub fn order_of(alloc: Global, direct: Vec<Row<u32>>) -> Result<Order, NoMemory>
    requires { IsComplete direct.items }
    ensures { IfOk result (λ order. order ≡ direct.items) }
{
    if direct.len() > MOST {
        return Err(NoMemory);
    }
    let table = table_of(alloc, direct.as_slice())?;
    Ok(Order {
        direct: Row::from_vec(direct),
        table: Row::from_vec(table),
    })
}

impl Order {
    /// How many numbers there are.
    pub fn len(&self) -> usize
        ensures count { result ≡ length self.now }
        ensures few { result ≤ 65536 }
    {
        self.direct.as_slice().len()
    }

    /// Whether `high` stands above `low`, in any number of steps. It takes no memory, and no more time for a longer way.
    pub fn is_above(&self, low: u32, high: u32) -> bool
        ensures { IsTrue result ↔ IsAbove self.now low high }
    {
        if low == high {
            return true;
        }
        self.is_strictly_above(low, high)
    }

    /// Whether `high` stands above `low`, in one step or more.
    pub fn is_strictly_above(&self, low: u32, high: u32) -> bool
        ensures { IsTrue result ↔ IsStrictlyAbove self.now low high }
    {
        match self.table.as_slice().get(low as usize) {
            Some(row) => is_marked(row.as_slice(), high as usize),
            None => false,
        }
    }

    /// A mark for each number: whether it stands strictly above `low`.
    pub fn marks_above(&self, low: u32) -> &[bool]
        requires { low < length self.now }
        ensures marks { AreMarksAbove self.now low result.now }
        ensures few { length self.now ≤ 65536 }
    {
        self.table.as_slice()[low as usize].as_slice()
    }

    /// How many numbers stand strictly above `low`. Where there is no circle, the rank falls with each step up, so that a
    /// walk by falling rank comes to each number before those above it.
    pub fn rank(&self, low: u32) -> u32
        requires { low < length self.now }
        ensures rank { IsRank self.now low result }
        ensures most { result ≤ length self.now }
        ensures falls { HasNoCircle self.now → (next rank : ℕ) → IsDirectlyAbove self.now low next
            → IsRank self.now next rank → rank < result }
    {
        count_set(self.marks_above(low))
    }

    /// The least number that stands on a circle.
    pub fn first_on_circle(&self) -> Option<u32>
        ensures { IsFirstOnCircle self.now result }
    {
        for low in 0..self.direct.as_slice().len() as u32 {
            if self.is_strictly_above(low, low) {
                return Some(low);
            }
        }
        None
    }
}

/// How many of the marks are set.
fn count_set(marks: &[bool]) -> u32
    requires { length marks.now ≤ 65536 }
    ensures { result ≡ set_marks marks.now }
{
    let mut count = 0;
    let mut rest = marks;
    while let [mark, others @ ..] = rest {
        count += u32::from(*mark);
        rest = others;
    }
    count
}
