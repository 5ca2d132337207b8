//! Whether lists of numbers make an order.

ghost use Rattle.std.specs.Prelude.{◌≡◌, ◌<◌, ◌↔◌, ℕ, true};
ghost use Rattle.std.specs.Bool.{IsTrue};
ghost use Rattle.kb_order.specs.Order.{stands, IsComplete};

use kb_rows::Row;

/// Whether each number in the lists is less than the number of lists, as `order_of` asks.
pub fn is_complete(direct: &[Row<u32>]) -> bool
    ensures { IsTrue result ↔ IsComplete direct.now }
{
    for highs in direct {
        if !are_below(highs.as_slice(), direct.len()) {
            return false;
        }
    }
    true
}

/// Whether each of the numbers is less than `size`.
fn are_below(numbers: &[u32], size: usize) -> bool
    ensures { IsTrue result ↔ ((number : ℕ) → stands number numbers.now ≡ true → number < size) }
{
    for number in numbers {
        if *number as usize >= size {
            return false;
        }
    }
    true
}
