//! Items of lists by their numbers.
ghost use Rattle.std.specs.Prelude.{◌≡◌, slice_get};
ghost use Rattle.std.specs.Option.{option_copied};

/// The item of that number, from 0.
pub fn item_at<T>(items: &[T], number: u32) -> Option<&T>
    ensures { option_copied result ≡ slice_get items.now number }
{
    items.get(number as usize)
}
