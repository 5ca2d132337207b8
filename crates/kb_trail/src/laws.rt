//! What undoing leads to. The functions do nothing: they carry the laws.
ghost use Rattle.std.specs.Prelude.{◌≡◌, ℕ, ◌<◌, ◌≤◌, List, fold, length, slice_get};
ghost use Rattle.kb_trail.specs.Trail.{put_back, value_before};
ghost use Rattle.kb_trail.specs.Changes.{Trailed, Change, changed, MayChange, LeadsBack};

/// Cells that only `set`, and `undo_to` to marks not below a mark, have changed since that mark was taken are as they were then
/// once they are undone to it; and so it is of each mark before it.
pub fn undoing_leads_back<T>()
    ensures { (before : Trailed T) (low : ℕ) (changes : List (Change T)) → low ≤ length before.trail → MayChange low before changes → LeadsBack low before (fold changed before changes) }
{}

/// Of the values that entries put back at a place the first entry's stays, and a place that no entry has keeps its value.
pub fn first_entry_decides<T>()
    ensures { (entries : List (ℕ × T)) (cells : List T) (place : ℕ) → place < length cells → slice_get (put_back entries cells) place ≡ value_before entries cells place }
{}
