//! What holds of listings.

ghost use Rattle.std.specs.Prelude.{◌≡◌, ℕ, List};
ghost use Rattle.std.specs.List.{AllByRecursion};
ghost use Rattle.kb_code.specs.Listing.{HasRisingKeys, Lists};
ghost use Rattle.kb_code.specs.declared.listing.Handler.{Handler};
ghost use Rattle.kb_code.specs.declared.listing.Listing.{Listing};

/// No code has two listings.
pub fn one_listing()
    ensures { (one other : Listing) (code : List ℕ) (handlers : List Handler) → Lists one code handlers → Lists other code handlers → one ≡ other }
{}

/// The ints of each lookupswitch of a listing rise (JVMS 8 section 6.5, lookupswitch).
pub fn keys_rise()
    ensures { (listing : Listing) (code : List ℕ) (handlers : List Handler) → Lists listing code handlers → AllByRecursion (λ item. HasRisingKeys item.1) listing.items }
{}
