//! What branches and switches go by (JVMS 8 section 6.5).

ghost use Rattle.std.specs.Prelude.{◌≡◌, slice_index_or};
ghost use Rattle.kb_semantics.specs.Instructions.{is_wanted, is_null, same_reference};
ghost use Rattle.kb_semantics.specs.Comparisons.{switch_target, table_keys};

/// Whether they are one reference.
pub fn same_reference(left: Option<u32>, right: Option<u32>) -> bool
    ensures { result ≡ same_reference left right }
{
    match (left, right) {
        (None, None) => true,
        (Some(left), Some(right)) => left == right,
        _ => false,
    }
}

/// Whether it is null.
pub fn is_null(reference: Option<u32>) -> bool
    ensures { result ≡ is_null reference }
{
    reference.is_none()
}

/// Whether that which is so is what is wanted.
pub fn is_wanted(want: bool, so: bool) -> bool
    ensures { result ≡ is_wanted want so }
{
    want == so
}

/// Where a switch by keys goes on.
pub fn switch_target(value: i32, keys: &[(i32, u32)], default: u32) -> u32
    ensures { result ≡ switch_target value keys.now default }
{
    let mut rest = keys;
    while let [(key, target), others @ ..] = rest {
        if value == *key {
            return *target;
        }
        rest = others;
    }
    default
}

/// Where a switch by the place in a table goes on.
#[tactic(auto, using(crate::proofs::SwitchLaws::table_below, crate::proofs::SwitchLaws::table_from))]
pub fn table_target(value: i32, low: i32, targets: &[u32], default: u32) -> u32
    ensures { result ≡ switch_target value (table_keys low targets.now) default }
{
    if value < low {
        return default;
    }
    target_at(targets, value.abs_diff(low) as usize, default)
}

fn target_at(targets: &[u32], place: usize, default: u32) -> u32
    ensures { result ≡ slice_index_or targets.now place default }
{
    match targets.get(place) {
        Some(target) => *target,
        None => default,
    }
}
