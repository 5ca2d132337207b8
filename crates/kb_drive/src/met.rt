//! Whether values meet conditions.
ghost use Rattle.std.specs.Prelude.{◌≡◌, ◌↔◌, ◌≤◌, IsTrue, length, drop};
ghost use Rattle.kb_arith.specs.Word.{truth as truth_value};
ghost use Rattle.kb_terms.specs.Terms.{int_at};
ghost use Rattle.kb_drive.specs.Met.{AreMetBy};

use kb_terms::TermId;

/// Whether the conditions behind the first so many hold.
pub(crate) fn are_met_behind(values: &[i32], when: &[(TermId, bool)], stood: usize) -> bool
    requires { stood ≤ length when.now }
    ensures { IsTrue result ↔ AreMetBy values.now (drop stood when.now) }
{
    are_met(values, &when[stood..])
}

// Whether these conditions hold, where `values` are those of the terms.
fn are_met(values: &[i32], when: &[(TermId, bool)]) -> bool
    ensures { IsTrue result ↔ AreMetBy values.now when.now }
{
    let mut rest = when;
    while let [condition, others @ ..] = rest {
        if !is_met(values, *condition) {
            return false;
        }
        rest = others;
    }
    true
}

fn is_met(values: &[i32], condition: (TermId, bool)) -> bool
    ensures { IsTrue result ↔ (int_at values.now condition.0.0 ≡ truth_value condition.1) }
{
    let value = match values.get(condition.0.0 as usize) {
        Some(value) => *value,
        None => 0,
    };
    if condition.1 { value == 1 } else { value == 0 }
}
