//! What the count over the objects means.
ghost use Rattle.std.specs.Prelude.{◌↔◌, ℕ, List, [], Some, None};
ghost use Rattle.kb_picture.specs.declared.picture.Standing.{Standing};
ghost use Rattle.kb_report_known.specs.Counts.{AreEnough, NamedObjects, no_objects};
ghost use Rattle.kb_report_known.specs.Finding.{Knows, MayBeFound, SeenSlot};

use crate::fields::Fields;

/// Where what is noted of objects is what see and loc lines say of them, the count is enough exactly where there are types and
/// lengths of them all, and slots of their own for those that are not found: of an object's slots and of arguments' as long as
/// there may be see lines, and behind them of locations alone. Before the first line nothing is noted. The function does nothing:
/// it carries the law.
pub fn each_may_be_found(fields: &Fields<'_>)
    ensures begins { (params : ℕ) → Knows fields.now params [] [] (no_objects params) }
    ensures seeing { (params : ℕ) (seen : List SeenSlot) (standing : List Standing) (objects : NamedObjects) → Knows fields.now params seen standing objects
        → AreEnough (Some fields.now) objects ↔ MayBeFound fields.now params (Unit {0}) seen standing objects.count }
    ensures behind { (params : ℕ) (seen : List SeenSlot) (standing : List Standing) (objects : NamedObjects) → Knows fields.now params seen standing objects
        → AreEnough None objects ↔ MayBeFound fields.now params ⊥ seen standing objects.count }
{
    fields.tell_linked();
    fields.tell_few();
}
