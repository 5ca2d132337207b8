//! What holds of entries that are added.

ghost use Rattle.std.specs.Prelude.{List};
ghost use Rattle.kb_texts.specs.Texts.{AreDistinct};
ghost use Rattle.kb_asm_pool.specs.Says.{Says, all_added};

/// No entry is added twice.
pub fn no_entry_twice()
    ensures { (says more : List Says) → AreDistinct says → AreDistinct (all_added says more) }
{}
