//! What holds of the classes of texts.

ghost use Rattle.std.specs.Prelude.{List};
ghost use Rattle.kb_classfile.specs.declared.file.PoolEntry.{PoolEntry};
ghost use Rattle.kb_classfile.specs.declared.file.Code.{Code};
ghost use Rattle.kb_asm_text.specs.declared.line.Sizes.{Sizes};
ghost use Rattle.kb_asm_text.specs.declared.line.Line.{Line};
ghost use Rattle.kb_asm.specs.Class.{IsCodeOf};
ghost use Rattle.kb_asm.specs.Listings.{HasListing};

/// The code of a body has a listing, unless a line of it is a byte of its own.
pub fn code_has_a_listing()
    ensures { (pool : List PoolEntry) (sizes : Sizes) (body : List Line) (code : Code) → IsCodeOf pool sizes body code → HasListing body code }
{}
