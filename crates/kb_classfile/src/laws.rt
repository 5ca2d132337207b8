//! What the answers of `read_class` tell of the bytes, in words about the bytes.

ghost use Rattle.std.specs.Prelude.{◌≡◌, ◌≢◌, ◌↔◌, ◌<◌, ℕ, List, [], ◌++◌, length, None, Some};
ghost use Rattle.kb_classfile.specs.declared.file.ClassFile.{ClassFile};
ghost use Rattle.kb_classfile.specs.declared.refusal.ClassRefusal.TheVariants as refusals;
ghost use Rattle.kb_classfile.specs.Spelling.{Spells, IsClassFile, most_bytes};
ghost use Rattle.kb_classfile.specs.Reading.{first_fault};
ghost use Rattle.kb_classfile.specs.Answers.{HasOtherMagic, HasOtherVersion, HasExtra, IsShort};

/// No bytes spell two class files.
pub fn one_class()
    ensures { (one other : ClassFile) (bytes : List ℕ) → Spells one bytes → Spells other bytes → one ≡ other }
{}

/// Bytes that are not too many spell a class file exactly where they have no fault.
pub fn no_fault()
    ensures spelled { (file : ClassFile) (bytes : List ℕ) → IsClassFile file bytes → first_fault bytes ≡ None }
    ensures free { (bytes : List ℕ) → first_fault bytes ≡ None → (file : ClassFile) × IsClassFile file bytes }
{}

/// Long comes exactly above the limit, whatever else is wrong.
pub fn too_long()
    ensures { (bytes : List ℕ) → first_fault bytes ≡ Some refusals.Long ↔ (most_bytes < length bytes) }
{}

/// Of bytes that are not too many, Magic comes exactly where four are there and are not the magic number.
pub fn other_magic()
    ensures { (bytes : List ℕ) → first_fault bytes ≡ Some refusals.Magic ↔ HasOtherMagic bytes }
{}

/// Of bytes that are not too many, Version comes exactly where the magic number stands in front and bytes 6 and 7 are that version,
/// which is not read, whatever stands behind them.
pub fn other_version()
    ensures { (major : ℕ) (bytes : List ℕ) → first_fault bytes ≡ Some (refusals.Version major) ↔ HasOtherVersion major bytes }
{}

/// Of bytes that are not too many, Extra comes exactly where a proper front of them, up to that offset, spells a class file.
pub fn bytes_behind()
    ensures { (at : ℕ) (bytes : List ℕ) → first_fault bytes ≡ Some (refusals.Extra at) ↔ HasExtra at bytes }
{}

/// In each proper front of a class file an item is not whole, at an offset within that front; where even the magic number is
/// not whole it is the first one.
pub fn cut_short()
    ensures front { (file : ClassFile) (front back : List ℕ) → IsClassFile file (front ++ back) → back ≢ [] → IsShort front }
    ensures first { (bytes : List ℕ) → length bytes < 4 → first_fault bytes ≡ Some (refusals.Short 0) }
{}
