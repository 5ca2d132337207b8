//! What is found once for each class: classes by the texts that name them, whether a part of a type is left out, and what stands
//! for what an entry names.
ghost use Rattle.std.specs.Prelude.{◌≡◌, List, ℕ, Some, if◌then◌else◌, IfOk, OnOk};
ghost use Rattle.kb_classes.specs.World.{World as PlainWorld};
ghost use Rattle.kb_class.specs.Loading.{SpellsExact, SpellsKind};
ghost use Rattle.kb_class.specs.declared.members.MemberKind.TheVariants as kinds;
ghost use Rattle.kb_numbers.specs.declared.pairs.EntryNumbers.{EntryNumbers as PlainNumbers};
ghost use Rattle.kb_numbers.specs.Numbers.{HasTextAt};
ghost use Rattle.kb_resolution.specs.LeftOut.{has_left_out};
ghost use Rattle.kb_resolution.specs.Lookup.{class_of};
ghost use Rattle.kb_resolution.specs.Tables.{IsKnown, KnowsClasses, KnowsLeftOut, found_in, is_named};

use crate::left_out::has_left_out;
use crate::resolved::Resolved;
use crate::special::class_of;
use kb_link::Linked;
use kb_names::{ExactType, MethodType, NoMemory};
use kb_numbers::EntryNumbers;
use std::alloc::Global;
use std::collections::HashMap;

/// What has been found in code of a class, by the numbers of texts and of what entries name.
#[derive(Drop)]
pub(crate) struct Known {
    // Of a text that names a type the class in which the type's members are sought.
    pub(crate) classes: HashMap<u32, Option<u32>>,
    // Of the descriptor of a method whether a part of its type is left out.
    pub(crate) left_out: HashMap<u32, bool>,
    pub(crate) members: HashMap<EntryNumbers, Resolved>,
}

impl Known {
    /// Nothing so far.
    pub(crate) fn new(alloc: Global) -> Known
        ensures { (world : PlainWorld) (class : ℕ) (texts : List (List ℕ)) → IsKnown world class texts result }
    {
        Known {
            classes: HashMap::new(alloc),
            left_out: HashMap::new(alloc),
            members: HashMap::new(alloc),
        }
    }
}

/// The class in which the members of the type are sought, by the number of the text that names the type: looked up by its name
/// where the text is new.
pub(crate) fn class_sought(
    linked: &Linked,
    of: &ExactType,
    text: u32,
    classes: &mut HashMap<u32, Option<u32>>,
) -> Result<Option<u32>, NoMemory>
    ensures told { (texts : List (List ℕ)) → HasTextAt texts text (SpellsExact of.now) → KnowsClasses linked.now texts classes.old → IfOk result (λ told. told ≡ class_of linked.now of.now) }
    ensures known { (texts : List (List ℕ)) → HasTextAt texts text (SpellsExact of.now) → KnowsClasses linked.now texts classes.old → OnOk result (KnowsClasses linked.now texts classes.new) }
{
    if let Some(told) = classes.get(&text) {
        return Ok(*told);
    }
    let told = class_of(linked, of);
    classes.insert(text, told)?;
    Ok(told)
}

/// Whether a part of the type is left out, by the number of the text of its descriptor: looked at where the text is new.
pub(crate) fn is_left_out(
    kind: &MethodType,
    text: u32,
    left_out: &mut HashMap<u32, bool>,
) -> Result<bool, NoMemory>
    ensures told { (texts : List (List ℕ)) → HasTextAt texts text (SpellsKind (kinds.Method kind.now)) → KnowsLeftOut texts left_out.old → IfOk result (λ told. told ≡ has_left_out kind.now) }
    ensures known { (texts : List (List ℕ)) → HasTextAt texts text (SpellsKind (kinds.Method kind.now)) → KnowsLeftOut texts left_out.old → OnOk result (KnowsLeftOut texts left_out.new) }
{
    if let Some(told) = left_out.get(&text) {
        return Ok(*told);
    }
    let told = has_left_out(kind);
    left_out.insert(text, told)?;
    Ok(told)
}

/// What stands for what an entry names, if it was found before.
pub(crate) fn member_known(
    members: &HashMap<EntryNumbers, Resolved>,
    named: EntryNumbers,
) -> Option<Resolved>
    ensures { result ≡ found_in members.now named }
{
    members.get(&named).copied()
}

/// Keeps what stands for what an entry names.
pub(crate) fn keep_member(
    members: &mut HashMap<EntryNumbers, Resolved>,
    named: EntryNumbers,
    told: Resolved,
) -> Result<(), NoMemory>
    ensures { OnOk result ((other : PlainNumbers) → found_in members.new other ≡ (if is_named named other then Some told else found_in members.old other)) }
{
    match members.insert(named, told) {
        Ok(_) => Ok(()),
        Err(_) => Err(NoMemory),
    }
}
