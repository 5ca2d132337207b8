//! Targets in texts.
ghost use Rattle.std.specs.Prelude.{◌≡◌, ◌++◌, IfOk, IfErr, OnOk, OnErr, length, take};
ghost use Rattle.std.specs.Io.{appended_bytes};
ghost use Rattle.kb_names.specs.Targets.{target_text, CanSpellTarget, IsTarget, SpellsTarget, IsTargetText, ReadsTarget, RefusesTarget, target_step, target_read};
ghost use Rattle.kb_names.specs.declared.types.Target.{Target};

use crate::class_names::unless_empty;
use crate::descriptors::MethodStage;
use crate::name_texts::NameStage;
use crate::stages::{Stage, TextStop, read_text};
use crate::writing::append_byte;
use crate::{Name, NoMemory, Row, Spelling, Target, write_method_type, write_name};
use std::alloc::Global;

/// Why a target was not read.
#[derive(Clone, Copy, PartialEq, Eq)]
pub enum TargetRefusal {
    /// The first offset at which no target goes on: the offset of the first byte that may not stand there, or
    /// the text's length where it ends too early.
    BadTarget(usize),
    /// Memory ran out.
    NoMemory,
}

// How far a target is read.
#[derive(Drop)]
pub(crate) enum TargetStage {
    InClass(NameStage),
    // Behind the class and the `.`.
    InMethod(Name, NameStage),
    // Behind the class, the name and the parenthesis.
    InKind(Name, Name, MethodStage),
}

impl Stage for TargetStage {
    type Value = Target;

    ghost step = { target_step };

    ghost read = { target_read };

    #[tactic(auto, unfolding(crate::specs::Targets::target_step))]
    fn next(self, alloc: Global, byte: u8) -> Result<Option<TargetStage>, NoMemory> {
        match self {
            TargetStage::InClass(stage) => in_class(alloc, stage, byte),
            TargetStage::InMethod(class, stage) => in_method(alloc, class, stage, byte),
            TargetStage::InKind(class, name, stage) => match stage.next(alloc, byte)? {
                Some(next) => Ok(Some(TargetStage::InKind(class, name, next))),
                None => Ok(None),
            },
        }
    }

    fn whole(self) -> Option<Target> {
        match self {
            TargetStage::InClass(_) | TargetStage::InMethod(_, _) => None,
            TargetStage::InKind(class, name, stage) => {
                let kind = stage.whole()?;
                Some(Target { class, name, kind })
            }
        }
    }
}

#[tactic(auto, unfolding(crate::specs::Targets::target_step))]
fn in_class(alloc: Global, stage: NameStage, byte: u8) -> Result<Option<TargetStage>, NoMemory>
    ensures { IfOk result (λ next. next ≡ target_step (TargetStage.InClass stage) byte) }
{
    if byte != b'.' {
        return match stage.next(alloc, byte)? {
            Some(next) => Ok(Some(TargetStage::InClass(next))),
            None => Ok(None),
        };
    }
    let Some(name) = stage.whole() else {
        return Ok(None);
    };
    match unless_empty(name) {
        Some(class) => Ok(Some(TargetStage::InMethod(
            Name::from_row(class)?,
            NameStage::Plain(Row::new(alloc)),
        ))),
        None => Ok(None),
    }
}

#[tactic(auto, unfolding(crate::specs::Targets::target_step))]
fn in_method(
    alloc: Global,
    class: Name,
    stage: NameStage,
    byte: u8,
) -> Result<Option<TargetStage>, NoMemory>
    ensures { IfOk result (λ next. next ≡ target_step (TargetStage.InMethod class stage) byte) }
{
    if byte != b'(' {
        return match stage.next(alloc, byte)? {
            Some(next) => Ok(Some(TargetStage::InMethod(class, next))),
            None => Ok(None),
        };
    }
    match stage.whole() {
        Some(name) => Ok(Some(TargetStage::InKind(
            class,
            Name::from_row(name)?,
            MethodStage::Params(Spelling::Escaped, Row::new(alloc)),
        ))),
        None => Ok(None),
    }
}

/// Reads a whole text as a target: the class's name, which is not empty, a `.`, the method's name, which may
/// be, and its descriptor. Names are spelled as in texts, also inside the descriptor.
pub fn read_target(alloc: Global, text: &[u8]) -> Result<Target, TargetRefusal>
    ensures found { IfOk result (λ target. SpellsTarget target text.now) }
    ensures only { (target : Target) → SpellsTarget target text.now → ReadsTarget result target }
    ensures bad { IfErr result (RefusesTarget text.now) }
{
    let start = TargetStage::InClass(NameStage::Plain(Row::new(alloc)));
    match read_text(alloc, start, text) {
        Ok(target) => Ok(target),
        Err(TextStop::At(at)) => Err(TargetRefusal::BadTarget(at)),
        Err(TextStop::NoMemory) => Err(TargetRefusal::NoMemory),
    }
}

/// Appends the one spelling of the target.
pub fn write_target(target: &Target, into: &mut Vec<u8>) -> Result<(), NoMemory>
    ensures ok { OnOk result (into.new.items ≡ into.old.items ++ target_text target.now) }
    ensures spelled { OnOk result (CanSpellTarget target.now → SpellsTarget target.now (appended_bytes into.old.items into.new.items)) }
    ensures err { OnErr result (into.new.items ≡ into.old.items) }
{
    let start = into.len();
    let written = append_target(target, into);
    if written.is_err() {
        into.truncate(start);
    }
    written
}

// Appends the target. After an `Err` a part of it may stand there.
fn append_target(target: &Target, into: &mut Vec<u8>) -> Result<(), NoMemory>
    ensures ok { OnOk result (into.new.items ≡ into.old.items ++ target_text target.now) }
    ensures is { OnOk result (CanSpellTarget target.now → IsTarget target.now) }
    ensures kept { take (length into.old.items) into.new.items ≡ into.old.items }
{
    write_name(&target.class, into)?;
    append_byte(b'.', into)?;
    write_name(&target.name, into)?;
    write_method_type(&target.kind, Spelling::Escaped, into)
}
