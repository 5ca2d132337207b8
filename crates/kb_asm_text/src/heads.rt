//! The lines of a class and its members, and the rows of handler tables.

ghost use Rattle.std.specs.Prelude.{◌≡◌, ℕ, List, Option, Some, IfOk, MatchOption};
ghost use Rattle.kb_asm_text.specs.Words.{IsReadAs};
ghost use Rattle.kb_asm_text.specs.declared.line.MethodHead.{MethodHead};
ghost use Rattle.kb_asm_text.specs.declared.line.Sizes.{Sizes};
ghost use Rattle.kb_asm_text.specs.Tokens.{SpellsLabel};
ghost use Rattle.kb_asm_text.specs.Lines.{SpellsClassHead, SpellsFieldHead, SpellsMember, SpellsSized, SpellsMethodHead, SpellsCatch, SpellsCaught};

use crate::NoMemory;
use crate::line::{Catch, ClassHead, FieldHead, MethodHead, Sizes};
use crate::names::{read_caught, read_label, read_method_type, read_text, read_type};
use crate::tokens::read_flags;
use crate::words::{five_words, four_words, three_words};
use kb_grammar::number_within;
use kb_names::Name;
use kb_rows::Row;
use std::alloc::Global;

/// The class that the words name.
pub(crate) fn read_class(alloc: Global, words: &[Row<u8>]) -> Result<Option<ClassHead>, NoMemory>
    ensures { IfOk result (IsReadAs SpellsClassHead words.now) }
{
    let Some((flags, name, parent)) = three_words(words) else {
        return Ok(None);
    };
    let Some(access) = read_flags(flags) else {
        return Ok(None);
    };
    let Some(name) = read_text(alloc, name)? else {
        return Ok(None);
    };
    let Some(parent) = read_text(alloc, parent)? else {
        return Ok(None);
    };
    Ok(Some(ClassHead {
        access,
        name,
        parent,
    }))
}

/// The field that the words declare.
pub(crate) fn read_field(alloc: Global, words: &[Row<u8>]) -> Result<Option<FieldHead>, NoMemory>
    ensures { IfOk result (IsReadAs SpellsFieldHead words.now) }
{
    let Some((flags, name, kind)) = three_words(words) else {
        return Ok(None);
    };
    let Some(access) = read_flags(flags) else {
        return Ok(None);
    };
    let Some(name) = read_text(alloc, name)? else {
        return Ok(None);
    };
    let Some(kind) = read_type(alloc, kind)? else {
        return Ok(None);
    };
    Ok(Some(FieldHead { access, name, kind }))
}

/// The method of these flags, name and descriptor.
fn read_member(
    alloc: Global,
    sizes: Option<Sizes>,
    flags: &[u8],
    name: &[u8],
    kind: &[u8],
) -> Result<Option<MethodHead>, NoMemory>
    ensures { IfOk result (λ read. MatchOption read
        ((head : MethodHead) → SpellsMember head flags.now name.now kind.now → ⊥)
        (λ head. SpellsMember head flags.now name.now kind.now × (head.sizes ≡ sizes))) }
{
    let Some(access) = read_flags(flags) else {
        return Ok(None);
    };
    let Some(name) = read_text(alloc, name)? else {
        return Ok(None);
    };
    let Some(kind) = read_method_type(alloc, kind)? else {
        return Ok(None);
    };
    Ok(Some(MethodHead {
        access,
        name,
        kind,
        sizes,
    }))
}

/// The method with code that the words declare.
fn read_coded(alloc: Global, words: &[Row<u8>]) -> Result<Option<MethodHead>, NoMemory>
    ensures { IfOk result (λ read. MatchOption read
        ((head : MethodHead) (sizes : Sizes) → SpellsSized (Some sizes) head words.now → ⊥)
        (λ head. SpellsMethodHead head words.now)) }
{
    let Some((flags, name, kind, stack, locals)) = five_words(words) else {
        return Ok(None);
    };
    let Some(max_stack) = number_within(stack, 65_535) else {
        return Ok(None);
    };
    let Some(max_locals) = number_within(locals, 65_535) else {
        return Ok(None);
    };
    let sizes = Sizes {
        max_stack: max_stack as u16,
        max_locals: max_locals as u16,
    };
    read_member(alloc, Some(sizes), flags, name, kind)
}

/// The method that the words declare.
pub(crate) fn read_method(alloc: Global, words: &[Row<u8>]) -> Result<Option<MethodHead>, NoMemory>
    ensures { IfOk result (IsReadAs SpellsMethodHead words.now) }
{
    if let Some((flags, name, kind)) = three_words(words) {
        return read_member(alloc, None, flags, name, kind);
    }
    read_coded(alloc, words)
}

/// The row of a handler table that the words spell.
pub(crate) fn read_catch(alloc: Global, words: &[Row<u8>]) -> Result<Option<Catch>, NoMemory>
    ensures { IfOk result (IsReadAs SpellsCatch words.now) }
{
    let Some((start, end, target, class)) = four_words(words) else {
        return Ok(None);
    };
    let Some((start, end)) = read_range(alloc, start, end)? else {
        return Ok(None);
    };
    let Some((target, class)) = read_landing(alloc, target, class)? else {
        return Ok(None);
    };
    Ok(Some(Catch {
        start,
        end,
        target,
        class,
    }))
}

/// The labels of the range of a handler.
fn read_range(alloc: Global, start: &[u8], end: &[u8]) -> Result<Option<(Name, Name)>, NoMemory>
    ensures { IfOk result (λ read. MatchOption read
        ((first last : List ℕ) → SpellsLabel first start.now → SpellsLabel last end.now → ⊥)
        (λ range. SpellsLabel range.0 start.now × SpellsLabel range.1 end.now)) }
{
    let Some(start) = read_label(alloc, start)? else {
        return Ok(None);
    };
    let Some(end) = read_label(alloc, end)? else {
        return Ok(None);
    };
    Ok(Some((start, end)))
}

/// The label where a handler goes on, and the class that it catches, or any.
fn read_landing(
    alloc: Global,
    target: &[u8],
    class: &[u8],
) -> Result<Option<(Name, Option<Name>)>, NoMemory>
    ensures { IfOk result (λ read. MatchOption read
        ((label : List ℕ) (caught : Option (List ℕ)) → SpellsLabel label target.now → SpellsCaught caught class.now → ⊥)
        (λ landing. SpellsLabel landing.0 target.now × SpellsCaught landing.1 class.now)) }
{
    let Some(target) = read_label(alloc, target)? else {
        return Ok(None);
    };
    let Some(class) = read_caught(alloc, class)? else {
        return Ok(None);
    };
    Ok(Some((target, class)))
}
