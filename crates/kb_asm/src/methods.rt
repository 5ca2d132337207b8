//! The methods of a class.

ghost use Rattle.std.specs.Prelude.{◌≡◌, None, Some, codes, IsTrue, IfSome, IfOk, OnOk};
ghost use Rattle.std.specs.List.{AllByRecursion, AllZip};
ghost use Rattle.kb_writer.specs.Files.{IfCode};
ghost use Rattle.kb_asm_pool.specs.Says.{text as says_text};
ghost use Rattle.kb_asm_pool.specs.Needs.{line_needs, code_needs};
ghost use Rattle.kb_asm_pool.specs.Entries.{entries_of};
ghost use Rattle.kb_asm_check.specs.Faults.{body_of};
ghost use Rattle.kb_asm.specs.Needs.{have, have_all, IsWhole};
ghost use Rattle.kb_asm.specs.Parts.{parts};
ghost use Rattle.kb_asm.specs.Class.{method_in, HasCodeOf, IsMethodOf};
ghost use Rattle.kb_asm.specs.Working.{Agree, IsFitLine, IsSoundBody, IsSoundAt, AreSound, IsReady, IsReadyMethod};

use crate::NoMemory;
use crate::code::code_of;
use crate::numbers::of_text;
use crate::parts::push_part;
use kb_asm_check::body_of;
use kb_asm_pool::{Items, method_bytes};
use kb_asm_text::{Line, MethodHead, Sizes};
use kb_classfile::{Code, Method};
use kb_rows::Row;
use std::alloc::Global;

/// The code of a method with these sizes, if it has some; the lines are those of its body.
fn sized_code(
    pool: &mut Items,
    alloc: Global,
    sizes: Option<Sizes>,
    lines: &[Line],
) -> Result<Option<Code>, NoMemory>
    requires whole { IsWhole pool.old.says }
    requires named { IsTrue (have pool.old.says (code_needs sizes)) }
    requires there { IsTrue (have_all pool.old.says lines.now) }
    requires fit { AllByRecursion (IsFitLine pool.old.says) lines.now }
    requires sound { IfSome sizes (λ _. IsSoundBody lines.now) }
    ensures same { OnOk result (pool.new.says ≡ pool.old.says) }
    ensures code { IfOk result (HasCodeOf (entries_of pool.old.says) sizes lines.now) }
    ensures ready { IfOk result (IfCode (IsReady pool.old.says)) }
{
    match sizes {
        Some(sizes) => Ok(Some(code_of(pool, alloc, sizes, lines)?)),
        None => Ok(None),
    }
}

/// The method with this head; the lines are those of its body.
fn method_of(
    pool: &mut Items,
    alloc: Global,
    head: &MethodHead,
    lines: &[Line],
) -> Result<Method, NoMemory>
    requires whole { IsWhole pool.old.says }
    requires needed { IsTrue (have pool.old.says (line_needs (Line.Method head.now))) }
    requires there { IsTrue (have_all pool.old.says lines.now) }
    requires fit { AllByRecursion (IsFitLine pool.old.says) lines.now }
    requires sound { IfSome head.now.sizes (λ _. IsSoundBody lines.now) }
    ensures same { OnOk result (pool.new.says ≡ pool.old.says) }
    ensures method { IfOk result (IsReadyMethod pool.old.says (head.now, lines.now)) }
{
    let text = method_bytes(alloc, &head.kind)?;
    let name = of_text(pool, alloc, head.name.as_slice())?;
    let kind = of_text(pool, alloc, text.as_slice())?;
    let code = sized_code(pool, alloc, head.sizes, lines)?;
    Ok(Method {
        access: head.access,
        name,
        kind,
        code,
    })
}

/// The method, if the line begins one.
fn method_in(
    pool: &mut Items,
    alloc: Global,
    line: &Line,
    others: &[Line],
) -> Result<Option<Method>, NoMemory>
    requires whole { IsWhole pool.old.says }
    requires needed { IsTrue (have pool.old.says (line_needs line.now)) }
    requires there { IsTrue (have_all pool.old.says others.now) }
    requires fit { AllByRecursion (IsFitLine pool.old.says) others.now }
    requires sound { IsSoundAt line.now others.now }
    ensures same { OnOk result (pool.new.says ≡ pool.old.says) }
    ensures method { IfOk result (Agree (IsReadyMethod pool.old.says) (method_in line.now others.now)) }
{
    match line {
        Line::Method(head) => Ok(Some(method_of(pool, alloc, head, body_of(others))?)),
        _ => Ok(None),
    }
}

/// The methods, in the order of their lines.
pub(crate) fn methods_of(
    pool: &mut Items,
    alloc: Global,
    lines: &[Line],
) -> Result<Row<Method>, NoMemory>
    requires whole { IsWhole pool.old.says }
    requires there { IsTrue (have_all pool.old.says lines.now) }
    requires fit { AllByRecursion (IsFitLine pool.old.says) lines.now }
    requires sound { AreSound lines.now }
    ensures same { OnOk result (pool.new.says ≡ pool.old.says) }
    ensures methods { IfOk result (AllZip (IsReadyMethod pool.old.says) (parts method_in lines.now)) }
{
    let mut methods = Row::new(alloc);
    let mut rest = lines;
    while let [line, others @ ..] = rest {
        let method = method_in(pool, alloc, line, others)?;
        push_part(&mut methods, method)?;
        rest = others;
    }
    Ok(methods)
}
