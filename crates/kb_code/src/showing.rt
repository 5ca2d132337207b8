//! How an instruction is shown: as a derived `Debug` shows it, but by functions of a few kinds of operands each. A derive makes
//! one function of all variants, whose proof takes long.

use crate::instruction::Instr;
use std::fmt;

impl fmt::Debug for Instr {
    fn fmt<W: fmt::Write>(&self, f: &mut fmt::Formatter<W>) -> fmt::Result {
        f.write_str(variant_of(self))?;
        match number_of(self) {
            Some(number) => write!(f, "({number})"),
            None => show_operands(self, f),
        }
    }
}

/// The name of its variant.
fn variant_of(instruction: &Instr) -> &'static str {
    match instruction {
        Instr::Nop => "Nop",
        Instr::PushNull => "PushNull",
        Instr::PushInt(_) => "PushInt",
        Instr::Ldc(_) => "Ldc",
        Instr::LoadInt(_) => "LoadInt",
        Instr::LoadRef(_) => "LoadRef",
        Instr::StoreInt(_) => "StoreInt",
        Instr::StoreRef(_) => "StoreRef",
        Instr::LoadElem(_) => "LoadElem",
        Instr::StoreElem(_) => "StoreElem",
        Instr::Pop => "Pop",
        Instr::Pop2 => "Pop2",
        Instr::Dup => "Dup",
        Instr::DupX1 => "DupX1",
        Instr::DupX2 => "DupX2",
        Instr::Dup2 => "Dup2",
        Instr::Dup2X1 => "Dup2X1",
        Instr::Dup2X2 => "Dup2X2",
        Instr::Swap => "Swap",
        Instr::Int2(_) => "Int2",
        Instr::Neg => "Neg",
        Instr::Inc(_, _) => "Inc",
        Instr::Narrow(_) => "Narrow",
        Instr::IfInt(_, _) => "IfInt",
        Instr::IfPair(_, _) => "IfPair",
        Instr::IfSame(_, _) => "IfSame",
        Instr::IfNull(_, _) => "IfNull",
        Instr::Goto(_) => "Goto",
        Instr::Table(_, _, _) => "Table",
        Instr::Lookup(_, _) => "Lookup",
        Instr::ReturnInt => "ReturnInt",
        Instr::ReturnRef => "ReturnRef",
        Instr::Return => "Return",
        Instr::GetField(_) => "GetField",
        Instr::PutField(_) => "PutField",
        Instr::Virtual(_) => "Virtual",
        Instr::Special(_) => "Special",
        Instr::Static(_) => "Static",
        Instr::Interface(_) => "Interface",
        Instr::New(_) => "New",
        Instr::NewPrim(_) => "NewPrim",
        Instr::NewRefs(_) => "NewRefs",
        Instr::Length => "Length",
        Instr::Throw => "Throw",
        Instr::Cast(_) => "Cast",
        Instr::InstanceOf(_) => "InstanceOf",
        Instr::Other(_) => "Other",
    }
}

/// Its operand, where that is a number and the only one.
fn number_of(instruction: &Instr) -> Option<i64> {
    match instruction {
        Instr::PushInt(value) => Some(i64::from(*value)),
        Instr::Ldc(entry) => Some(i64::from(*entry)),
        Instr::LoadInt(local) | Instr::LoadRef(local) => Some(i64::from(*local)),
        Instr::StoreInt(local) | Instr::StoreRef(local) => Some(i64::from(*local)),
        Instr::Goto(target) => Some(i64::from(*target)),
        Instr::GetField(entry) | Instr::PutField(entry) => Some(i64::from(*entry)),
        Instr::Virtual(entry) | Instr::Special(entry) => Some(i64::from(*entry)),
        Instr::Static(entry) | Instr::Interface(entry) => Some(i64::from(*entry)),
        Instr::New(entry) | Instr::NewRefs(entry) => Some(i64::from(*entry)),
        Instr::Cast(entry) | Instr::InstanceOf(entry) => Some(i64::from(*entry)),
        Instr::NewPrim(code) | Instr::Other(code) => Some(i64::from(*code)),
        _ => None,
    }
}

/// Its operands, where there are several, or one that is no number.
fn show_operands<W: fmt::Write>(instruction: &Instr, f: &mut fmt::Formatter<W>) -> fmt::Result {
    match instruction {
        Instr::LoadElem(elem) | Instr::StoreElem(elem) => write!(f, "({elem:?})"),
        Instr::Int2(op) => write!(f, "({op:?})"),
        Instr::Inc(local, by) => write!(f, "({local}, {by})"),
        Instr::Narrow(cut) => write!(f, "({cut:?})"),
        Instr::Table(low, default, targets) => write!(f, "({low}, {default}, {targets:?})"),
        Instr::Lookup(default, keys) => write!(f, "({default}, {keys:?})"),
        _ => show_condition(instruction, f),
    }
}

/// The operands of a branch on a condition.
fn show_condition<W: fmt::Write>(instruction: &Instr, f: &mut fmt::Formatter<W>) -> fmt::Result {
    match instruction {
        Instr::IfInt(cond, target) | Instr::IfPair(cond, target) => {
            write!(f, "({cond:?}, {target})")
        }
        Instr::IfSame(want, target) | Instr::IfNull(want, target) => {
            write!(f, "({want}, {target})")
        }
        _ => Ok(()),
    }
}
