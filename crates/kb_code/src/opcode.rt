//! The opcodes of the Java virtual machine, in the groups of JVMS 8 chapter 7.

ghost use Rattle.std.specs.Prelude.{◌≡◌};
ghost use Rattle.kb_code.specs.Forms.{form_of, wide_form_of, constant_form, load_form, store_form, stack_form, math_form, conversion_form, comparison_form, control_form, reference_form, extended_form};

use crate::form::{Branch, Entry, Form, Local, WideForm};
use crate::instruction::{Cond, Elem, Instr, IntCut, IntOp};

/// ldc, invokeinterface and goto_w (JVMS 8 section 6.5).
pub const LDC: u8 = 0x12;

pub const INVOKEINTERFACE: u8 = 0xb9;

pub const GOTO_W: u8 = 0xc8;

/// Constants, 00 to 14.
#[tactic(auto, unfolding(crate::specs::Forms::constant_form))]
fn constant_form(op: u8) -> Form
    ensures { result ≡ constant_form op }
{
    match op {
        0x00 => Form::Alone(Instr::Nop), // nop
        0x01 => Form::Alone(Instr::PushNull), // aconst_null
        0x02..=0x08 => Form::Alone(Instr::PushInt(i32::from(op) - 3)), // iconst_m1 to iconst_5
        0x10 => Form::PushByte, // bipush
        0x11 => Form::PushShort, // sipush
        0x12 => Form::Constant, // ldc
        0x13 => Form::Entry(Entry::Constant), // ldc_w
        0x14 => Form::Skipped(op, 2), // ldc2_w
        _ => Form::Skipped(op, 0),
    }
}

/// Loads, 15 to 35.
#[tactic(auto, unfolding(crate::specs::Forms::load_form))]
fn load_form(op: u8) -> Form
    ensures { result ≡ load_form op }
{
    match op {
        0x15 => Form::Local(Local::LoadInt), // iload
        0x16..=0x18 => Form::Skipped(op, 1), // lload, fload, dload
        0x19 => Form::Local(Local::LoadRef), // aload
        0x1a..=0x1d => Form::Alone(Instr::LoadInt(u16::from(op - 0x1a))), // iload_0 to iload_3
        0x2a..=0x2d => Form::Alone(Instr::LoadRef(u16::from(op - 0x2a))), // aload_0 to aload_3
        0x2e => Form::Alone(Instr::LoadElem(Elem::Int)), // iaload
        0x32 => Form::Alone(Instr::LoadElem(Elem::Ref)), // aaload
        0x33 => Form::Alone(Instr::LoadElem(Elem::Byte)), // baload
        _ => Form::Skipped(op, 0),
    }
}

/// Stores, 36 to 56.
#[tactic(auto, unfolding(crate::specs::Forms::store_form))]
fn store_form(op: u8) -> Form
    ensures { result ≡ store_form op }
{
    match op {
        0x36 => Form::Local(Local::StoreInt), // istore
        0x37..=0x39 => Form::Skipped(op, 1), // lstore, fstore, dstore
        0x3a => Form::Local(Local::StoreRef), // astore
        0x3b..=0x3e => Form::Alone(Instr::StoreInt(u16::from(op - 0x3b))), // istore_0 to istore_3
        0x4b..=0x4e => Form::Alone(Instr::StoreRef(u16::from(op - 0x4b))), // astore_0 to astore_3
        0x4f => Form::Alone(Instr::StoreElem(Elem::Int)), // iastore
        0x53 => Form::Alone(Instr::StoreElem(Elem::Ref)), // aastore
        0x54 => Form::Alone(Instr::StoreElem(Elem::Byte)), // bastore
        _ => Form::Skipped(op, 0),
    }
}

/// The operand stack, 57 to 5f.
#[tactic(auto, unfolding(crate::specs::Forms::stack_form))]
fn stack_form(op: u8) -> Form
    ensures { result ≡ stack_form op }
{
    match op {
        0x57 => Form::Alone(Instr::Pop), // pop
        0x58 => Form::Alone(Instr::Pop2), // pop2
        0x59 => Form::Alone(Instr::Dup), // dup
        0x5a => Form::Alone(Instr::DupX1), // dup_x1
        0x5b => Form::Alone(Instr::DupX2), // dup_x2
        0x5c => Form::Alone(Instr::Dup2), // dup2
        0x5d => Form::Alone(Instr::Dup2X1), // dup2_x1
        0x5e => Form::Alone(Instr::Dup2X2), // dup2_x2
        0x5f => Form::Alone(Instr::Swap), // swap
        _ => Form::Skipped(op, 0),
    }
}

/// Arithmetic, 60 to 84.
#[tactic(auto, unfolding(crate::specs::Forms::math_form))]
fn math_form(op: u8) -> Form
    ensures { result ≡ math_form op }
{
    match op {
        0x60 => Form::Alone(Instr::Int2(IntOp::Add)), // iadd
        0x64 => Form::Alone(Instr::Int2(IntOp::Sub)), // isub
        0x68 => Form::Alone(Instr::Int2(IntOp::Mul)), // imul
        0x6c => Form::Alone(Instr::Int2(IntOp::Div)), // idiv
        0x70 => Form::Alone(Instr::Int2(IntOp::Rem)), // irem
        0x74 => Form::Alone(Instr::Neg), // ineg
        0x78 => Form::Alone(Instr::Int2(IntOp::Shl)), // ishl
        0x7a => Form::Alone(Instr::Int2(IntOp::Shr)), // ishr
        0x7c => Form::Alone(Instr::Int2(IntOp::Ushr)), // iushr
        0x7e => Form::Alone(Instr::Int2(IntOp::And)), // iand
        0x80 => Form::Alone(Instr::Int2(IntOp::Or)), // ior
        0x82 => Form::Alone(Instr::Int2(IntOp::Xor)), // ixor
        0x84 => Form::Increment, // iinc
        _ => Form::Skipped(op, 0),
    }
}

/// Conversions, 85 to 93.
#[tactic(auto, unfolding(crate::specs::Forms::conversion_form))]
fn conversion_form(op: u8) -> Form
    ensures { result ≡ conversion_form op }
{
    match op {
        0x91 => Form::Alone(Instr::Narrow(IntCut::Byte)), // i2b
        0x92 => Form::Alone(Instr::Narrow(IntCut::Char)), // i2c
        0x93 => Form::Alone(Instr::Narrow(IntCut::Short)), // i2s
        _ => Form::Skipped(op, 0),
    }
}

/// Comparisons, 94 to a6.
#[tactic(auto, unfolding(crate::specs::Forms::comparison_form))]
fn comparison_form(op: u8) -> Form
    ensures { result ≡ comparison_form op }
{
    match op {
        0x99 => Form::Near(Branch::IfInt(Cond::Eq)), // ifeq
        0x9a => Form::Near(Branch::IfInt(Cond::Ne)), // ifne
        0x9b => Form::Near(Branch::IfInt(Cond::Lt)), // iflt
        0x9c => Form::Near(Branch::IfInt(Cond::Ge)), // ifge
        0x9d => Form::Near(Branch::IfInt(Cond::Gt)), // ifgt
        0x9e => Form::Near(Branch::IfInt(Cond::Le)), // ifle
        0x9f => Form::Near(Branch::IfPair(Cond::Eq)), // if_icmpeq
        0xa0 => Form::Near(Branch::IfPair(Cond::Ne)), // if_icmpne
        0xa1 => Form::Near(Branch::IfPair(Cond::Lt)), // if_icmplt
        0xa2 => Form::Near(Branch::IfPair(Cond::Ge)), // if_icmpge
        0xa3 => Form::Near(Branch::IfPair(Cond::Gt)), // if_icmpgt
        0xa4 => Form::Near(Branch::IfPair(Cond::Le)), // if_icmple
        0xa5 => Form::Near(Branch::IfSame(true)), // if_acmpeq
        0xa6 => Form::Near(Branch::IfSame(false)), // if_acmpne
        _ => Form::Skipped(op, 0),
    }
}

/// Control, a7 to b1.
#[tactic(auto, unfolding(crate::specs::Forms::control_form))]
fn control_form(op: u8) -> Form
    ensures { result ≡ control_form op }
{
    match op {
        0xa7 => Form::Near(Branch::Goto), // goto
        0xa8 => Form::Skipped(op, 2), // jsr
        0xa9 => Form::Skipped(op, 1), // ret
        0xaa => Form::Table, // tableswitch
        0xab => Form::Lookup, // lookupswitch
        0xac => Form::Alone(Instr::ReturnInt), // ireturn
        0xb0 => Form::Alone(Instr::ReturnRef), // areturn
        0xb1 => Form::Alone(Instr::Return), // return
        _ => Form::Skipped(op, 0),
    }
}

/// References, b2 to c3.
#[tactic(auto, unfolding(crate::specs::Forms::reference_form))]
fn reference_form(op: u8) -> Form
    ensures { result ≡ reference_form op }
{
    match op {
        0xb2..=0xb3 => Form::Skipped(op, 2), // getstatic, putstatic
        0xb4 => Form::Entry(Entry::GetField), // getfield
        0xb5 => Form::Entry(Entry::PutField), // putfield
        0xb6 => Form::Entry(Entry::Virtual), // invokevirtual
        0xb7 => Form::Entry(Entry::Special), // invokespecial
        0xb8 => Form::Entry(Entry::Static), // invokestatic
        0xb9 => Form::Interface, // invokeinterface
        0xba => Form::Skipped(op, 4), // invokedynamic
        0xbb => Form::Entry(Entry::New), // new
        0xbc => Form::Primitive, // newarray
        0xbd => Form::Entry(Entry::NewRefs), // anewarray
        0xbe => Form::Alone(Instr::Length), // arraylength
        0xbf => Form::Alone(Instr::Throw), // athrow
        0xc0 => Form::Entry(Entry::Cast), // checkcast
        0xc1 => Form::Entry(Entry::InstanceOf), // instanceof
        _ => Form::Skipped(op, 0),
    }
}

/// Further opcodes, c4 to c9.
#[tactic(auto, unfolding(crate::specs::Forms::extended_form))]
fn extended_form(op: u8) -> Form
    ensures { result ≡ extended_form op }
{
    match op {
        0xc4 => Form::Wide, // wide
        0xc5 => Form::Skipped(op, 3), // multianewarray
        0xc6 => Form::Near(Branch::IfNull(true)), // ifnull
        0xc7 => Form::Near(Branch::IfNull(false)), // ifnonnull
        0xc8 => Form::Far(Branch::Goto), // goto_w
        0xc9 => Form::Skipped(op, 4), // jsr_w
        _ => Form::Skipped(op, 0),
    }
}

/// What stands behind an opcode, if there is such an opcode.
#[tactic(auto, unfolding(crate::specs::Forms::form_of))]
pub fn form_of(op: u8) -> Option<Form>
    ensures { result ≡ form_of op }
{
    let form = match op {
        0x00..=0x14 => constant_form(op),
        0x15..=0x35 => load_form(op),
        0x36..=0x56 => store_form(op),
        0x57..=0x5f => stack_form(op),
        0x60..=0x84 => math_form(op),
        0x85..=0x93 => conversion_form(op),
        0x94..=0xa6 => comparison_form(op),
        0xa7..=0xb1 => control_form(op),
        0xb2..=0xc3 => reference_form(op),
        0xc4..=0xc9 => extended_form(op),
        _ => return None,
    };
    Some(form)
}

/// What stands behind an opcode behind wide, if it may stand there.
#[tactic(auto, unfolding(crate::specs::Forms::wide_form_of))]
pub fn wide_form_of(op: u8) -> Option<WideForm>
    ensures { result ≡ wide_form_of op }
{
    match op {
        0x15 => Some(WideForm::Local(Local::LoadInt)), // iload
        0x16..=0x18 => Some(WideForm::Skipped(op)), // lload, fload, dload
        0x19 => Some(WideForm::Local(Local::LoadRef)), // aload
        0x36 => Some(WideForm::Local(Local::StoreInt)), // istore
        0x37..=0x39 => Some(WideForm::Skipped(op)), // lstore, fstore, dstore
        0x3a => Some(WideForm::Local(Local::StoreRef)), // astore
        0x84 => Some(WideForm::Increment), // iinc
        0xa9 => Some(WideForm::Skipped(op)), // ret
        _ => None,
    }
}
