//! The mnemonics of opcodes.

ghost use Rattle.std.specs.Prelude.{◌≡◌, ◌↔◌, IsSome, IsTrue};
ghost use Rattle.std.specs.Option.{option_copied};
ghost use Rattle.kb_code.specs.Names.{name_of, is_looked_at, constant_name, load_name, store_name, stack_name, math_name, conversion_name, comparison_name, control_name, reference_name, extended_name};

#[tactic(auto, unfolding(crate::specs::Names::constant_name))]
fn constant_name(op: u8) -> Option<&'static str>
    ensures { option_copied result ≡ constant_name op }
{
    match op {
        0x00 => Some("nop"),
        0x01 => Some("aconst_null"),
        0x02 => Some("iconst_m1"),
        0x03 => Some("iconst_0"),
        0x04 => Some("iconst_1"),
        0x05 => Some("iconst_2"),
        0x06 => Some("iconst_3"),
        0x07 => Some("iconst_4"),
        0x08 => Some("iconst_5"),
        0x10 => Some("bipush"),
        0x11 => Some("sipush"),
        0x12 => Some("ldc"),
        0x13 => Some("ldc_w"),
        _ => None,
    }
}

#[tactic(auto, unfolding(crate::specs::Names::load_name))]
fn load_name(op: u8) -> Option<&'static str>
    ensures { option_copied result ≡ load_name op }
{
    match op {
        0x15 => Some("iload"),
        0x19 => Some("aload"),
        0x1a => Some("iload_0"),
        0x1b => Some("iload_1"),
        0x1c => Some("iload_2"),
        0x1d => Some("iload_3"),
        0x2a => Some("aload_0"),
        0x2b => Some("aload_1"),
        0x2c => Some("aload_2"),
        0x2d => Some("aload_3"),
        0x2e => Some("iaload"),
        0x32 => Some("aaload"),
        0x33 => Some("baload"),
        _ => None,
    }
}

#[tactic(auto, unfolding(crate::specs::Names::store_name))]
fn store_name(op: u8) -> Option<&'static str>
    ensures { option_copied result ≡ store_name op }
{
    match op {
        0x36 => Some("istore"),
        0x3a => Some("astore"),
        0x3b => Some("istore_0"),
        0x3c => Some("istore_1"),
        0x3d => Some("istore_2"),
        0x3e => Some("istore_3"),
        0x4b => Some("astore_0"),
        0x4c => Some("astore_1"),
        0x4d => Some("astore_2"),
        0x4e => Some("astore_3"),
        0x4f => Some("iastore"),
        0x53 => Some("aastore"),
        0x54 => Some("bastore"),
        _ => None,
    }
}

#[tactic(auto, unfolding(crate::specs::Names::stack_name))]
fn stack_name(op: u8) -> Option<&'static str>
    ensures { option_copied result ≡ stack_name op }
{
    match op {
        0x57 => Some("pop"),
        0x58 => Some("pop2"),
        0x59 => Some("dup"),
        0x5a => Some("dup_x1"),
        0x5b => Some("dup_x2"),
        0x5c => Some("dup2"),
        0x5d => Some("dup2_x1"),
        0x5e => Some("dup2_x2"),
        0x5f => Some("swap"),
        _ => None,
    }
}

#[tactic(auto, unfolding(crate::specs::Names::math_name))]
fn math_name(op: u8) -> Option<&'static str>
    ensures { option_copied result ≡ math_name op }
{
    match op {
        0x60 => Some("iadd"),
        0x64 => Some("isub"),
        0x68 => Some("imul"),
        0x6c => Some("idiv"),
        0x70 => Some("irem"),
        0x74 => Some("ineg"),
        0x78 => Some("ishl"),
        0x7a => Some("ishr"),
        0x7c => Some("iushr"),
        0x7e => Some("iand"),
        0x80 => Some("ior"),
        0x82 => Some("ixor"),
        0x84 => Some("iinc"),
        _ => None,
    }
}

#[tactic(auto, unfolding(crate::specs::Names::conversion_name))]
fn conversion_name(op: u8) -> Option<&'static str>
    ensures { option_copied result ≡ conversion_name op }
{
    match op {
        0x91 => Some("i2b"),
        0x92 => Some("i2c"),
        0x93 => Some("i2s"),
        _ => None,
    }
}

#[tactic(auto, unfolding(crate::specs::Names::comparison_name))]
fn comparison_name(op: u8) -> Option<&'static str>
    ensures { option_copied result ≡ comparison_name op }
{
    match op {
        0x99 => Some("ifeq"),
        0x9a => Some("ifne"),
        0x9b => Some("iflt"),
        0x9c => Some("ifge"),
        0x9d => Some("ifgt"),
        0x9e => Some("ifle"),
        0x9f => Some("if_icmpeq"),
        0xa0 => Some("if_icmpne"),
        0xa1 => Some("if_icmplt"),
        0xa2 => Some("if_icmpge"),
        0xa3 => Some("if_icmpgt"),
        0xa4 => Some("if_icmple"),
        0xa5 => Some("if_acmpeq"),
        0xa6 => Some("if_acmpne"),
        _ => None,
    }
}

#[tactic(auto, unfolding(crate::specs::Names::control_name))]
fn control_name(op: u8) -> Option<&'static str>
    ensures { option_copied result ≡ control_name op }
{
    match op {
        0xa7 => Some("goto"),
        0xaa => Some("tableswitch"),
        0xab => Some("lookupswitch"),
        0xac => Some("ireturn"),
        0xb0 => Some("areturn"),
        0xb1 => Some("return"),
        _ => None,
    }
}

#[tactic(auto, unfolding(crate::specs::Names::reference_name))]
fn reference_name(op: u8) -> Option<&'static str>
    ensures { option_copied result ≡ reference_name op }
{
    match op {
        0xb4 => Some("getfield"),
        0xb5 => Some("putfield"),
        0xb6 => Some("invokevirtual"),
        0xb7 => Some("invokespecial"),
        0xb8 => Some("invokestatic"),
        0xb9 => Some("invokeinterface"),
        0xbb => Some("new"),
        0xbc => Some("newarray"),
        0xbd => Some("anewarray"),
        0xbe => Some("arraylength"),
        0xbf => Some("athrow"),
        0xc0 => Some("checkcast"),
        0xc1 => Some("instanceof"),
        _ => None,
    }
}

#[tactic(auto, unfolding(crate::specs::Names::extended_name))]
fn extended_name(op: u8) -> Option<&'static str>
    ensures { option_copied result ≡ extended_name op }
{
    match op {
        0xc4 => Some("wide"),
        0xc6 => Some("ifnull"),
        0xc7 => Some("ifnonnull"),
        0xc8 => Some("goto_w"),
        _ => None,
    }
}

#[tactic(auto, unfolding(crate::specs::Names::name_of))]
fn name_of(op: u8) -> Option<&'static str>
    ensures { option_copied result ≡ name_of op }
{
    match op {
        0x00..=0x14 => constant_name(op),
        0x15..=0x35 => load_name(op),
        0x36..=0x56 => store_name(op),
        0x57..=0x5f => stack_name(op),
        0x60..=0x84 => math_name(op),
        0x85..=0x93 => conversion_name(op),
        0x94..=0xa6 => comparison_name(op),
        0xa7..=0xb1 => control_name(op),
        0xb2..=0xc3 => reference_name(op),
        0xc4..=0xc9 => extended_name(op),
        _ => None,
    }
}

/// The mnemonic of an opcode whose instruction is looked at, and None for any other. It takes no memory.
///
/// Source: JVMS 8 chapter 7.
pub fn op_name(op: u8) -> Option<&'static str>
    ensures name { option_copied result ≡ name_of op }
    // Other opcodes are skipped by their length, or there is none.
    ensures some { IsSome result ↔ IsTrue (is_looked_at op) }
{
    name_of(op)
}
