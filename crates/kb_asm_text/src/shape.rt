//! Mnemonics, and what stands behind each.

ghost use Rattle.std.specs.Prelude.{◌≡◌, Some};
ghost use Rattle.kb_grammar.specs.Lines.{IsRead};
ghost use Rattle.kb_code.specs.Forms.{form_of, constant_form, load_form, store_form, stack_form, math_form, conversion_form, comparison_form, control_form, reference_form, extended_form};
ghost use Rattle.kb_asm_text.specs.Shapes.{shape_of, IsOpOf};

use kb_code::op_name;
use kb_grammar::is_line;

/// What kind of words stand behind a mnemonic.
#[derive(Clone, Copy)]
pub enum Shape {
    /// No line has this opcode.
    Unwritten,
    Alone,
    Byte,
    Short,
    Constant,
    Local,
    Increment,
    Field,
    Method,
    New,
    Type,
    Primitive,
    Branch,
    Table,
    Lookup,
}

/// The opcode of that mnemonic.
pub(crate) fn op_of(name: &[u8]) -> Option<u8>
    ensures { IsRead IsOpOf name.now result }
{
    for op in 0..=0xc9u8 {
        if let Some(found) = op_name(op) {
            if is_line(name, found.as_bytes()) {
                return Some(op);
            }
        }
    }
    None
}

#[tactic(auto, unfolding(kb_code::specs::Forms::constant_form))]
fn constant_shape(op: u8) -> Shape
    ensures { result ≡ shape_of (Some (constant_form op)) }
{
    match op {
        0x00..=0x08 => Shape::Alone,
        0x10 => Shape::Byte,
        0x11 => Shape::Short,
        0x12..=0x13 => Shape::Constant,
        _ => Shape::Unwritten,
    }
}

#[tactic(auto, unfolding(kb_code::specs::Forms::load_form))]
fn load_shape(op: u8) -> Shape
    ensures { result ≡ shape_of (Some (load_form op)) }
{
    match op {
        0x15 | 0x19 => Shape::Local,
        0x1a..=0x1d | 0x2a..=0x2e | 0x32..=0x33 => Shape::Alone,
        _ => Shape::Unwritten,
    }
}

#[tactic(auto, unfolding(kb_code::specs::Forms::store_form))]
fn store_shape(op: u8) -> Shape
    ensures { result ≡ shape_of (Some (store_form op)) }
{
    match op {
        0x36 | 0x3a => Shape::Local,
        0x3b..=0x3e | 0x4b..=0x4f | 0x53..=0x54 => Shape::Alone,
        _ => Shape::Unwritten,
    }
}

#[tactic(auto, unfolding(kb_code::specs::Forms::stack_form))]
fn stack_shape(op: u8) -> Shape
    ensures { result ≡ shape_of (Some (stack_form op)) }
{
    match op {
        0x57..=0x5f => Shape::Alone,
        _ => Shape::Unwritten,
    }
}

#[tactic(auto, unfolding(kb_code::specs::Forms::math_form))]
fn math_shape(op: u8) -> Shape
    ensures { result ≡ shape_of (Some (math_form op)) }
{
    match op {
        0x60 | 0x64 | 0x68 | 0x6c | 0x70 | 0x74 | 0x78 | 0x7a | 0x7c | 0x7e | 0x80 | 0x82 => {
            Shape::Alone
        }
        0x84 => Shape::Increment,
        _ => Shape::Unwritten,
    }
}

#[tactic(auto, unfolding(kb_code::specs::Forms::conversion_form))]
fn conversion_shape(op: u8) -> Shape
    ensures { result ≡ shape_of (Some (conversion_form op)) }
{
    match op {
        0x91..=0x93 => Shape::Alone,
        _ => Shape::Unwritten,
    }
}

#[tactic(auto, unfolding(kb_code::specs::Forms::comparison_form))]
fn comparison_shape(op: u8) -> Shape
    ensures { result ≡ shape_of (Some (comparison_form op)) }
{
    match op {
        0x99..=0xa6 => Shape::Branch,
        _ => Shape::Unwritten,
    }
}

#[tactic(auto, unfolding(kb_code::specs::Forms::control_form))]
fn control_shape(op: u8) -> Shape
    ensures { result ≡ shape_of (Some (control_form op)) }
{
    match op {
        0xa7 => Shape::Branch,
        0xaa => Shape::Table,
        0xab => Shape::Lookup,
        0xac | 0xb0 | 0xb1 => Shape::Alone,
        _ => Shape::Unwritten,
    }
}

#[tactic(auto, unfolding(kb_code::specs::Forms::reference_form))]
fn reference_shape(op: u8) -> Shape
    ensures { result ≡ shape_of (Some (reference_form op)) }
{
    match op {
        0xb4..=0xb5 => Shape::Field,
        0xb6..=0xb9 => Shape::Method,
        0xbb => Shape::New,
        0xbc => Shape::Primitive,
        0xbd | 0xc0 | 0xc1 => Shape::Type,
        0xbe..=0xbf => Shape::Alone,
        _ => Shape::Unwritten,
    }
}

#[tactic(auto, unfolding(kb_code::specs::Forms::extended_form))]
fn extended_shape(op: u8) -> Shape
    ensures { result ≡ shape_of (Some (extended_form op)) }
{
    match op {
        0xc6..=0xc8 => Shape::Branch,
        _ => Shape::Unwritten,
    }
}

/// What stands behind the mnemonic of that opcode.
#[tactic(auto, unfolding(kb_code::specs::Forms::form_of))]
pub(crate) fn shape_at(op: u8) -> Shape
    ensures { result ≡ shape_of (form_of op) }
{
    match op {
        0x00..=0x14 => constant_shape(op),
        0x15..=0x35 => load_shape(op),
        0x36..=0x56 => store_shape(op),
        0x57..=0x5f => stack_shape(op),
        0x60..=0x84 => math_shape(op),
        0x85..=0x93 => conversion_shape(op),
        0x94..=0xa6 => comparison_shape(op),
        0xa7..=0xb1 => control_shape(op),
        0xb2..=0xc3 => reference_shape(op),
        0xc4..=0xc9 => extended_shape(op),
        _ => Shape::Unwritten,
    }
}
