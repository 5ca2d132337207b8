//! Arithmetic on ints as the Java virtual machine computes it: each function is total on `i32` and meets the
//! definition of the same name in `specs/Word.antt`.
//!
//! Source: The Java Virtual Machine Specification, Java SE 8 Edition, section 6.5 (iadd to ixor, i2b, i2c, i2s).
#![tactic(auto)]

ghost use Rattle.std.specs.Prelude.{◌≡◌, ◌%◌};
ghost use Rattle.kb_arith.specs.Word.{word_add, word_sub, word_mul, word_div, word_rem, word_neg, word_shl, word_shr, word_ushr, word_and, word_or, word_xor, word_byte, word_char, word_short, word_eq, word_lt, word_ult, bits_of};

/// iadd: the sum, brought to 32 bits.
#[tactic(auto, using(std::proofs::lemmas::Int::wraps), unfolding(crate::specs::Word::word_add))]
pub fn add(left: i32, right: i32) -> i32
    ensures { result ≡ word_add left right }
{
    left.wrapping_add(right)
}

/// isub: the difference, brought to 32 bits.
#[tactic(auto, using(std::proofs::lemmas::Int::wraps), unfolding(crate::specs::Word::word_sub))]
pub fn sub(left: i32, right: i32) -> i32
    ensures { result ≡ word_sub left right }
{
    left.wrapping_sub(right)
}

/// imul: the product, brought to 32 bits.
#[tactic(auto, unfolding(crate::specs::Word::word_mul))]
pub fn mul(left: i32, right: i32) -> i32
    ensures { result ≡ word_mul left right }
{
    left.wrapping_mul(right)
}

/// idiv: the quotient, rounded toward zero; the minimum by -1 is the minimum. By 0 it is 0, where idiv throws.
#[tactic(auto, unfolding(crate::specs::Word::word_div))]
pub fn div(left: i32, right: i32) -> i32
    ensures { result ≡ word_div left right }
{
    if right == 0 {
        0
    } else {
        left.wrapping_div(right)
    }
}

/// irem: the remainder, with the sign of `left`; the minimum by -1 leaves 0. By 0 it is 0, where irem throws.
#[tactic(auto, unfolding(crate::specs::Word::word_rem))]
pub fn rem(left: i32, right: i32) -> i32
    ensures { result ≡ word_rem left right }
{
    if right == 0 {
        0
    } else {
        left.wrapping_rem(right)
    }
}

/// ineg: the negation, brought to 32 bits.
#[tactic(auto, using(std::proofs::lemmas::Int::wraps), unfolding(crate::specs::Word::word_neg))]
pub fn neg(value: i32) -> i32
    ensures { result ≡ word_neg value }
{
    value.wrapping_neg()
}

/// ishl: a shift to the left by the low five bits of `count`.
#[tactic(auto, unfolding(crate::specs::Word::word_shl))]
pub fn shl(value: i32, count: i32) -> i32
    ensures { result ≡ word_shl value count }
{
    value << shift_count(count)
}

/// ishr: a shift to the right by the low five bits of `count`, which keeps the sign.
#[tactic(auto, unfolding(crate::specs::Word::word_shr))]
pub fn shr(value: i32, count: i32) -> i32
    ensures { result ≡ word_shr value count }
{
    value >> shift_count(count)
}

/// iushr: a shift to the right by the low five bits of `count`, which shifts zeros in.
#[tactic(auto, unfolding(crate::specs::Word::word_ushr))]
pub fn ushr(value: i32, count: i32) -> i32
    ensures { result ≡ word_ushr value count }
{
    (value.cast_unsigned() >> shift_count(count)).cast_signed()
}

/// iand.
#[tactic(auto, unfolding(crate::specs::Word::word_and))]
pub fn and(left: i32, right: i32) -> i32
    ensures { result ≡ word_and left right }
{
    left & right
}

/// ior.
#[tactic(auto, unfolding(crate::specs::Word::word_or))]
pub fn or(left: i32, right: i32) -> i32
    ensures { result ≡ word_or left right }
{
    left | right
}

/// ixor.
#[tactic(auto, unfolding(crate::specs::Word::word_xor))]
pub fn xor(left: i32, right: i32) -> i32
    ensures { result ≡ word_xor left right }
{
    left ^ right
}

/// i2b: the low 8 bits with their sign, from -128 to 127.
#[tactic(auto, unfolding(crate::specs::Word::word_byte))]
pub fn to_byte(value: i32) -> i32
    ensures { result ≡ word_byte value }
{
    let low = (value.cast_unsigned() % 256) as u8;
    low.cast_signed() as i32
}

/// i2c: the low 16 bits without sign, from 0 to 65,535.
#[tactic(auto, unfolding(crate::specs::Word::word_char))]
pub fn to_char(value: i32) -> i32
    ensures { result ≡ word_char value }
{
    (value.cast_unsigned() % 65536) as i32
}

/// i2s: the low 16 bits with their sign, from -32,768 to 32,767.
#[tactic(auto, unfolding(crate::specs::Word::word_short))]
pub fn to_short(value: i32) -> i32
    ensures { result ≡ word_short value }
{
    let low = (value.cast_unsigned() % 65536) as u16;
    low.cast_signed() as i32
}

/// 1 where the two are equal, else 0.
#[tactic(auto, unfolding(crate::specs::Word::word_eq))]
pub fn eq(left: i32, right: i32) -> i32
    ensures { result ≡ word_eq left right }
{
    if left == right { 1 } else { 0 }
}

/// 1 where `left` is below `right`, else 0.
#[tactic(auto, unfolding(crate::specs::Word::word_lt))]
pub fn lt(left: i32, right: i32) -> i32
    ensures { result ≡ word_lt left right }
{
    if left < right { 1 } else { 0 }
}

/// 1 where the bits of `left`, read without sign, are below those of `right`, else 0.
#[tactic(auto, unfolding(crate::specs::Word::word_ult))]
pub fn ult(left: i32, right: i32) -> i32
    ensures { result ≡ word_ult left right }
{
    if left.cast_unsigned() < right.cast_unsigned() {
        1
    } else {
        0
    }
}

// The low five bits of a count.
fn shift_count(count: i32) -> u32
    ensures { result ≡ bits_of count % 32 }
{
    count.cast_unsigned() % 32
}
