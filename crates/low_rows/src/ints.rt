//! Operations on ints.

use crate::told::append_signed;
use kb_arith::{
    add, and, div, eq, lt, mul, neg, or, rem, shl, shr, sub, to_byte, to_char, to_short, ult, ushr,
    xor,
};
use kb_table::{RowResult, RowStop, read_int};
use std::alloc::Global;

/// Appends what the operation makes of its ints.
pub fn append_int(alloc: Global, asked: &[String], into: &mut Vec<u8>) -> RowResult<()> {
    let made = match asked {
        [operation, value] => of_one(operation.as_str(), read_int(value.as_str())?)?,
        [operation, left, right] => {
            let left = read_int(left.as_str())?;
            let right = read_int(right.as_str())?;
            of_two(operation.as_str(), left, right)?
        }
        _ => return Err(RowStop::Malformed),
    };
    append_signed(alloc, Some(made), into)
}

fn of_one(operation: &str, value: i32) -> RowResult<i32> {
    match operation {
        "neg" => Ok(neg(value)),
        "to_byte" => Ok(to_byte(value)),
        "to_char" => Ok(to_char(value)),
        "to_short" => Ok(to_short(value)),
        _ => Err(RowStop::Malformed),
    }
}

fn of_two(operation: &str, left: i32, right: i32) -> RowResult<i32> {
    match operation {
        "add" => Ok(add(left, right)),
        "sub" => Ok(sub(left, right)),
        "mul" => Ok(mul(left, right)),
        "div" => Ok(div(left, right)),
        "rem" => Ok(rem(left, right)),
        "shl" => Ok(shl(left, right)),
        "shr" => Ok(shr(left, right)),
        "ushr" => Ok(ushr(left, right)),
        _ => of_bits(operation, left, right),
    }
}

/// Bit by bit, or a comparison.
fn of_bits(operation: &str, left: i32, right: i32) -> RowResult<i32> {
    match operation {
        "and" => Ok(and(left, right)),
        "or" => Ok(or(left, right)),
        "xor" => Ok(xor(left, right)),
        "eq" => Ok(eq(left, right)),
        "lt" => Ok(lt(left, right)),
        "ult" => Ok(ult(left, right)),
        _ => Err(RowStop::Malformed),
    }
}
