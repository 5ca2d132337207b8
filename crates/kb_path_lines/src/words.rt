//! The words of the lines: slots, what is seen there, operands and values, as reports and tests have them.

use kb_heap::{Bound, Value};
use kb_names::{ExactType, Spelling, read_name, read_type_as};
use kb_picture::{Operand, Origin, Out, Seen, Standing};
use kb_table::{RowResult, RowStop, read_int, read_number};
use kb_terms::Op;
use std::alloc::Global;

/// Every operation.
const OPS: [Op; 18] = [
    Op::Add,
    Op::Sub,
    Op::Mul,
    Op::Div,
    Op::Rem,
    Op::Neg,
    Op::Shl,
    Op::Shr,
    Op::Ushr,
    Op::And,
    Op::Or,
    Op::Xor,
    Op::Byte,
    Op::Char,
    Op::Short,
    Op::Eq,
    Op::Lt,
    Op::Ult,
];

/// The number behind a letter, as in `o3`.
pub fn numbered(word: &str, letter: &str) -> Option<u32> {
    let digits = word.strip_prefix(letter)?;
    digits.parse::<u32>().ok()
}

/// The number of a location, as in `l0`.
pub fn read_location(word: &str) -> Option<u32> {
    numbered(word, "l")
}

/// `a0` for an argument, `o0.1` for a slot by its number, `o0[1]` for an element.
pub fn read_slot(word: &str) -> RowResult<Origin> {
    if let Some(argument) = numbered(word, "a") {
        return Ok(Origin::Arg(argument));
    }
    match word.split_once('.') {
        Some((object, slot)) => Ok(Origin::Field(read_object(object)?, read_number(slot)?)),
        None => read_element(word),
    }
}

fn read_element(word: &str) -> RowResult<Origin> {
    let Some((array, index)) = word.split_once('[') else {
        return Err(RowStop::Malformed);
    };
    let Some(index) = index.strip_suffix("]") else {
        return Err(RowStop::Malformed);
    };
    Ok(Origin::Element(read_object(array)?, read_number(index)?))
}

/// `o0` for an object of the picture.
fn read_object(word: &str) -> RowResult<u32> {
    match numbered(word, "o") {
        Some(object) => Ok(object),
        None => Err(RowStop::Malformed),
    }
}

pub fn read_seen(word: &str) -> RowResult<Seen> {
    match word.as_bytes() {
        b"null" => Ok(Seen::Null),
        b"beyond" => Ok(Seen::Beyond),
        _ => read_seen_number(word),
    }
}

fn read_seen_number(word: &str) -> RowResult<Seen> {
    if let Some(variable) = numbered(word, "v") {
        return Ok(Seen::Int(variable));
    }
    match read_location(word) {
        Some(loc) => Ok(Seen::Loc(loc)),
        None => Ok(Seen::Obj(read_object(word)?)),
    }
}

pub fn read_standing(word: &str) -> RowResult<Standing> {
    match word.as_bytes() {
        b"open" => Ok(Standing::Open),
        b"beyond" => Ok(Standing::Beyond),
        _ => Ok(Standing::Obj(read_object(word)?)),
    }
}

pub fn read_operand(word: &str) -> RowResult<Operand> {
    if let Some(variable) = numbered(word, "v") {
        return Ok(Operand::Var(variable));
    }
    match numbered(word, "t") {
        Some(term) => Ok(Operand::Term(term)),
        None => Ok(Operand::Const(read_int(word)?)),
    }
}

pub fn read_out(word: &str) -> RowResult<Out> {
    if word == "null" {
        return Ok(Out::Null);
    }
    match read_reference(word) {
        Some(out) => Ok(out),
        None => Ok(Out::Int(read_operand(word)?)),
    }
}

/// A location, an object of the picture, a literal, or an object that the run made.
fn read_reference(word: &str) -> Option<Out> {
    if let Some(loc) = read_location(word) {
        return Some(Out::Loc(loc));
    }
    if let Some(object) = numbered(word, "o") {
        return Some(Out::Obj(object));
    }
    if let Some(literal) = numbered(word, "s") {
        return Some(Out::Literal(literal));
    }
    let made = numbered(word, "n")?;
    Some(Out::New(made))
}

pub fn read_op(word: &str) -> RowResult<Op> {
    match OPS.iter().find(|op| op.name() == word) {
        Some(op) => Ok(*op),
        None => Err(RowStop::Malformed),
    }
}

pub fn read_bound(word: &str) -> RowResult<Bound> {
    match word.as_bytes() {
        b"k" => Ok(Bound::K),
        b"array" => Ok(Bound::Array),
        b"alloc" => Ok(Bound::Alloc),
        b"loops" => Ok(Bound::Loops),
        b"depth" => Ok(Bound::Depth),
        b"steps" => Ok(Bound::Steps),
        _ => Err(RowStop::Malformed),
    }
}

/// A class by its name, or an array by its descriptor.
pub fn read_exact(alloc: Global, word: &str) -> RowResult<ExactType> {
    match word.strip_prefix("[") {
        Some(component) => read_array(alloc, component),
        None => read_class(alloc, word),
    }
}

fn read_array(alloc: Global, component: &str) -> RowResult<ExactType> {
    match read_type_as(alloc, Spelling::Escaped, component.as_bytes()) {
        Ok(component) => Ok(ExactType::Array(component)),
        Err(_) => Err(RowStop::Malformed),
    }
}

fn read_class(alloc: Global, word: &str) -> RowResult<ExactType> {
    match read_name(alloc, word.as_bytes()) {
        Ok(name) => Ok(ExactType::Class(name)),
        Err(_) => Err(RowStop::Malformed),
    }
}

/// `i0` for an object of the input.
pub fn read_value(word: &str) -> RowResult<Value> {
    if word == "null" {
        return Ok(Value::Null);
    }
    match numbered(word, "i") {
        Some(object) => Ok(Value::Ref(object)),
        None => Ok(Value::Int(read_int(word)?)),
    }
}
