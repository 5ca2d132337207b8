//! The parts of a line are written.
ghost use Rattle.std.specs.Prelude.{◌≡◌, ◌++◌, OnOk};
ghost use Rattle.std.specs.Fmt.{decimal};
ghost use Rattle.kb_path_words.specs.Words.{seen_text, standing_text, length_text, operand_text, second_text, term_text, out_text, value_text};

use crate::NoMemory;
use crate::text::Text;
use kb_heap::Value;
use kb_picture::{Length, Operand, Out, Seen, Standing, Term};

/// A number behind a letter or the like.
pub fn write_numbered(text: &mut Text, front: &str, number: u32) -> Result<(), NoMemory>
    ensures { OnOk result (text.new ≡ text.old ++ (front.now ++ decimal number)) }
{
    text.put(front)?;
    text.number(number)
}

#[tactic(auto, unfolding(crate::specs::Words::seen_text))]
pub fn write_seen(text: &mut Text, seen: Seen) -> Result<(), NoMemory>
    ensures { OnOk result (text.new ≡ text.old ++ seen_text seen) }
{
    match seen {
        Seen::Int(number) => write_numbered(text, "v", number),
        Seen::Null => text.put("null"),
        Seen::Loc(number) => write_numbered(text, "l", number),
        Seen::Obj(number) => write_numbered(text, "o", number),
        Seen::Beyond => text.put("beyond"),
    }
}

#[tactic(auto, unfolding(crate::specs::Words::standing_text))]
pub fn write_standing(text: &mut Text, standing: Standing) -> Result<(), NoMemory>
    ensures { OnOk result (text.new ≡ text.old ++ standing_text standing) }
{
    match standing {
        Standing::Open => text.put("open"),
        Standing::Obj(number) => write_numbered(text, "o", number),
        Standing::Beyond => text.put("beyond"),
    }
}

#[tactic(auto, unfolding(crate::specs::Words::length_text))]
pub fn write_length(text: &mut Text, length: Length) -> Result<(), NoMemory>
    ensures { OnOk result (text.new ≡ text.old ++ length_text length) }
{
    match length {
        Length::Plain => Ok(()),
        Length::Is(n) => write_numbered(text, " length ", n),
        Length::Above(n) => write_numbered(text, " above ", n),
    }
}

#[tactic(auto, unfolding(crate::specs::Words::operand_text))]
fn write_operand(text: &mut Text, operand: Operand) -> Result<(), NoMemory>
    ensures { OnOk result (text.new ≡ text.old ++ operand_text operand) }
{
    match operand {
        Operand::Const(value) => text.int(value),
        Operand::Var(number) => write_numbered(text, "v", number),
        Operand::Term(number) => write_numbered(text, "t", number),
    }
}

#[tactic(auto, unfolding(crate::specs::Words::second_text))]
fn write_second(text: &mut Text, operand: Option<Operand>) -> Result<(), NoMemory>
    ensures { OnOk result (text.new ≡ text.old ++ second_text operand) }
{
    match operand {
        None => Ok(()),
        Some(operand) => {
            text.put(" ")?;
            write_operand(text, operand)
        }
    }
}

/// An operation and its operands.
#[tactic(auto, unfolding(crate::specs::Words::term_text))]
pub fn write_term(text: &mut Text, term: &Term) -> Result<(), NoMemory>
    ensures { OnOk result (text.new ≡ text.old ++ term_text term.now) }
{
    text.put(term.op.name())?;
    text.put(" ")?;
    write_operand(text, term.left)?;
    write_second(text, term.right)
}

#[tactic(auto, unfolding(crate::specs::Words::out_text))]
pub fn write_out(text: &mut Text, out: &Out) -> Result<(), NoMemory>
    ensures { OnOk result (text.new ≡ text.old ++ out_text out.now) }
{
    match *out {
        Out::Int(operand) => write_operand(text, operand),
        Out::Null => text.put("null"),
        Out::Loc(number) => write_numbered(text, "l", number),
        Out::Obj(number) => write_numbered(text, "o", number),
        Out::Literal(number) => write_numbered(text, "s", number),
        Out::New(number) => write_numbered(text, "n", number),
    }
}

/// A value of an input.
#[tactic(auto, unfolding(crate::specs::Words::value_text))]
pub fn write_value(text: &mut Text, value: &Value) -> Result<(), NoMemory>
    ensures { OnOk result (text.new ≡ text.old ++ value_text value.now) }
{
    match *value {
        Value::Int(value) => text.int(value),
        Value::Null => text.put("null"),
        Value::Ref(object) => write_numbered(text, "i", object),
    }
}
