//! Words are read, each in its one spelling.
ghost use Rattle.std.specs.Prelude.{◌≡◌, MatchOption};
ghost use Rattle.kb_grammar.specs.Lines.{IsRead};
ghost use Rattle.kb_terms.specs.Op.{op_name};
ghost use Rattle.kb_terms.specs.declared.op.Op.{Op};
ghost use Rattle.kb_path_words.specs.Spelled.{IsAmong, SpellsSeen, SpellsStanding, SpellsLength, SpellsOp, SpellsOperand, SpellsOperands, SpellsTerm, SpellsOut, SpellsValue};

use kb_grammar::{cut, is_line, last_number, read_int};
use kb_heap::Value;
use kb_picture::{Length, Operand, Out, Seen, Standing, Term};
use kb_terms::Op;

const OPS: [Op; 18] = [
    Op::Add,
    Op::Sub,
    Op::Mul,
    Op::Div,
    Op::Rem,
    Op::Neg,
    Op::Shl,
    Op::Shr,
    Op::Ushr,
    Op::And,
    Op::Or,
    Op::Xor,
    Op::Byte,
    Op::Char,
    Op::Short,
    Op::Eq,
    Op::Lt,
    Op::Ult,
];

/// What a slot is seen to hold.
#[tactic(auto, unfolding(crate::specs::Words::seen_text))]
pub fn read_seen(word: &[u8]) -> Option<Seen>
    ensures { IsRead SpellsSeen word.now result }
{
    if is_line(word, b"null") {
        return Some(Seen::Null);
    }
    if is_line(word, b"beyond") {
        return Some(Seen::Beyond);
    }
    if let Some(number) = last_number(word, b"v") {
        return Some(Seen::Int(number));
    }
    if let Some(number) = last_number(word, b"l") {
        return Some(Seen::Loc(number));
    }
    Some(Seen::Obj(last_number(word, b"o")?))
}

/// Which object a location is.
#[tactic(auto, unfolding(crate::specs::Words::standing_text))]
pub fn read_standing(word: &[u8]) -> Option<Standing>
    ensures { IsRead SpellsStanding word.now result }
{
    if is_line(word, b"open") {
        return Some(Standing::Open);
    }
    if is_line(word, b"beyond") {
        return Some(Standing::Beyond);
    }
    Some(Standing::Obj(last_number(word, b"o")?))
}

/// The length of an array, with a space before it; nothing else has one.
#[tactic(auto, unfolding(crate::specs::Words::length_text))]
pub fn read_length(text: &[u8]) -> Option<Length>
    ensures { IsRead SpellsLength text.now result }
{
    if is_line(text, b"") {
        return Some(Length::Plain);
    }
    if let Some(number) = last_number(text, b" length ") {
        return Some(Length::Is(number));
    }
    Some(Length::Above(last_number(text, b" above ")?))
}

// The one of these operations that the word names.
fn op_among(ops: &[Op], word: &[u8]) -> Option<Op>
    ensures { MatchOption result ((op : Op) → IsAmong op ops.now → word.now ≡ op_name op → ⊥) (λ op. word.now ≡ op_name op) }
{
    let mut rest = ops;
    while let [op, others @ ..] = rest {
        if is_line(word, op.name().as_bytes()) {
            return Some(*op);
        }
        rest = others;
    }
    None
}

fn read_op(word: &[u8]) -> Option<Op>
    ensures { IsRead SpellsOp word.now result }
{
    op_among(OPS.as_slice(), word)
}

/// A constant, a variable or a term.
#[tactic(auto, unfolding(crate::specs::Words::operand_text))]
pub fn read_operand(word: &[u8]) -> Option<Operand>
    ensures { IsRead SpellsOperand word.now result }
{
    if let Some(number) = last_number(word, b"v") {
        return Some(Operand::Var(number));
    }
    if let Some(number) = last_number(word, b"t") {
        return Some(Operand::Term(number));
    }
    Some(Operand::Const(read_int(word)?))
}

// An operand, and another one behind a space if there is one.
#[tactic(auto, unfolding(crate::specs::Words::second_text))]
fn read_operands(text: &[u8]) -> Option<(Operand, Option<Operand>)>
    ensures { IsRead SpellsOperands text.now result }
{
    let Some((left, right)) = cut(text, b' ') else {
        return Some((read_operand(text)?, None));
    };
    let first = read_operand(left)?;
    let second = read_operand(right)?;
    Some((first, Some(second)))
}

/// An operation and its operands, as many as stand there.
#[tactic(auto, unfolding(crate::specs::Words::term_text))]
pub fn read_term(text: &[u8]) -> Option<Term>
    ensures { IsRead SpellsTerm text.now result }
{
    let (name, operands) = cut(text, b' ')?;
    let op = read_op(name)?;
    let (left, right) = read_operands(operands)?;
    Some(Term { op, left, right })
}

/// A value that a run leaves.
#[tactic(auto, unfolding(crate::specs::Words::out_text))]
pub fn read_out(word: &[u8]) -> Option<Out>
    ensures { IsRead SpellsOut word.now result }
{
    if is_line(word, b"null") {
        return Some(Out::Null);
    }
    if let Some(number) = last_number(word, b"l") {
        return Some(Out::Loc(number));
    }
    if let Some(number) = last_number(word, b"o") {
        return Some(Out::Obj(number));
    }
    if let Some(number) = last_number(word, b"s") {
        return Some(Out::Literal(number));
    }
    if let Some(number) = last_number(word, b"n") {
        return Some(Out::New(number));
    }
    Some(Out::Int(read_operand(word)?))
}

/// A value of an input.
#[tactic(auto, unfolding(crate::specs::Words::value_text))]
pub fn read_value(word: &[u8]) -> Option<Value>
    ensures { IsRead SpellsValue word.now result }
{
    if is_line(word, b"null") {
        return Some(Value::Null);
    }
    if let Some(number) = last_number(word, b"i") {
        return Some(Value::Ref(number));
    }
    Some(Value::Int(read_int(word)?))
}
