//! The operations of terms.
ghost use Rattle.std.specs.Prelude.{◌≡◌};
ghost use Rattle.kb_terms.specs.Op.{is_binary, op_value, op_name};

/// An operation on ints. Each is the instruction of its name (The Java Virtual Machine Specification, Java SE 8
/// Edition, section 6.5); `Byte`, `Char` and `Short` are i2b, i2c and i2s.
/// `Eq`, `Lt` and `Ult` give 1 or 0; `Ult` compares without sign.
#[derive(Clone, Copy, PartialEq, Eq, Hash)]
pub enum Op {
    Add,
    Sub,
    Mul,
    Div,
    Rem,
    Neg,
    Shl,
    Shr,
    Ushr,
    And,
    Or,
    Xor,
    Byte,
    Char,
    Short,
    Eq,
    Lt,
    Ult,
}

impl Op {
    /// Whether the operation has two operands; the others have one.
    pub fn is_binary(self) -> bool
        ensures { result ≡ is_binary self }
    {
        !matches!(self, Op::Neg | Op::Byte | Op::Char | Op::Short)
    }

    /// The operation's name in texts.
    pub fn name(self) -> &'static str
        ensures { result.now ≡ op_name self }
    {
        match self {
            Op::Add => "add",
            Op::Sub => "sub",
            Op::Mul => "mul",
            Op::Div => "div",
            Op::Rem => "rem",
            Op::Neg => "neg",
            Op::Shl => "shl",
            Op::Shr => "shr",
            Op::Ushr => "ushr",
            Op::And => "and",
            Op::Or => "or",
            Op::Xor => "xor",
            Op::Byte => "byte",
            Op::Char => "char",
            Op::Short => "short",
            Op::Eq => "eq",
            Op::Lt => "lt",
            Op::Ult => "ult",
        }
    }

    /// The operation's result, by `kb_arith`. An operation with one operand leaves `right` aside.
    pub fn apply(self, left: i32, right: i32) -> i32
        ensures { result ≡ op_value self left right }
    {
        match self {
            Op::Add => kb_arith::add(left, right),
            Op::Sub => kb_arith::sub(left, right),
            Op::Mul => kb_arith::mul(left, right),
            Op::Div => kb_arith::div(left, right),
            Op::Rem => kb_arith::rem(left, right),
            Op::Neg => kb_arith::neg(left),
            Op::Shl => kb_arith::shl(left, right),
            Op::Shr => kb_arith::shr(left, right),
            Op::Ushr => kb_arith::ushr(left, right),
            Op::And => kb_arith::and(left, right),
            Op::Or => kb_arith::or(left, right),
            Op::Xor => kb_arith::xor(left, right),
            Op::Byte => kb_arith::to_byte(left),
            Op::Char => kb_arith::to_char(left),
            Op::Short => kb_arith::to_short(left),
            Op::Eq => kb_arith::eq(left, right),
            Op::Lt => kb_arith::lt(left, right),
            Op::Ult => kb_arith::ult(left, right),
        }
    }
}
