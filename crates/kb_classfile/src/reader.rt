//! Numbers and runs of bytes, from left to right.

ghost use Rattle.std.specs.Prelude.{◌≡◌, ◌↔◌, ◌^◌, ◌+◌, ◌<◌, ◌≤◌, IsTrue, IfOk, length};
ghost use Rattle.kb_classfile.specs.Reading.{Gives, short, u1, u2, u4};
ghost use Rattle.kb_grammar.specs.Reading.{run};

use crate::refusal::ClassRefusal;
use byteorder::{BigEndian, ByteOrder};
use std::marker::Model;

/// Where a reader stands: the bytes that are left, and how many stand before them.
#[derive(Drop)]
pub struct Reader<'a> {
    rest: &'a [u8],
    at: usize,
}

impl<'a> Model for Reader<'a> {
    ghost use Rattle.std.specs.Prelude.{◌+◌, ◌^◌, ◌<◌, length};
    ghost use Rattle.kb_grammar.specs.Reading.{Place};

    ghost Value = { Place };

    ghost view = { λ reader. record { rest = reader.rest.now; at = reader.at } };

    ghost invariant = { λ reader. reader.at + length reader.rest.now < 2 ^ 63 };
}

impl<'a> Reader<'a> {
    /// A reader of bytes, of which the first has the offset `at`.
    pub fn new(bytes: &'a [u8], at: usize) -> Reader<'a>
        requires { at + length bytes.now < 2 ^ 63 }
        ensures { result ≡ record { rest = bytes.now; at = at } }
    {
        Reader { rest: bytes, at }
    }

    /// How many bytes stand before the reader.
    pub fn offset(&self) -> usize
        ensures at { result ≡ self.now.at }
        ensures fits { result + length self.now.rest < 2 ^ 63 }
    {
        self.at
    }

    /// Whether nothing is left.
    pub fn is_empty(&self) -> bool
        ensures { IsTrue result ↔ (length self.now.rest ≡ 0) }
    {
        self.rest.is_empty()
    }

    /// A run of `n` bytes.
    #[tactic(auto, unfolding(kb_grammar::specs::Reading::run))]
    pub fn run(&mut self, n: usize) -> Result<&'a [u8], ClassRefusal>
        ensures read { Gives (λ text. (text.now, self.new)) result (run short n self.old) }
        ensures len { IfOk result (λ text. length text.now ≡ n) }
        ensures within { IfOk result (λ text. length text.now ≤ length self.old.rest) }
    {
        if self.rest.len() < n {
            return Err(ClassRefusal::Short(self.at));
        }
        let (text, rest) = self.rest.split_at(n);
        self.rest = rest;
        self.at += n;
        Ok(text)
    }

    #[tactic(auto, using(crate::proofs::Numbers::byte_is), unfolding(kb_grammar::specs::Reading::number))]
    pub fn u1(&mut self) -> Result<u8, ClassRefusal>
        ensures { Gives (λ n. (n, self.new)) result (u1 self.old) }
    {
        let bytes = self.run(1)?;
        Ok(bytes[0])
    }

    #[tactic(auto, using(crate::proofs::Numbers::big_number_is), unfolding(kb_grammar::specs::Reading::number))]
    pub fn u2(&mut self) -> Result<u16, ClassRefusal>
        ensures { Gives (λ n. (n, self.new)) result (u2 self.old) }
    {
        let bytes = self.run(2)?;
        Ok(BigEndian::read_u16(bytes))
    }

    #[tactic(auto, using(crate::proofs::Numbers::big_number_is), unfolding(kb_grammar::specs::Reading::number))]
    pub fn u4(&mut self) -> Result<u32, ClassRefusal>
        ensures { Gives (λ n. (n, self.new)) result (u4 self.old) }
    {
        let bytes = self.run(4)?;
        Ok(BigEndian::read_u32(bytes))
    }
}
