//! Numbers and runs of bytes, from left to right.

ghost use Rattle.std.specs.Prelude.{◌≡◌, ◌+◌, ◌<◌, ◌^◌, IfOk, length};
ghost use Rattle.kb_grammar.specs.Reading.{run};
ghost use Rattle.kb_code.specs.Reading.{Gives, cut, u1, u2, u4, byte, short, int, near, far};

use crate::refusal::CodeRefusal;
use byteorder::{BigEndian, ByteOrder};
use std::marker::Model;

/// Where a reader stands: the bytes that are left, and how many stand before them.
///
/// Its calls take the offset of the instruction that they read in, which a refusal names.
#[derive(Drop)]
pub struct Reader<'a> {
    rest: &'a [u8],
    at: u32,
}

impl<'a> Model for Reader<'a> {
    ghost use Rattle.std.specs.Prelude.{◌+◌, ◌^◌, ◌<◌, length};
    ghost use Rattle.kb_grammar.specs.Reading.{Place};

    ghost Value = { Place };

    ghost view = { λ reader. record { rest = reader.rest.now; at = reader.at } };

    ghost invariant = { λ reader. reader.at + length reader.rest.now < 2 ^ 32 };
}

impl<'a> Reader<'a> {
    /// A reader of bytes from the first on.
    pub fn new(bytes: &'a [u8]) -> Reader<'a>
        requires { length bytes.now < 2 ^ 32 }
        ensures { result ≡ record { rest = bytes.now; at = 0 } }
    {
        Reader { rest: bytes, at: 0 }
    }

    /// How many bytes stand before the reader.
    pub fn offset(&self) -> u32
        ensures { result ≡ self.now.at }
    {
        self.at
    }

    /// How many bytes are left.
    pub fn left(&self) -> usize
        ensures { result ≡ length self.now.rest }
    {
        self.rest.len()
    }

    /// A run of `n` bytes.
    #[tactic(auto, unfolding(kb_grammar::specs::Reading::run))]
    pub fn run(&mut self, from: u32, n: usize) -> Result<&'a [u8], CodeRefusal>
        ensures read { Gives (λ text. (text.now, self.new)) result (run (cut from) n self.old) }
        ensures len { IfOk result (λ text. length text.now ≡ n) }
    {
        if self.rest.len() < n {
            return Err(CodeRefusal::Cut(from));
        }
        let (text, rest) = self.rest.split_at(n);
        self.rest = rest;
        self.at += n as u32;
        Ok(text)
    }

    #[tactic(auto, using(crate::proofs::Numbers::byte_is), unfolding(kb_grammar::specs::Reading::number))]
    pub fn u1(&mut self, from: u32) -> Result<u8, CodeRefusal>
        ensures { Gives (λ n. (n, self.new)) result (u1 from self.old) }
    {
        let bytes = self.run(from, 1)?;
        Ok(bytes[0])
    }

    #[tactic(auto, using(crate::proofs::Numbers::big_number_is), unfolding(kb_grammar::specs::Reading::number))]
    pub fn u2(&mut self, from: u32) -> Result<u16, CodeRefusal>
        ensures { Gives (λ n. (n, self.new)) result (u2 from self.old) }
    {
        let bytes = self.run(from, 2)?;
        Ok(BigEndian::read_u16(bytes))
    }

    #[tactic(auto, using(crate::proofs::Numbers::big_number_is), unfolding(kb_grammar::specs::Reading::number))]
    pub fn u4(&mut self, from: u32) -> Result<u32, CodeRefusal>
        ensures { Gives (λ n. (n, self.new)) result (u4 from self.old) }
    {
        let bytes = self.run(from, 4)?;
        Ok(BigEndian::read_u32(bytes))
    }

    /// An int of one byte.
    #[tactic(auto, unfolding(crate::specs::Reading::byte))]
    pub fn byte(&mut self, from: u32) -> Result<i32, CodeRefusal>
        ensures { Gives (λ z. (z, self.new)) result (byte from self.old) }
    {
        let n = self.u1(from)?;
        Ok(i32::from(n.cast_signed()))
    }

    /// An int of two bytes.
    #[tactic(auto, unfolding(crate::specs::Reading::short))]
    pub fn short(&mut self, from: u32) -> Result<i32, CodeRefusal>
        ensures { Gives (λ z. (z, self.new)) result (short from self.old) }
    {
        let n = self.u2(from)?;
        Ok(i32::from(n.cast_signed()))
    }

    /// An int of four bytes.
    #[tactic(auto, unfolding(crate::specs::Reading::int))]
    pub fn int(&mut self, from: u32) -> Result<i32, CodeRefusal>
        ensures { Gives (λ z. (z, self.new)) result (int from self.old) }
    {
        let n = self.u4(from)?;
        Ok(n.cast_signed())
    }

    /// A target whose distance has two bytes.
    #[tactic(auto, unfolding(crate::specs::Reading::near))]
    pub fn near(&mut self, from: u32) -> Result<i64, CodeRefusal>
        ensures { Gives (λ to. (to, self.new)) result (near from self.old) }
    {
        let n = self.u2(from)?;
        Ok(i64::from(from) + i64::from(n.cast_signed()))
    }

    /// A target whose distance has four bytes.
    #[tactic(auto, unfolding(crate::specs::Reading::far))]
    pub fn far(&mut self, from: u32) -> Result<i64, CodeRefusal>
        ensures { Gives (λ to. (to, self.new)) result (far from self.old) }
    {
        let n = self.u4(from)?;
        Ok(i64::from(from) + i64::from(n.cast_signed()))
    }
}
