//! The switches (JVMS 8 section 6.5 on tableswitch and lookupswitch).

ghost use Rattle.std.specs.Prelude.{◌≡◌, pos};
ghost use Rattle.kb_grammar.specs.Reading.{judged, repeated};
ghost use Rattle.kb_code.specs.Reading.{Gives, padding_at, padding, bounds_fault, bounds, count_of, far, int, pair, table_switch, count_fault, keys_fault, lookup_switch};

use crate::form::Loose;
use crate::keyed::are_rising;
use crate::reader::Reader;
use crate::refusal::CodeRefusal;
use kb_rows::Row;
use std::alloc::Global;

/// How many bytes a target of a switch takes, and an int with its target.
const TARGET_SIZE: u64 = 4;

const PAIR_SIZE: u64 = 8;

/// How many bytes lead from the offset to the next multiple of four.
fn padding_at(at: u32) -> usize
    ensures { result ≡ padding_at at }
{
    ((4 - at % 4) % 4) as usize
}

/// How many ints there are from the lowest to the highest.
fn count_of(ends: (i32, i32)) -> u64
    ensures { result ≡ count_of ends }
{
    u64::from(ends.1.abs_diff(ends.0)) + 1
}

impl<'a> Reader<'a> {
    /// The bytes that lead to the next multiple of four, counted from the start of the code.
    #[tactic(auto, unfolding(crate::specs::Reading::padding))]
    fn padding(&mut self, from: u32) -> Result<&'a [u8], CodeRefusal>
        ensures { Gives (λ bytes. (bytes.now, self.new)) result (padding from self.old) }
    {
        let at = self.offset();
        self.run(from, padding_at(at))
    }

    /// The lowest int of a tableswitch, and the highest.
    #[tactic(auto, unfolding(crate::specs::Reading::bounds))]
    fn bounds(&mut self, from: u32) -> Result<(i32, i32), CodeRefusal>
        ensures { Gives (λ ends. (ends, self.new)) result (judged (bounds_fault from) (bounds from) self.old) }
    {
        let low = self.int(from)?;
        let high = self.int(from)?;
        if high < low {
            return Err(CodeRefusal::Switch(from));
        }
        Ok((low, high))
    }

    /// So many targets. Nothing is taken before they are seen to be there.
    fn targets(&mut self, alloc: Global, from: u32, count: u64) -> Result<Row<i64>, CodeRefusal>
        ensures { Gives (λ targets. (targets, self.new)) result (repeated (λ number. far from) count self.old) }
    {
        if (self.left() as u64) / TARGET_SIZE < count {
            return Err(CodeRefusal::Cut(from));
        }
        let mut targets = Vec::new(alloc);
        for _ in 0..count {
            targets.push(self.far(from)?)?;
        }
        Ok(Row::from_vec(targets))
    }

    /// What stands behind the opcode of a tableswitch.
    #[tactic(auto, unfolding(crate::specs::Reading::table_switch))]
    pub fn table_switch(&mut self, alloc: Global, from: u32) -> Result<Loose, CodeRefusal>
        ensures { Gives (λ loose. (loose, self.new)) result (table_switch from self.old) }
    {
        self.padding(from)?;
        let default = self.far(from)?;
        let ends = self.bounds(from)?;
        let targets = self.targets(alloc, from, count_of(ends))?;
        Ok(Loose::Table(ends.0, default, targets))
    }

    /// How many pairs a lookupswitch has.
    fn count(&mut self, from: u32) -> Result<u64, CodeRefusal>
        ensures { Gives (λ count. (pos count, self.new)) result (judged (count_fault from) (int from) self.old) }
    {
        let count = self.int(from)?;
        if count < 0 {
            return Err(CodeRefusal::Switch(from));
        }
        Ok(u64::from(count.unsigned_abs()))
    }

    /// An int and its target.
    #[tactic(auto, unfolding(crate::specs::Reading::pair))]
    fn pair(&mut self, from: u32) -> Result<(i32, i64), CodeRefusal>
        ensures { Gives (λ pair. (pair, self.new)) result (pair from self.old) }
    {
        let key = self.int(from)?;
        let to = self.far(from)?;
        Ok((key, to))
    }

    /// So many ints with their targets. Nothing is taken before they are seen to be there.
    fn pairs(
        &mut self,
        alloc: Global,
        from: u32,
        count: u64,
    ) -> Result<Row<(i32, i64)>, CodeRefusal>
        ensures { Gives (λ pairs. (pairs, self.new)) result (repeated (λ number. pair from) count self.old) }
    {
        if (self.left() as u64) / PAIR_SIZE < count {
            return Err(CodeRefusal::Cut(from));
        }
        let mut pairs = Vec::new(alloc);
        for _ in 0..count {
            pairs.push(self.pair(from)?)?;
        }
        Ok(Row::from_vec(pairs))
    }

    /// So many rising ints with their targets.
    fn rising_pairs(
        &mut self,
        alloc: Global,
        from: u32,
        count: u64,
    ) -> Result<Row<(i32, i64)>, CodeRefusal>
        ensures { Gives (λ pairs. (pairs, self.new)) result (judged (keys_fault from) (repeated (λ number. pair from) count) self.old) }
    {
        let pairs = self.pairs(alloc, from, count)?;
        if !are_rising(pairs.as_slice()) {
            return Err(CodeRefusal::Switch(from));
        }
        Ok(pairs)
    }

    /// What stands behind the opcode of a lookupswitch.
    #[tactic(auto, unfolding(crate::specs::Reading::lookup_switch))]
    pub fn lookup_switch(&mut self, alloc: Global, from: u32) -> Result<Loose, CodeRefusal>
        ensures { Gives (λ loose. (loose, self.new)) result (lookup_switch from self.old) }
    {
        self.padding(from)?;
        let default = self.far(from)?;
        let count = self.count(from)?;
        let pairs = self.rising_pairs(alloc, from, count)?;
        Ok(Loose::Lookup(default, pairs))
    }
}
