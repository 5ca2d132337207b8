//! An instruction in the form in which it is written.

ghost use Rattle.std.specs.Prelude.{◌≡◌, ◌+◌, ◌<◌};
ghost use Rattle.std.specs.List.{list_all};
ghost use Rattle.kb_writer.specs.Instructions.{is_near, is_far};
ghost use Rattle.kb_code.specs.Reading.{padding_at};

use kb_code::{are_rising, is_table};
use kb_rows::Row;

/// An instruction with its opcode and operands (JVMS 8 section 6.5), which decide its bytes.
///
/// Targets are offsets into the code.
#[derive(Drop)]
pub enum Written {
    /// An opcode without operands, or any other byte that stands alone.
    Alone(u8),
    /// bipush.
    PushByte(i8),
    /// sipush.
    PushShort(i16),
    /// ldc, with the number of a pool entry.
    Constant(u8),
    /// iload, aload, istore or astore, by its opcode, with the number of a local. Above 255 wide stands before it.
    Local(u8, u16),
    /// iinc in its short form: the local, and the constant.
    Increment(u8, i8),
    /// An instruction that names a pool entry in two bytes, ldc_w among them, by its opcode.
    Entry(u8, u16),
    /// invokeinterface: the pool entry, and how many words the arguments take, the receiver's among them.
    Interface(u16, u8),
    /// newarray, with the code of its type.
    Primitive(u8),
    /// A branch by its opcode, whose target is told in two bytes.
    Near(u8, u32),
    /// A branch by its opcode, whose target is told in four bytes: goto_w.
    Far(u8, u32),
    /// tableswitch: the lowest int, the default target, and the targets from the lowest int on.
    Table(i32, u32, Row<u32>),
    /// lookupswitch: the default target, and ints with their targets.
    Lookup(u32, Row<(i32, u32)>),
}

/// Whether a distance of two bytes leads from one offset to another.
fn is_near(from: u32, to: u32) -> bool
    ensures { result ≡ is_near from to }
{
    let distance = i64::from(to) - i64::from(from);
    -0x8000 <= distance && distance < 0x8000
}

/// Whether a distance of four bytes leads from one offset to another.
fn is_far(from: u32, to: u32) -> bool
    ensures { result ≡ is_far from to }
{
    let distance = i64::from(to) - i64::from(from);
    -0x8000_0000 <= distance && distance < 0x8000_0000
}

/// Whether each target is in reach of the instruction at `from`.
fn reach(from: u32, targets: &[u32]) -> bool
    ensures { result ≡ list_all (is_far from) targets.now }
{
    targets.iter().all(|to| is_far(from, *to))
}

/// Whether the target of each int is in reach of the instruction at `from`.
fn pairs_reach(from: u32, pairs: &[(i32, u32)]) -> bool
    ensures { result ≡ list_all (λ pair. is_far from pair.1) pairs.now }
{
    pairs.iter().all(|pair| is_far(from, pair.1))
}

/// How many zeros stand between the opcode of a switch at the offset `at` and the next multiple of four: 0 to 3.
pub fn padding_behind(at: u32) -> usize
    ensures value { result ≡ padding_at (at + 1) }
    ensures few { result < 4 }
{
    (3 - at % 4) as usize
}

impl Written {
    ghost use Rattle.std.specs.Prelude.{◌≡◌, IsTrue};
    ghost use Rattle.kb_writer.specs.Instructions.{is_sound, reaches, size_of};

    /// Whether a switch is one: a tableswitch has a target at least, and its highest int is an int; the ints of a
    /// lookupswitch rise, and their count is an int. Every other instruction is sound.
    pub fn is_sound(&self) -> bool
        ensures { result ≡ is_sound self.now }
    {
        match self {
            Written::Table(low, _, targets) => is_table(*low, targets.as_slice().len()),
            Written::Lookup(_, pairs) => {
                pairs.as_slice().len() < 0x8000_0000 && are_rising(pairs.as_slice())
            }
            _ => true,
        }
    }

    /// Whether the targets are in reach of the instruction, where that stands at the offset `at`: a distance has two
    /// bytes, or four.
    pub fn reaches(&self, at: u32) -> bool
        ensures { result ≡ reaches self.now at }
    {
        match self {
            Written::Near(_, to) => is_near(at, *to),
            Written::Far(_, to) => is_far(at, *to),
            Written::Table(_, default, targets) => {
                is_far(at, *default) && reach(at, targets.as_slice())
            }
            Written::Lookup(default, pairs) => {
                is_far(at, *default) && pairs_reach(at, pairs.as_slice())
            }
            _ => true,
        }
    }

    /// How many bytes it has at the offset `at`.
    #[tactic(auto, unfolding(crate::specs::Instructions::size_of))]
    pub fn size(&self, at: u32) -> usize
        requires { IsTrue (is_sound self.now) }
        ensures { result ≡ size_of self.now at }
    {
        match self {
            Written::Alone(_) => 1,
            Written::PushByte(_) | Written::Constant(_) | Written::Primitive(_) => 2,
            Written::Local(_, local) => { if *local < 256 { 2 } else { 4 } }
            Written::PushShort(_)
            | Written::Increment(..)
            | Written::Entry(..)
            | Written::Near(..) => 3,
            Written::Interface(..) | Written::Far(..) => 5,
            Written::Table(_, _, targets) => 13 + padding_behind(at) + 4 * targets.as_slice().len(),
            Written::Lookup(_, pairs) => 9 + padding_behind(at) + 8 * pairs.as_slice().len(),
        }
    }
}
