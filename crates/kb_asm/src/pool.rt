//! The constant pool of a class.

ghost use Rattle.std.specs.Prelude.{◌≡◌, [], OnOk};
ghost use Rattle.std.specs.List.{flat_map};
ghost use Rattle.kb_asm_pool.specs.Says.{all_added};
ghost use Rattle.kb_asm_pool.specs.Needs.{line_needs};
ghost use Rattle.kb_asm_check.specs.Limits.{ldc_says};
ghost use Rattle.kb_asm.specs.Needs.{says_of};

use crate::NoMemory;
use kb_asm_pool::{Items, add_alone, add_needs};
use kb_asm_text::{BodyLine, Line, Operand};
use kb_code::LDC;
use std::alloc::Global;

/// Adds the constant of an ldc line.
fn add_ldc_constant(pool: &mut Items, alloc: Global, line: &Line) -> Result<(), NoMemory>
    ensures { OnOk result (pool.new.says ≡ all_added pool.old.says (ldc_says line.now)) }
{
    if let Line::Body(BodyLine::Instr(op, Operand::Constant(of))) = line {
        if *op == LDC {
            add_alone(pool, alloc, of)?;
        }
    }
    Ok(())
}

/// Adds the constants of ldc lines.
#[tactic(auto, using(crate::proofs::PoolLaws::more_added))]
fn add_constants(pool: &mut Items, alloc: Global, lines: &[Line]) -> Result<(), NoMemory>
    ensures { OnOk result (pool.new.says ≡ all_added pool.old.says (flat_map ldc_says lines.now)) }
{
    let mut rest = lines;
    while let [line, others @ ..] = rest {
        add_ldc_constant(pool, alloc, line)?;
        rest = others;
    }
    Ok(())
}

/// Adds what lines need.
#[tactic(auto, using(crate::proofs::PoolLaws::more_added))]
fn add_all_needs(pool: &mut Items, alloc: Global, lines: &[Line]) -> Result<(), NoMemory>
    ensures { OnOk result (pool.new.says ≡ all_added pool.old.says (flat_map line_needs lines.now)) }
{
    let mut rest = lines;
    while let [line, others @ ..] = rest {
        add_needs(pool, alloc, line)?;
        rest = others;
    }
    Ok(())
}

/// Fills a pool with what the lines of a text need, the constants of ldc lines first.
pub(crate) fn fill_pool(pool: &mut Items, alloc: Global, lines: &[Line]) -> Result<(), NoMemory>
    requires { pool.old.says ≡ [] }
    ensures { OnOk result (pool.new.says ≡ says_of lines.now) }
{
    add_constants(pool, alloc, lines)?;
    add_all_needs(pool, alloc, lines)
}
