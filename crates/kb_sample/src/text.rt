//! The sample's text is written.
ghost use Rattle.std.specs.Prelude.{◌≡◌, ◌++◌, string_bytes, IfOk, OnOk};
ghost use Rattle.kb_sample.specs.Sample.{block_text, blocks_text, count_text, end_text, head_text, increment_line, loads_text, numbered_line, pair_of, sample_text};

use crate::NoMemory;
use std::alloc::Global;

/// Which two arguments blocks compare, in turn.
const PAIRS: [(u32, u32); 6] = [(0, 1), (0, 2), (0, 3), (1, 2), (1, 3), (2, 3)];

/// The assembler text of the sample of so many blocks. Refused only where memory runs out.
#[tactic(auto, unfolding(crate::specs::Sample::sample_text))]
pub fn sample_text(alloc: Global, blocks: u32) -> Result<String, NoMemory>
    ensures { IfOk result (λ text. string_bytes text ≡ sample_text blocks) }
{
    let mut text = String::new(alloc);
    write_head(&mut text)?;
    write_blocks(&mut text, blocks)?;
    write_end(&mut text)?;
    Ok(text)
}

// The class and its method, and the count of comparisons that hold, which begins with 0.
#[tactic(auto, unfolding(crate::specs::Sample::head_text))]
fn write_head(text: &mut String) -> Result<(), NoMemory>
    ensures { OnOk result (string_bytes text.new ≡ string_bytes text.old ++ head_text) }
{
    text.push_str(
        "class 0021 Sample java/lang/Object\nmethod 0009 run (IIII)I 2 5\niconst_0\nistore 4\n",
    )
}

fn write_blocks(text: &mut String, blocks: u32) -> Result<(), NoMemory>
    ensures { OnOk result (string_bytes text.new ≡ string_bytes text.old ++ blocks_text blocks) }
{
    for block in 0..blocks {
        write_block(text, block)?;
    }
    Ok(())
}

// Counts where the first of two arguments is below the second.
#[tactic(auto, unfolding(crate::specs::Sample::block_text))]
fn write_block(text: &mut String, block: u32) -> Result<(), NoMemory>
    ensures { OnOk result (string_bytes text.new ≡ string_bytes text.old ++ block_text block) }
{
    write_loads(text, pair_of(block))?;
    write_count(text, block)
}

#[tactic(auto, unfolding(crate::specs::Sample::loads_text))]
fn write_loads(text: &mut String, pair: (u32, u32)) -> Result<(), NoMemory>
    ensures { OnOk result (string_bytes text.new ≡ string_bytes text.old ++ loads_text pair) }
{
    write_numbered(text, "iload ", pair.0)?;
    write_numbered(text, "iload ", pair.1)
}

#[tactic(auto, unfolding(crate::specs::Sample::count_text))]
fn write_count(text: &mut String, block: u32) -> Result<(), NoMemory>
    ensures { OnOk result (string_bytes text.new ≡ string_bytes text.old ++ count_text block) }
{
    write_numbered(text, "if_icmpge L", block)?;
    write_increment(text)?;
    write_numbered(text, ":L", block)
}

#[tactic(auto, unfolding(crate::specs::Sample::increment_line))]
fn write_increment(text: &mut String) -> Result<(), NoMemory>
    ensures { OnOk result (string_bytes text.new ≡ string_bytes text.old ++ increment_line) }
{
    text.push_str("iinc 4 1\n")
}

// A line that ends with a number.
#[tactic(auto, unfolding(crate::specs::Sample::numbered_line))]
fn write_numbered(text: &mut String, front: &str, number: u32) -> Result<(), NoMemory>
    ensures { OnOk result (string_bytes text.new ≡ string_bytes text.old ++ numbered_line front.now number) }
{
    writeln!(text, "{front}{number}")
}

#[tactic(auto, unfolding(crate::specs::Sample::pair_of))]
fn pair_of(block: u32) -> (u32, u32)
    ensures { result ≡ pair_of block }
{
    PAIRS[(block % 6) as usize]
}

// The count is returned.
#[tactic(auto, unfolding(crate::specs::Sample::end_text))]
fn write_end(text: &mut String) -> Result<(), NoMemory>
    ensures { OnOk result (string_bytes text.new ≡ string_bytes text.old ++ end_text) }
{
    text.push_str("iload 4\nireturn\nend\n")
}
