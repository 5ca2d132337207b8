//! Any bytes as a text of one line.
ghost use Rattle.std.specs.Prelude.{◌<◌, IfOk};

use kb_table::{RowResult, RowStop};
use std::alloc::Global;

/// The bytes that are spelled so: `\` and two digits in base 16, in lower case, are one byte.
pub fn read_text(alloc: Global, spelled: &str) -> RowResult<Vec<u8>> {
    let mut text = Vec::new(alloc);
    let mut rest = spelled.as_bytes();
    while let [first, others @ ..] = rest {
        let (byte, behind) = match (*first, others) {
            (b'\\', [high, low, behind @ ..]) => (byte_of(*high, *low)?, behind),
            (byte, _) => (byte, others),
        };
        text.push(byte)?;
        rest = behind;
    }
    Ok(text)
}

fn byte_of(high: u8, low: u8) -> RowResult<u8> {
    Ok(digit_value(high)? * 16 + digit_value(low)?)
}

fn digit_value(letter: u8) -> RowResult<u8>
    ensures { IfOk result (λ digit. digit < 16) }
{
    match letter {
        b'0'..=b'9' => Ok(letter - b'0'),
        b'a'..=b'f' => Ok(letter - b'a' + 10),
        _ => Err(RowStop::Malformed),
    }
}

/// Appends the bytes as one line: `\` and two digits for each that is no letter of ASCII, no digit and no sign.
pub fn append_text(text: &[u8], into: &mut Vec<u8>) -> RowResult<()> {
    for byte in text {
        append_byte(*byte, into)?;
    }
    Ok(())
}

fn append_byte(byte: u8, into: &mut Vec<u8>) -> RowResult<()> {
    if (0x20..0x7f).contains(&byte) {
        return Ok(into.push(byte)?);
    }
    Ok(into.extend_from_slice(&[b'\\', digit(byte / 16), digit(byte % 16)])?)
}

fn digit(value: u8) -> u8
    requires { value < 16 }
{
    if value < 10 {
        b'0' + value
    } else {
        b'a' - 10 + value
    }
}
