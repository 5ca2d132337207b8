//! Texts that grow.

use kb_names::{ExactType, Spelling, write_name, write_type};
use kb_table::{RowResult, kept};

/// Adds a piece to a text.
pub fn add(piece: &[u8], text: &mut Vec<u8>) -> RowResult<()> {
    text.extend_from_slice(piece)?;
    Ok(())
}

/// Adds a line as it is.
pub fn add_itself(line: &str, text: &mut Vec<u8>) -> RowResult<()> {
    add(line.as_bytes(), text)?;
    add(b"\n", text)
}

/// A class by its name, or an array by its descriptor.
pub fn add_exact(kind: &ExactType, text: &mut Vec<u8>) -> RowResult<()> {
    let written = match kind {
        ExactType::Class(name) => write_name(name, text),
        ExactType::Array(component) => {
            add(b"[", text)?;
            write_type(component, Spelling::Escaped, text)
        }
    };
    kept(written)
}
