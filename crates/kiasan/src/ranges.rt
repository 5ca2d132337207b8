//! What types tell of numbers: the bytes of files. The functions do nothing but tell the prover.

ghost use Rattle.std.specs.Prelude.{◌<◌};
ghost use Rattle.std.specs.List.{AllByRecursion};
ghost use Rattle.kb_names.specs.Bytes.{AreBytes};

use kb_rows::Row;

/// The items of these files are bytes.
pub fn tell_files(files: &[Row<u8>])
    ensures { AllByRecursion AreBytes files.now }
{
    let mut rest = files;
    while let [file, others @ ..] = rest {
        tell_bytes(file.as_slice());
        rest = others;
    }
}

fn tell_bytes(bytes: &[u8])
    ensures { AreBytes bytes.now }
{
    let mut rest = bytes;
    while let [byte, others @ ..] = rest {
        tell_byte(*byte);
        rest = others;
    }
}

fn tell_byte(_byte: u8)
    ensures { _byte < 256 }
{}
