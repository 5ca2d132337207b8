//! How many words the arguments of a method take.

ghost use Rattle.std.specs.Prelude.{◌≡◌};
ghost use Rattle.kb_asm_body.specs.Words.{words_of, argument_words};

use kb_names::{JType, MethodType};

/// How many words a value of that type takes (JVMS 8 section 2.6.1).
fn words_of(of: &JType) -> u8
    ensures { result ≡ words_of of.now }
{
    match of {
        JType::Long | JType::Double => 2,
        _ => 1,
    }
}

/// How many words the arguments take, the receiver's among them, if they are 255 at most.
pub fn argument_words(kind: &MethodType) -> Option<u8>
    ensures { result ≡ argument_words kind.now }
{
    let mut words: u8 = 1;
    let mut rest = kind.params.as_slice();
    while let [param, others @ ..] = rest {
        words = words.checked_add(words_of(param))?;
        rest = others;
    }
    Some(words)
}
