//! What the first word of a line says.

ghost use Rattle.std.specs.Prelude.{◌≡◌};
ghost use Rattle.kb_asm_text.specs.Lines.{begins_with_colon, keyword_of};

/// Which line a first word begins.
#[derive(Clone, Copy)]
pub enum Keyword {
    Class,
    Implements,
    Field,
    Method,
    End,
    Raw,
    Catch,
    /// A label with a colon before it.
    Label,
    /// A mnemonic, or nothing that begins a line.
    Other,
}

/// Whether the word begins with a colon.
fn begins_with_colon(word: &[u8]) -> bool
    ensures { result ≡ begins_with_colon word.now }
{
    match word {
        [first, _others @ ..] => *first == b':',
        [] => false,
    }
}

/// Which line that word begins.
pub(crate) fn keyword_of(word: &[u8]) -> Keyword
    ensures { result ≡ keyword_of word.now }
{
    if word == b"class".as_slice() {
        return Keyword::Class;
    }
    if word == b"implements".as_slice() {
        return Keyword::Implements;
    }
    if word == b"field".as_slice() {
        return Keyword::Field;
    }
    if word == b"method".as_slice() {
        return Keyword::Method;
    }
    if word == b"end".as_slice() {
        return Keyword::End;
    }
    if word == b"raw".as_slice() {
        return Keyword::Raw;
    }
    if word == b"catch".as_slice() {
        return Keyword::Catch;
    }
    if begins_with_colon(word) {
        return Keyword::Label;
    }
    Keyword::Other
}
