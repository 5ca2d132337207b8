//! The options, and the values that they may have.
ghost use Rattle.std.specs.Prelude.{◌≡◌, ◌≤◌, IfSome};
ghost use Rattle.std.specs.List.{list_all};
ghost use Rattle.kb_words.specs.Options.{is_digit, is_number, is_option, init_named, number_within, option_named, range_of};

use kb_picture::Init;

/// An option.
#[derive(Clone, Copy, PartialEq, Eq)]
pub enum OptionName {
    /// The method that is explored.
    Method,
    /// When it is chosen which object a reference is.
    Init,
    /// How deep input objects are followed; one that an argument holds has depth 1.
    K,
    /// The greatest length of an input array.
    Array,
    /// The greatest length of an array that a run makes.
    Alloc,
    /// The most transfers of an activation to offsets not above their own.
    Loops,
    /// The most frames.
    Depth,
    /// The most instructions of a run.
    Steps,
    /// The most paths that are not open.
    Paths,
    /// The most clauses that the solver derives for one question, resolvents of eliminations among them.
    Budget,
    /// The file of the tests that are run.
    Tests,
    /// How many workers run them.
    Workers,
}

/// The numbers that an option may have as its value.
#[derive(Clone, Copy, PartialEq, Eq)]
pub struct Range {
    pub low: u32,
    pub high: u32,
}

/// Whether a word names an option, where one may stand.
pub(crate) fn is_option(word: &str) -> bool
    ensures { result ≡ is_option word.now }
{
    word.as_bytes().starts_with(b"--".as_slice())
}

/// The option of that name.
pub(crate) fn option_named(word: &str) -> Option<OptionName>
    ensures { result ≡ option_named word.now }
{
    match word {
        "--method" => Some(OptionName::Method),
        "--init" => Some(OptionName::Init),
        "--k" => Some(OptionName::K),
        "--array" => Some(OptionName::Array),
        "--alloc" => Some(OptionName::Alloc),
        "--loops" => Some(OptionName::Loops),
        "--depth" => Some(OptionName::Depth),
        "--steps" => Some(OptionName::Steps),
        "--paths" => Some(OptionName::Paths),
        "--budget" => Some(OptionName::Budget),
        "--tests" => Some(OptionName::Tests),
        "--workers" => Some(OptionName::Workers),
        _ => None,
    }
}

/// The mode of that name.
pub(crate) fn init_named(word: &str) -> Option<Init>
    ensures { result ≡ init_named word.now }
{
    match word {
        "lazy" => Some(Init::Lazy),
        "lazier" => Some(Init::Lazier),
        _ => None,
    }
}

/// The numbers that an option may have; those that have none may have 0 alone.
pub(crate) fn range_of(option: OptionName) -> Range
    ensures { result ≡ range_of option }
{
    match option {
        OptionName::K | OptionName::Array => between(0, 16),
        OptionName::Alloc => between(0, 1_024),
        OptionName::Loops => between(0, 1_000),
        OptionName::Depth => between(1, 256),
        OptionName::Steps | OptionName::Paths | OptionName::Budget => between(1, 100_000),
        OptionName::Workers => between(1, 64),
        OptionName::Method | OptionName::Init | OptionName::Tests => between(0, 0),
    }
}

fn between(low: u32, high: u32) -> Range
    ensures { result ≡ record { low = low; high = high } }
{
    Range { low, high }
}

/// Whether a word is a number: `0`, or digits of which the first is not 0.
pub(crate) fn is_number(word: &[u8]) -> bool
    ensures { result ≡ is_number word.now }
{
    let [first, rest @ ..] = word else {
        return false;
    };
    if *first == b'0' {
        return rest.is_empty();
    }
    are_digits(word)
}

fn are_digits(word: &[u8]) -> bool
    ensures { result ≡ list_all is_digit word.now }
{
    word.iter().all(is_digit)
}

fn is_digit(byte: &u8) -> bool
    ensures { result ≡ is_digit byte.now }
{
    48 <= *byte && *byte <= 57
}

/// The number of the range that the word spells.
#[tactic(auto, using(crate::proofs::NumberLaws::read_spelled))]
pub(crate) fn number_within(range: Range, word: &[u8]) -> Option<u32>
    ensures number { result ≡ number_within range word.now }
    ensures low { IfSome result (λ number. range.low ≤ number) }
    ensures high { IfSome result (λ number. number ≤ range.high) }
{
    let number = kb_grammar::number_within(word, range.high)?;
    if range.low <= number {
        Some(number)
    } else {
        None
    }
}
