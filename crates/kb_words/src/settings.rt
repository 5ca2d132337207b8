//! The options behind a command, each with the word behind it, and the files behind them.
ghost use Rattle.std.specs.Prelude.{◌≡◌, ◌+◌, ◌<◌, ◌^◌, length, map, string_bytes, option_copied};
ghost use Rattle.kb_words.specs.Settings.{Gives, files_of, is_given, is_of_replay, method_word, number_at, option_at, setting_at, settings_of, takes, value_given};

use crate::options::{
    OptionName, init_named, is_number, is_option, number_within, option_named, range_of,
};
use crate::orders::{Command, WordFault};
use crate::word::Word;
use kb_rows::Row;
use std::alloc::Global;

/// An option, and the word that was given to it.
#[derive(Drop)]
pub struct Setting {
    pub option: OptionName,
    pub value: Word,
}

/// The options behind a command, in order.
#[tactic(auto, using(crate::proofs::SettingLaws::none_more, crate::proofs::SettingLaws::bad_option), unfolding(crate::specs::Settings::settings_of))]
pub(crate) fn read_settings(
    alloc: Global,
    is_target: bool,
    command: Command,
    words: &[String],
) -> Result<Row<Setting>, WordFault>
    ensures { Gives (λ settings. settings) result (settings_of is_target command (map string_bytes words.now)) }
{
    let mut settings = Row::new(alloc);
    let mut place: usize = 1;
    let mut rest = words;
    while let [name, behind @ ..] = rest {
        if !is_option(name.as_str()) {
            return Ok(settings);
        }
        let option = match option_at(command, settings.as_slice(), place, name.as_str()) {
            Ok(option) => option,
            Err(fault) => return Err(fault),
        };
        let [word, others @ ..] = behind else {
            return Err(WordFault::NoValue(place));
        };
        settings.push(setting_at(alloc, is_target, option, place + 1, word.as_str())?)?;
        place += 2;
        rest = others;
    }
    Ok(settings)
}

/// The option that a word at that place names, behind those.
fn option_at(
    command: Command,
    before: &[Setting],
    place: usize,
    name: &str,
) -> Result<OptionName, WordFault>
    ensures { result ≡ option_at command before.now place name.now }
{
    let Some(option) = option_named(name) else {
        return Err(WordFault::Unknown(place));
    };
    if !takes(command, option) {
        return Err(WordFault::Unknown(place));
    }
    if is_given(option, before) {
        return Err(WordFault::Repeated(place));
    }
    Ok(option)
}

/// Whether the command has the option.
fn takes(command: Command, option: OptionName) -> bool
    ensures { result ≡ takes command option }
{
    match command {
        Command::Explore | Command::Tests | Command::Diagrams => !is_of_replay(option),
        Command::Replay => is_of_replay(option),
        Command::Assemble | Command::Sample => false,
    }
}

/// Whether it is an option of `replay`.
fn is_of_replay(option: OptionName) -> bool
    ensures { result ≡ is_of_replay option }
{
    match option {
        OptionName::Tests | OptionName::Workers => true,
        _ => false,
    }
}

/// Whether the option stands among those.
fn is_given(option: OptionName, settings: &[Setting]) -> bool
    ensures { result ≡ is_given option settings.now }
{
    let mut rest = settings;
    while let [setting, others @ ..] = rest {
        if setting.option == option {
            return true;
        }
        rest = others;
    }
    false
}

/// The option with the word at that place as its value; it is told whether the word of the method is a target.
fn setting_at(
    alloc: Global,
    is_target: bool,
    option: OptionName,
    place: usize,
    word: &str,
) -> Result<Setting, WordFault>
    ensures { Gives (λ setting. setting) result (setting_at is_target option place word.now) }
{
    match option {
        OptionName::Method => {
            if !is_target {
                return Err(WordFault::BadTarget(place));
            }
        }
        OptionName::Init => {
            if init_named(word).is_none() {
                return Err(WordFault::Unknown(place));
            }
        }
        OptionName::Tests => (),
        _ => look_at_number(option, place, word)?,
    }
    let value = Word::from_text(alloc, word)?;
    Ok(Setting { option, value })
}

/// Whether a word at that place is a number in the option's range.
fn look_at_number(option: OptionName, place: usize, word: &str) -> Result<(), WordFault>
    ensures { Gives (λ _. record { option = option; value = word.now }) result (number_at option place word.now) }
{
    if !is_number(word.as_bytes()) {
        return Err(WordFault::BadNumber(place));
    }
    match number_within(range_of(option), word.as_bytes()) {
        Some(_) => Ok(()),
        None => Err(WordFault::OutOfRange(place)),
    }
}

/// The word behind the first `--method` at an option's place.
pub(crate) fn method_word(words: &[String]) -> Option<&str>
    ensures { option_copied result ≡ method_word (map string_bytes words.now) }
{
    let mut rest = words;
    while let [name, word, others @ ..] = rest {
        if !is_option(name.as_str()) {
            return None;
        }
        if name.as_str() == "--method" {
            return Some(word.as_str());
        }
        rest = others;
    }
    None
}

/// The files behind the options.
#[tactic(auto, using(crate::proofs::SettingLaws::files_here))]
pub(crate) fn files_of(words: &[String]) -> &[String]
    ensures { map string_bytes result.now ≡ files_of (map string_bytes words.now) }
{
    let mut rest = words;
    while let [name, behind @ ..] = rest {
        if !is_option(name.as_str()) {
            return rest;
        }
        let [_, others @ ..] = behind else {
            return behind;
        };
        rest = others;
    }
    rest
}

/// The word that was given to an option.
pub(crate) fn value_given(option: OptionName, settings: &[Setting]) -> Option<&Word>
    ensures { option_copied result ≡ value_given option settings.now }
{
    let mut rest = settings;
    while let [setting, others @ ..] = rest {
        if setting.option == option {
            return Some(&setting.value);
        }
        rest = others;
    }
    None
}
