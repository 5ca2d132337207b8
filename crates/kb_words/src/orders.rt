//! The orders, and how words are read as one.
ghost use Rattle.std.specs.Prelude.{◌≡◌, ◌≤◌, ◌∷◌, ℕ, List, Result, IfOk, IfErr, IfSome, map, string_bytes, option_copied};
ghost use Rattle.kb_names.specs.Targets.{IsTarget};
ghost use Rattle.kb_words.specs.declared.orders.Order.{Order as Ordered};
ghost use Rattle.kb_words.specs.declared.orders.WordFault.{WordFault as Fault};
ghost use Rattle.kb_words.specs.Options.{range_of};
ghost use Rattle.kb_words.specs.Settings.{Gives};
ghost use Rattle.kb_words.specs.Orders.{AreBounds, AreOrdered, IsJob, IsOrder, IsTargetIn, Orders, assembly_of, bounds_given, command_named, default_bounds, exploration_of, explored, if_enough, init_given, job_from, job_of, job_on, job_with, number_given, order_by, order_of, replay_from, replay_of, sample_at, sample_of};

use crate::options::{OptionName, Range, init_named, is_number, number_within, range_of};
use crate::settings::{Setting, files_of, method_word, read_settings, value_given};
use crate::word::Word;
use kb_heap::{Bounds, RunBounds};
use kb_names::{Target, TargetRefusal};
use kb_picture::Init;
use kb_rows::Row;
use std::alloc::{AllocError, Global};

/// The most that the paths times the budget may be.
const MOST_DERIVED: u64 = 2_000_000;

/// The numbers of blocks that a sample may have.
const SAMPLE_RANGE: Range = Range { low: 0, high: 64 };

/// A command.
#[derive(Clone, Copy, PartialEq, Eq)]
pub enum Command {
    Explore,
    Tests,
    Diagrams,
    Replay,
    Assemble,
    Sample,
}

/// A method that is to be explored, in the world of which class files, and how far.
#[derive(Drop)]
pub struct Job {
    pub target: Target,
    pub init: Init,
    pub bounds: Bounds,
    /// The most paths that are listed and not open.
    pub paths: u32,
    /// The most clauses that the solver derives for one question, resolvents of eliminations among them.
    pub budget: u32,
    pub files: Row<Word>,
}

/// What the words order.
#[derive(Drop)]
pub enum Order {
    /// To write the report of the paths.
    Explore(Job),
    /// To write the tests of the paths.
    Tests(Job),
    /// To draw the paths.
    Diagrams(Job),
    /// To run the tests of a file, whose methods are those of class files, by so many workers.
    Replay(Word, Row<Word>, u32),
    /// To write the class file of a text.
    Assemble(Word),
    /// To make a class of so many blocks, to explore it, and to run its tests.
    Sample(u32),
}

/// Why words order nothing. Words are numbered from 0, the command.
#[derive(Clone, Copy, PartialEq, Eq)]
pub enum WordFault {
    /// There are no words.
    NoCommand,
    /// The word is no command, no option of the command or no mode, or one too many.
    Unknown(usize),
    /// Behind the word there is none, which it needs.
    NoValue(usize),
    /// The word is no number.
    BadNumber(usize),
    /// The number is too low or too high.
    OutOfRange(usize),
    /// The option stands before.
    Repeated(usize),
    /// The word names no method.
    BadTarget(usize),
    /// No method is named.
    NoMethod,
    /// No file of tests is named.
    NoTests,
    /// No class file is named.
    NoFiles,
    /// The paths times the budget are too many.
    TooMuch,
    NoMemory,
}

impl From<AllocError> for WordFault {
    ghost use Rattle.kb_words.specs.declared.orders.WordFault.TheVariants.{NoMemory};

    ghost from_gives = { λ _ e. e ≡ NoMemory };

    fn from(_refusal: AllocError) -> WordFault {
        WordFault::NoMemory
    }
}

/// The order of the words after the program's name, or their one fault: the first by place, then what is missing or too much.
pub fn read_words(alloc: Global, words: &[String]) -> Result<Order, WordFault>
    ensures order { AreOrdered (map string_bytes words.now) result }
    ensures ranges { IfOk result IsOrder }
{
    let [word, behind @ ..] = words else {
        return Err(WordFault::NoCommand);
    };
    let target = target_in(alloc, method_word(behind))?;
    read_command(alloc, target, word.as_str(), behind)
}

/// The order of the words, where that is the target of the method.
#[tactic(auto, unfolding(crate::specs::Orders::order_of))]
fn read_command(
    alloc: Global,
    target: Option<Target>,
    word: &str,
    behind: &[String],
) -> Result<Order, WordFault>
    requires { IfSome target IsTarget }
    ensures order { Gives (λ order. order) result (order_of target (word.now ∷ map string_bytes behind.now)) }
    ensures ranges { IfOk result IsOrder }
{
    match command_named(word) {
        Some(command) => read_order(alloc, target, command, behind),
        None => Err(WordFault::Unknown(0)),
    }
}

/// The target that a word spells, if there is a word and it spells one. Refused only where memory runs out.
fn target_in(alloc: Global, word: Option<&str>) -> Result<Option<Target>, WordFault>
    ensures found { IfOk result (λ target. IsTargetIn (option_copied word.entry) target) }
    ensures spelled { IfOk result (λ target. IfSome target IsTarget) }
    ensures memory { IfErr result (λ fault. fault ≡ WordFault.NoMemory) }
{
    let Some(text) = word else {
        return Ok(None);
    };
    match kb_names::read_target(alloc, text.as_bytes()) {
        Ok(target) => Ok(Some(target)),
        Err(TargetRefusal::BadTarget(_)) => Ok(None),
        Err(TargetRefusal::NoMemory) => Err(WordFault::NoMemory),
    }
}

/// The command of that name.
fn command_named(word: &str) -> Option<Command>
    ensures { result ≡ command_named word.now }
{
    match word {
        "explore" => Some(Command::Explore),
        "tests" => Some(Command::Tests),
        "diagrams" => Some(Command::Diagrams),
        "replay" => Some(Command::Replay),
        "assemble" => Some(Command::Assemble),
        "sample" => Some(Command::Sample),
        _ => None,
    }
}

/// The order of a command with the words behind it.
fn read_order(
    alloc: Global,
    target: Option<Target>,
    command: Command,
    words: &[String],
) -> Result<Order, WordFault>
    requires { IfSome target IsTarget }
    ensures order { Gives (λ order. order) result (order_by target command (map string_bytes words.now)) }
    ensures ranges { IfOk result IsOrder }
{
    match command {
        Command::Replay => read_replay(alloc, words),
        Command::Assemble => read_assembly(alloc, words),
        Command::Sample => read_sample(words),
        Command::Explore | Command::Tests | Command::Diagrams => {
            read_exploration(alloc, target, command, words)
        }
    }
}

/// The order of a command that explores with the words behind it.
fn read_exploration(
    alloc: Global,
    target: Option<Target>,
    command: Command,
    words: &[String],
) -> Result<Order, WordFault>
    requires { IfSome target IsTarget }
    ensures order { Gives (λ order. order) result (exploration_of target command (map string_bytes words.now)) }
    ensures ranges { IfOk result IsOrder }
{
    let job = read_job(alloc, target, command, words)?;
    Ok(explored(command, job))
}

/// The order to explore a job.
fn explored(command: Command, job: Job) -> Order
    requires { IsJob job }
    ensures order { result ≡ explored command job }
    ensures ranges { IsOrder result }
{
    match command {
        Command::Tests => Order::Tests(job),
        Command::Diagrams => Order::Diagrams(job),
        _ => Order::Explore(job),
    }
}

/// The job of the words behind a command that explores.
#[tactic(auto, unfolding(crate::specs::Orders::job_of))]
fn read_job(
    alloc: Global,
    target: Option<Target>,
    command: Command,
    words: &[String],
) -> Result<Job, WordFault>
    requires { IfSome target IsTarget }
    ensures job { Gives (λ job. job) result (job_of target command (map string_bytes words.now)) }
    ensures ranges { IfOk result IsJob }
{
    let settings = read_settings(alloc, target.is_some(), command, words)?;
    job_from(alloc, target, settings.as_slice(), files_of(words))
}

/// The job of options and files, where that is the target of the method.
fn job_from(
    alloc: Global,
    target: Option<Target>,
    settings: &[Setting],
    files: &[String],
) -> Result<Job, WordFault>
    requires { IfSome target IsTarget }
    ensures job { Gives (λ job. job) result (job_from target settings.now (map string_bytes files.now)) }
    ensures ranges { IfOk result IsJob }
{
    match target {
        Some(target) => job_on(alloc, settings, files, target),
        None => Err(WordFault::NoMethod),
    }
}

#[tactic(auto, using(crate::proofs::OrderLaws::no_files, crate::proofs::OrderLaws::some_files))]
fn job_on(
    alloc: Global,
    settings: &[Setting],
    files: &[String],
    target: Target,
) -> Result<Job, WordFault>
    requires { IsTarget target }
    ensures job { Gives (λ job. job) result (job_on settings.now (map string_bytes files.now) target) }
    ensures ranges { IfOk result IsJob }
{
    if files.is_empty() {
        return Err(WordFault::NoFiles);
    }
    if_enough(job_with(settings, words_of(alloc, files)?, target))
}

/// The job, where it asks for no more than may be asked for.
fn if_enough(job: Job) -> Result<Job, WordFault>
    requires target { IsTarget job.target }
    requires bounds { AreBounds job.bounds }
    requires some_paths { 1 ≤ job.paths }
    requires paths { job.paths ≤ 100000 }
    requires some_budget { 1 ≤ job.budget }
    requires budget { job.budget ≤ 100000 }
    ensures job { Gives (λ told. told) result (if_enough job) }
    ensures ranges { IfOk result IsJob }
{
    if job.paths as u64 * job.budget as u64 > MOST_DERIVED {
        return Err(WordFault::TooMuch);
    }
    Ok(job)
}

/// The job on a target and files, where options say or leave what else it has.
fn job_with(settings: &[Setting], files: Row<Word>, target: Target) -> Job
    ensures job { result ≡ job_with settings.now files target }
    ensures bounds { AreBounds result.bounds }
    ensures some_paths { 1 ≤ result.paths }
    ensures paths { result.paths ≤ 100000 }
    ensures some_budget { 1 ≤ result.budget }
    ensures budget { result.budget ≤ 100000 }
{
    Job {
        target,
        init: init_given(settings),
        bounds: bounds_given(settings),
        paths: number_given(OptionName::Paths, 1_000, settings),
        budget: number_given(OptionName::Budget, 2_000, settings),
        files,
    }
}

/// The bounds that stand where no option gives one.
pub fn default_bounds() -> Bounds
    ensures bounds { result ≡ default_bounds }
    ensures ranges { AreBounds result }
{
    bounds_given(&[])
}

fn bounds_given(settings: &[Setting]) -> Bounds
    ensures bounds { result ≡ bounds_given settings.now }
    ensures ranges { AreBounds result }
{
    Bounds {
        k: number_given(OptionName::K, 3, settings),
        array: number_given(OptionName::Array, 3, settings),
        run: RunBounds {
            alloc: number_given(OptionName::Alloc, 16, settings),
            loops: number_given(OptionName::Loops, 10, settings),
            depth: number_given(OptionName::Depth, 16, settings),
            steps: number_given(OptionName::Steps, 2_000, settings),
        },
    }
}

/// The number that was given to an option, or the one that stands where none was.
fn number_given(option: OptionName, default: u32, settings: &[Setting]) -> u32
    requires low { (range_of option).low ≤ default }
    requires high { default ≤ (range_of option).high }
    ensures number { result ≡ number_given option default settings.now }
    ensures low { (range_of option).low ≤ result }
    ensures high { result ≤ (range_of option).high }
{
    let Some(word) = value_given(option, settings) else {
        return default;
    };
    match number_within(range_of(option), word.as_str().as_bytes()) {
        Some(number) => number,
        None => default,
    }
}

fn init_given(settings: &[Setting]) -> Init
    ensures { result ≡ init_given settings.now }
{
    let Some(word) = value_given(OptionName::Init, settings) else {
        return Init::Lazy;
    };
    match init_named(word.as_str()) {
        Some(init) => init,
        None => Init::Lazy,
    }
}

/// The order of the words behind `replay`.
#[tactic(auto, using(crate::proofs::OrderLaws::replay_no_files, crate::proofs::OrderLaws::replay_some_files), unfolding(crate::specs::Orders::replay_of))]
fn read_replay(alloc: Global, words: &[String]) -> Result<Order, WordFault>
    ensures order { Gives (λ order. order) result (replay_of (map string_bytes words.now)) }
    ensures ranges { IfOk result IsOrder }
{
    let settings = read_settings(alloc, false, Command::Replay, words)?;
    let Some(tests) = value_given(OptionName::Tests, settings.as_slice()) else {
        return Err(WordFault::NoTests);
    };
    let workers = number_given(OptionName::Workers, 1, settings.as_slice());
    let files = files_of(words);
    if files.is_empty() {
        return Err(WordFault::NoFiles);
    }
    let tests = Word::from_text(alloc, tests.as_str())?;
    Ok(Order::Replay(tests, words_of(alloc, files)?, workers))
}

/// The order of the words behind `assemble`.
#[tactic(auto, unfolding(crate::specs::Orders::assembly_of))]
fn read_assembly(alloc: Global, words: &[String]) -> Result<Order, WordFault>
    ensures order { Gives (λ order. order) result (assembly_of (map string_bytes words.now)) }
    ensures ranges { IfOk result IsOrder }
{
    match words {
        [] => Err(WordFault::NoValue(0)),
        [text] => Ok(Order::Assemble(Word::from_text(alloc, text.as_str())?)),
        _ => Err(WordFault::Unknown(2)),
    }
}

/// The order of the words behind `sample`.
#[tactic(auto, unfolding(crate::specs::Orders::sample_of))]
fn read_sample(words: &[String]) -> Result<Order, WordFault>
    ensures order { result ≡ sample_of (map string_bytes words.now) }
    ensures ranges { IfOk result IsOrder }
{
    let [word, more @ ..] = words else {
        return Err(WordFault::NoValue(0));
    };
    let blocks = sample_at(word.as_str())?;
    if more.is_empty() {
        Ok(Order::Sample(blocks))
    } else {
        Err(WordFault::Unknown(2))
    }
}

/// How many blocks a sample is to have, by the word behind the command.
fn sample_at(word: &str) -> Result<u32, WordFault>
    ensures blocks { result ≡ sample_at word.now }
    ensures range { IfOk result (λ blocks. blocks ≤ 64) }
{
    if !is_number(word.as_bytes()) {
        return Err(WordFault::BadNumber(1));
    }
    match number_within(SAMPLE_RANGE, word.as_bytes()) {
        Some(blocks) => Ok(blocks),
        None => Err(WordFault::OutOfRange(1)),
    }
}

/// The words, each in a place of its own.
fn words_of(alloc: Global, words: &[String]) -> Result<Row<Word>, WordFault>
    ensures words { IfOk result (λ copied. copied ≡ map string_bytes words.now) }
    ensures memory { IfErr result (λ fault. fault ≡ WordFault.NoMemory) }
{
    let mut copied = Row::new(alloc);
    for word in words {
        copied.push(Word::from_text(alloc, word.as_str())?)?;
    }
    Ok(copied)
}

/// Words have one order or one fault.
pub fn words_have_one_order()
    ensures { (words : List (List ℕ)) (one other : Result Ordered Fault) → Orders words one → Orders words other → one ≡ other }
{}
