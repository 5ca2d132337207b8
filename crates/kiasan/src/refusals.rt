//! What stops the program, and the answer of a refusal: its status and its line.

ghost use Rattle.std.specs.Prelude.{◌≡◌, IfOk};
ghost use Rattle.kb_refusals.specs.Refusals.{refusal_line, refusal_status};
ghost use Rattle.kiasan.specs.Answers.{ComesTo};

use crate::NoMemory;
use kb_refusals::{Refusal, Status, TextRefusal, is_refusal, refusal_line, refusal_status};
use kb_test::TestRefusal;
use kb_words::WordFault;
use kb_world::LinkRefusal;
use std::alloc::{AllocFailed, Global};

/// Why there is no text to write, or why it is that of a refusal.
#[derive(Drop)]
pub enum Stop {
    Refused(Refusal),
    /// A file could not be read.
    ReadFault,
    NoMemory,
}

impl From<Refusal> for Stop {
    ghost use Rattle.kiasan.specs.Refusals.{stop_of};

    ghost from_gives = { λ refusal e. e ≡ stop_of refusal };

    fn from(refusal: Refusal) -> Stop {
        if is_refusal(&refusal) {
            Stop::Refused(refusal)
        } else {
            Stop::NoMemory
        }
    }
}

impl From<NoMemory> for Stop {
    ghost use Rattle.kiasan.specs.declared.refusals.Stop.TheVariants.{NoMemory};

    ghost from_gives = { λ _ e. e ≡ NoMemory };

    fn from(_refusal: NoMemory) -> Stop {
        Stop::NoMemory
    }
}

impl<T: Drop> From<AllocFailed<T>> for Stop {
    ghost use Rattle.kiasan.specs.declared.refusals.Stop.TheVariants.{NoMemory};

    ghost from_gives = { λ _ e. e ≡ NoMemory };

    fn from(_failed: AllocFailed<T>) -> Stop {
        Stop::NoMemory
    }
}

impl From<WordFault> for Stop {
    ghost use Rattle.kiasan.specs.Refusals.{word_refusal};

    ghost from_gives = { λ fault e. e ≡ word_refusal fault };

    fn from(fault: WordFault) -> Stop {
        Stop::from(Refusal::Words(fault))
    }
}

impl From<LinkRefusal> for Stop {
    ghost use Rattle.kiasan.specs.Refusals.{link_refusal};

    ghost from_gives = { λ refusal e. e ≡ link_refusal refusal };

    fn from(refusal: LinkRefusal) -> Stop {
        Stop::from(Refusal::Link(refusal))
    }
}

impl From<TestRefusal> for Stop {
    ghost use Rattle.kiasan.specs.Refusals.{tests_refusal};

    ghost from_gives = { λ refusal e. e ≡ tests_refusal refusal };

    fn from(refusal: TestRefusal) -> Stop {
        match refusal {
            TestRefusal::TestLine(number) => {
                Stop::Refused(Refusal::Text(TextRefusal::TestLine(number)))
            }
            TestRefusal::NoMemory => Stop::NoMemory,
        }
    }
}

/// A status, and the text that is written with it.
#[derive(Drop)]
pub struct Answer {
    pub status: Status,
    pub text: Vec<u8>,
}

/// Why there is no answer.
#[derive(Clone, Copy)]
pub enum Fault {
    /// A file could not be read.
    Read,
    NoMemory,
}

/// What a stop comes to: the answer of its refusal, or no answer.
pub fn settle(alloc: Global, stop: Stop) -> Result<Answer, Fault>
    ensures { ComesTo stop result }
{
    answer_stop(alloc, &stop)
}

// What a stop that is lent comes to.
fn answer_stop(alloc: Global, stop: &Stop) -> Result<Answer, Fault>
    ensures { ComesTo stop.now result }
{
    match stop {
        Stop::Refused(refusal) => match answer_refusal(alloc, refusal) {
            Ok(answer) => Ok(answer),
            Err(NoMemory) => Err(Fault::NoMemory),
        },
        Stop::ReadFault => Err(Fault::Read),
        Stop::NoMemory => Err(Fault::NoMemory),
    }
}

/// What the program answers where it refuses.
fn answer_refusal(alloc: Global, refusal: &Refusal) -> Result<Answer, NoMemory>
    ensures status { IfOk result (λ a. a.status ≡ refusal_status refusal.now) }
    ensures text { IfOk result (λ a. a.text.items ≡ refusal_line refusal.now) }
{
    let text = refusal_line(alloc, refusal)?;
    Ok(Answer {
        status: refusal_status(refusal),
        text,
    })
}
