//! The assembler: the class file of a text.

ghost use Rattle.kb_asm.specs.Class.{IsAssembled};
ghost use Rattle.kiasan.specs.Answers.{Carries, LineRefuses, RepliesAssembly};
ghost use Rattle.kiasan.specs.Refusals.{Gives};

use crate::answer::TEXT_LIMIT;
use crate::refusals::{Answer, Stop};
use kb_asm::{AsmRefusal, assemble};
use kb_refusals::{Refusal, Status, TextRefusal};
use std::alloc::Global;

/// What the program answers to a text that is to be assembled, where these are its bytes.
pub fn answer_assembly(alloc: Global, bytes: &[u8]) -> Result<Answer, Stop>
    ensures { Carries ⊥ (RepliesAssembly bytes.now) result }
{
    if bytes.len() > TEXT_LIMIT {
        return Err(Stop::Refused(Refusal::Text(TextRefusal::Long)));
    }
    let text = assembled(alloc, bytes)?;
    Ok(Answer {
        status: Status::Complete,
        text,
    })
}

/// The class file of a text.
pub fn assembled(alloc: Global, text: &[u8]) -> Result<Vec<u8>, Stop>
    ensures { Gives ⊥ (LineRefuses text.now) (λ bytes. IsAssembled text.now bytes.items) result }
{
    match assemble(alloc, text) {
        Ok(bytes) => Ok(bytes),
        Err(AsmRefusal::Line(number)) => Err(Stop::Refused(Refusal::Text(TextRefusal::AssemblyLine(
            number,
        )))),
        Err(AsmRefusal::NoMemory) => Err(Stop::NoMemory),
    }
}
