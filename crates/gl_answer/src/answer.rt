ghost use Rattle.std.specs.Prelude.{◌≡◌, IfOk};
ghost use Rattle.gl_answer.specs.Answer.{AnswersHalt, SaysDone, answer_of, refused};

use crate::halt::Halt;
use crate::line::refusal_line;
use crate::refusal::Cause;
use crate::status::Status;
use gl_desk::{DeskError, Name};
use std::alloc::{AllocError, Global};

/// What a run ends with: the status, and the text that it says. Nothing is appended.
#[derive(Debug, Drop)]
pub struct Answer {
    pub status: Status,
    pub text: Vec<u8>,
}

/// The answer of a run whose file is refused.
fn refuse(alloc: Global, file: &Name, cause: Cause) -> Result<Answer, AllocError>
    ensures { IfOk result (λ answer. answer_of answer ≡ refused file.now cause) }
{
    Ok(Answer {
        status: Status::Refused,
        text: refusal_line(alloc, file, cause)?,
    })
}

/// The answer of a command that was carried out: it says a text, if there was memory for that.
pub fn done(text: Result<Vec<u8>, AllocError>) -> Result<Answer, DeskError>
    ensures { SaysDone text result }
{
    Ok(Answer {
        status: Status::Done,
        text: text?,
    })
}

/// The answer to what ended a command before its own: the line of a refusal.
pub fn answer_halt(alloc: Global, halt: Halt) -> Result<Answer, DeskError>
    ensures { AnswersHalt halt result }
{
    match halt {
        Halt::Refused(refusal) => Ok(refuse(alloc, &refusal.file, refusal.cause)?),
        Halt::Stopped(stop) => Err(stop),
    }
}
