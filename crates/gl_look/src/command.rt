ghost use Rattle.std.specs.Prelude.{◌≡◌, IfOk};
ghost use Rattle.gl_desk.specs.Answers.{OnlyReads, stop_of};
ghost use Rattle.gl_look.specs.Code.Run.{Answers, IsAnswerFor};
ghost use Rattle.gl_look.specs.Run.{IsRun};

use crate::answer::Status;
use crate::looking::look;
use crate::words::{USAGE, read_words};
use gl_desk::{Desk, DeskError, Name};
use std::alloc::Global;

/// What a run ends with: the status, and the text that it says.
#[derive(Debug, Drop)]
pub struct Answer {
    pub status: Status,
    pub text: Vec<u8>,
}

/// The answer to words that ask to look over a task file.
fn answer_for<D: Desk>(alloc: Global, desk: &mut D, file: &Name) -> Result<Answer, DeskError>
    ensures is { IfOk result (IsAnswerFor (D.told desk.old).folder file.now) }
    ensures reads { OnlyReads (stop_of result) (D.told desk.old) (D.told desk.new) }
{
    let remarks = look(alloc, desk, file)?;
    if remarks.is_empty() {
        return Ok(Answer {
            status: Status::Clear,
            text: Vec::new(alloc),
        });
    }
    Ok(Answer {
        status: Status::Remarks,
        text: remarks.text(alloc)?,
    })
}

/// The answer to the words.
fn answer_to<D: Desk>(alloc: Global, words: &[Name], desk: &mut D) -> Result<Answer, DeskError>
    ensures is { IfOk result (Answers (D.told desk.old).folder words.now) }
    ensures reads { OnlyReads (stop_of result) (D.told desk.old) (D.told desk.new) }
{
    match read_words(words) {
        Some(file) => answer_for(alloc, desk, file),
        None => Ok(Answer {
            status: Status::Words,
            text: Vec::from_slice(alloc, USAGE.as_bytes())?,
        }),
    }
}

/// Looks over the folder of a day as the words say, which are those after the program's own name,
/// and says the remarks in one piece. Nothing is written. The status is [`Status::Clear`] exactly
/// if there is nothing to remark, and nothing is said then.
pub fn run<D: Desk>(alloc: Global, words: &[Name], desk: &mut D) -> Status
    ensures { IsRun words.now result (D.told desk.old) (D.told desk.new) }
{
    let answer = match answer_to(alloc, words, desk) {
        Ok(answer) => answer,
        Err(stop) => return Status::from(stop),
    };
    match desk.say(alloc, &answer.text) {
        Ok(()) => answer.status,
        Err(stop) => Status::from(stop),
    }
}
