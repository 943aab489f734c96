ghost use Rattle.std.specs.Prelude.{◌≡◌, option_map, IfOk};
ghost use Rattle.gl_desk.specs.Answers.{OnlyReads, stop_of};
ghost use Rattle.gl_why.specs.Code.Questions.{question_seen};
ghost use Rattle.gl_why.specs.Code.Run.{Answers, IsAnswerFor};
ghost use Rattle.gl_why.specs.Run.{IsRun, IsTold, status_of_facts};

use crate::answer::Status;
use crate::day::tell_day;
use crate::fixes::tell;
use crate::lines::Lines;
use crate::question::{Question, USAGE, read_words};
use gl_desk::{Desk, DeskError, Name};
use std::alloc::{AllocError, Global};

/// What a run ends with: the status, and the text that it says.
#[derive(Debug, Drop)]
pub struct Answer {
    pub status: Status,
    pub text: Vec<u8>,
}

/// What is told in answer to a question.
fn lines_for<D: Desk>(
    alloc: Global,
    desk: &mut D,
    question: Question<'_>,
) -> Result<Lines, DeskError>
    ensures is { IfOk result
        (IsTold (D.told desk.old).folder (question_seen question.entry)) }
    ensures reads { OnlyReads (stop_of result) (D.told desk.old) (D.told desk.new) }
{
    match question {
        Question::All(file) => tell_day(alloc, desk, file, None),
        Question::One(file, number) => tell_day(alloc, desk, file, Some(number)),
        Question::Fixes(file, numbers) => tell(alloc, desk, file, numbers),
    }
}

/// How a run ends that tells these lines.
fn status_of(lines: &Lines) -> Status
    ensures { result ≡ status_of_facts lines.now }
{
    if lines.has_refusal() {
        Status::Refused
    } else {
        Status::Said
    }
}

/// The answer to a question.
fn answer_for<D: Desk>(
    alloc: Global,
    desk: &mut D,
    question: Question<'_>,
) -> Result<Answer, DeskError>
    ensures is { IfOk result
        (IsAnswerFor (D.told desk.old).folder (question_seen question.entry)) }
    ensures reads { OnlyReads (stop_of result) (D.told desk.old) (D.told desk.new) }
{
    let lines = lines_for(alloc, desk, question)?;
    Ok(Answer {
        status: status_of(&lines),
        text: lines.text(alloc)?,
    })
}

/// The answer to the words.
fn answer_to<D: Desk>(alloc: Global, words: &[Name], desk: &mut D) -> Result<Answer, DeskError>
    ensures is { IfOk result (Answers (D.told desk.old).folder words.now) }
    ensures reads { OnlyReads (stop_of result) (D.told desk.old) (D.told desk.new) }
{
    match read_words(words) {
        Some(question) => answer_for(alloc, desk, question),
        None => Ok(Answer {
            status: Status::Words,
            text: Vec::from_slice(alloc, USAGE.as_bytes())?,
        }),
    }
}

/// Answers the question that the words ask, which are those after the program's own name, and says
/// the answer in one piece. Nothing is written. The status is [`Status::Refused`] exactly if a file
/// can't be used.
pub fn run<D: Desk>(alloc: Global, words: &[Name], desk: &mut D) -> Status
    ensures { IsRun words.now result (D.told desk.old) (D.told desk.new) }
{
    let answer = match answer_to(alloc, words, desk) {
        Ok(answer) => answer,
        Err(stop) => return Status::from(stop),
    };
    match desk.say(alloc, &answer.text) {
        Ok(()) => answer.status,
        Err(stop) => Status::from(stop),
    }
}
