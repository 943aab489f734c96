ghost use Rattle.std.specs.Prelude.{◌≡◌, IfOk};
ghost use Rattle.gl_desk.specs.Answers.{OnlyReads, stop_of};
ghost use Rattle.gl_words.specs.DayNames.{names_seen};
ghost use Rattle.gl_day_files.specs.DayFiles.{IsScoreSeen, check_tests};
ghost use Rattle.gl_answer.specs.FileTests.{HasTested};
ghost use Rattle.gl_answer.specs.Halts.{halt_stop};
ghost use Rattle.gl_answer.specs.Answer.{answer_of};
ghost use Rattle.gl_day_claims.specs.Check.{IsCheck, IsProofChecked, checked_answer};

use crate::checking::check_file;
use gl_answer::{Answer, Halt, MOST_PROOF_BYTES, Status, accepted_line, answer_halt, wrong_line};
use gl_day::Checked;
use gl_day_files::test_check_files;
use gl_desk::{Desk, DeskError};
use gl_words::DayNames;
use std::alloc::{AllocError, Global};

/// What is said of a proof by the files of its day: that its claims are accepted, or the first that
/// is wrong. A proof of more than `most` bytes is refused.
pub fn check_proof<D: Desk>(
    alloc: Global,
    desk: &mut D,
    day: DayNames<'_>,
    most: u64,
) -> Result<Checked, Halt>
    ensures checked { HasTested (IsScoreSeen (names_seen day.entry) (D.told desk.old).folder)
        (check_tests most (names_seen day.entry))
        (IsProofChecked (D.told desk.old).folder) result }
    ensures reads { OnlyReads (halt_stop result) (D.told desk.old) (D.told desk.new) }
{
    let names = desk.names(alloc)?;
    let files = test_check_files(alloc, desk, &names, day)?;
    check_file(alloc, desk, &names, &files, day.proof, most)
}

/// The answer that says what was found.
pub fn checked_answer(alloc: Global, said: Checked) -> Result<Answer, AllocError>
    ensures { IfOk result (λ answer. answer_of answer ≡ checked_answer said) }
{
    match said {
        Checked::Accepted { claims } => Ok(Answer {
            status: Status::Done,
            text: accepted_line(alloc, claims)?,
        }),
        Checked::Refused(wrong) => Ok(Answer {
            status: Status::NotProved,
            text: wrong_line(
                alloc,
                wrong.claim,
                wrong.fault.word(),
                wrong.fault.box_number(),
            )?,
        }),
    }
}

/// The answer of `check TASK PROOF`: whether the proof is that of the day.
pub fn check<D: Desk>(alloc: Global, desk: &mut D, day: DayNames<'_>) -> Result<Answer, DeskError>
    ensures right { IfOk result (λ answer.
        IsCheck (D.told desk.old).folder (names_seen day.entry) (answer_of answer)) }
    ensures reads { OnlyReads (stop_of result) (D.told desk.old) (D.told desk.new) }
{
    match check_proof(alloc, desk, day, MOST_PROOF_BYTES) {
        Ok(said) => Ok(checked_answer(alloc, said)?),
        Err(halt) => answer_halt(alloc, halt),
    }
}
