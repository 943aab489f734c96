ghost use Rattle.std.specs.Prelude.{◌≡◌, IfErr, IfOk, map};
ghost use Rattle.gl_day.specs.Flight.{steward_rules};
ghost use Rattle.gl_words.specs.DayNames.{names_seen};
ghost use Rattle.gl_answer.specs.Given.{HasAnswered, IsStopped};
ghost use Rattle.gl_day_claims.specs.Score.{score_promise};

use crate::scoring::score_day;
use gl_answer::{Answer, Status, answer_halt};
use gl_day::Search;
use gl_day_files::test_score_files;
use gl_desk::{Desk, DeskError};
use gl_task::Steward;
use gl_words::DayNames;
use std::alloc::Global;

/// The answer of `score TASK PROOF WORKERS`: the sheet of the day. Its proof is appended to the
/// file.
pub fn score<D: Desk, S: Search>(
    alloc: Global,
    desk: &mut D,
    search: &S,
    day: DayNames<'_>,
    stewards: &mut Vec<Box<dyn Steward>>,
) -> Result<Answer, DeskError>
    requires { S.ready search.now }
    ensures right { IfOk result (HasAnswered (score_promise (D.told desk.old).folder
        (map (λ s. steward_rules (opening s) (fed s) (owed s)) stewards.old.items)
        (names_seen day.entry)) (D.told desk.old) (D.told desk.new)) }
    ensures stopped { IfErr result (IsStopped (score_promise (D.told desk.old).folder
        (map (λ s. steward_rules (opening s) (fed s) (owed s)) stewards.old.items)
        (names_seen day.entry)) (D.told desk.old) (D.told desk.new)) }
    ensures kept { map (λ s. steward_rules (opening s) (fed s) (owed s)) stewards.new.items
        ≡ map (λ s. steward_rules (opening s) (fed s) (owed s)) stewards.old.items }
{
    let names = desk.names(alloc)?;
    let files = match test_score_files(alloc, desk, &names, day) {
        Ok(files) => files,
        Err(halt) => return answer_halt(alloc, halt),
    };
    let sheet = score_day(alloc, desk, search, &names, &files, day.proof, stewards)?;
    Ok(Answer {
        status: Status::Done,
        text: sheet,
    })
}
