ghost use Rattle.std.specs.Prelude.{IfOk};
ghost use Rattle.gl_desk.specs.Answers.{OnlyReads, stop_of};
ghost use Rattle.gl_series.specs.SeriesList.{IsSeries};
ghost use Rattle.gl_series.specs.Totals.{AreDays};
ghost use Rattle.gl_words.specs.SeriesWords.{series_seen};
ghost use Rattle.gl_answer.specs.Answer.{answer_of};
ghost use Rattle.gl_flights.specs.Series.{IsStandingText, IsSeries as IsRightSeries};

use crate::series_files::test_series_files;
use gl_answer::{Answer, answer_halt, done};
use gl_desk::{Desk, DeskError};
use gl_series::{DaySheet, Series, series_text, totals};
use gl_words::SeriesWords;
use std::alloc::{AllocError, Global};

/// The text of the standing after some days, where so many are left out for each pilot.
fn text_of_standing(
    alloc: Global,
    series: &Series,
    sheets: &[DaySheet],
    left_out: u32,
) -> Result<Vec<u8>, AllocError>
    requires days { AreDays sheets.now }
    requires series { IsSeries series.now }
    ensures { IfOk result (λ text.
        IsStandingText series.now sheets.now left_out text.items) }
{
    let standing = totals(alloc, series, sheets, left_out)?;
    series_text(alloc, &standing)
}

/// The answer of `series LIST DROP`: the standing of the championship whose days and teams the list
/// names, where the sheets of the days are added up and so many days are left out for each pilot.
pub fn series<D: Desk>(
    alloc: Global,
    desk: &mut D,
    words: SeriesWords<'_>,
) -> Result<Answer, DeskError>
    ensures right { IfOk result (λ answer.
        IsRightSeries (D.told desk.old).folder (series_seen words.entry) (answer_of answer)) }
    ensures reads { OnlyReads (stop_of result) (D.told desk.old) (D.told desk.new) }
{
    let names = desk.names(alloc)?;
    match test_series_files(alloc, desk, &names, words) {
        Ok((series, sheets)) => done(text_of_standing(alloc, &series, &sheets, words.left_out)),
        Err(halt) => answer_halt(alloc, halt),
    }
}
