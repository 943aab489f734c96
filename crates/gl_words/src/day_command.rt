ghost use Rattle.std.specs.Prelude.{◌≡◌, option_map};
ghost use Rattle.gl_words.specs.DayCommand.{day_seen};
ghost use Rattle.gl_words.specs.DayWords.{Check, Score, check_form, day_command_of, score_form};

use crate::day_names::{DayNames, read_check, read_score};
use gl_desk::Name;

/// A command of a day, and what it is given.
#[derive(Clone, Copy)]
pub enum DayCommand<'a> {
    /// `score TASK PROOF WORKERS`: the sheet of a day, and its proof.
    Score(DayNames<'a>),
    /// `check TASK PROOF`: whether a proof is that of a day.
    Check(DayNames<'a>),
}

/// `score TASK PROOF WORKERS`.
fn read_score_command(words: &[Name]) -> Option<DayCommand<'_>>
    ensures { option_map day_seen result ≡ option_map Score (score_form words.now) }
{
    let day = read_score(words)?;
    Some(DayCommand::Score(day))
}

/// `check TASK PROOF`.
fn read_check_command(words: &[Name]) -> Option<DayCommand<'_>>
    ensures { option_map day_seen result ≡ option_map Check (check_form words.now) }
{
    let day = read_check(words)?;
    Some(DayCommand::Check(day))
}

/// The command of a day that the words are a form of; `None` where they are of no such form.
pub fn read_day_words(words: &[Name]) -> Option<DayCommand<'_>>
    ensures { option_map day_seen result ≡ day_command_of words.now }
{
    read_score_command(words).or_else(|| read_check_command(words))
}
