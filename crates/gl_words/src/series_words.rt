ghost use Rattle.std.specs.Prelude.{◌≡◌, Some, option_map};
ghost use Rattle.gl_words.specs.SeriesWords.{series_seen};
ghost use Rattle.gl_words.specs.Words.{series_form, series_words};

use crate::day_number::read_within;
use gl_desk::Name;
use gl_text::is_file_name;

/// The most days that are left out.
const MOST_LEFT_OUT: u32 = 30;

/// What `series` is given.
#[derive(Clone, Copy, Debug)]
pub struct SeriesWords<'a> {
    /// The file of the list.
    pub list: &'a Name,
    /// How many days are left out for each pilot.
    pub left_out: u32,
}

/// What `series` is given, where the name is that of a file.
fn series_words(list: &Name, left_out: u32) -> Option<SeriesWords<'_>>
    ensures { option_map series_seen result ≡ series_words list.now (Some left_out) }
{
    if is_file_name(list.as_str()) {
        Some(SeriesWords { list, left_out })
    } else {
        None
    }
}

/// The name and the number of days in `series LIST DROP`, where the number is 0 to 30.
pub fn read_series(words: &[Name]) -> Option<SeriesWords<'_>>
    ensures { option_map series_seen result ≡ series_form words.now }
{
    match words {
        [word, list, days] if word.as_str() == "series" => {
            series_words(list, read_within(days, 0, MOST_LEFT_OUT)?)
        }
        _ => None,
    }
}
