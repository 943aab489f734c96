ghost use Rattle.std.specs.Prelude.{◌≡◌, ◌<◌, ◌≤ℤ◌, pos, IfSome};
ghost use Rattle.toml.specs.View.{view};
ghost use Rattle.gl_task.specs.Limits.{first_day, last_day};
ghost use Rattle.gl_task_file.specs.Values.{day, day_of, recent_day};

use gl_igc::day_number;
use gl_text::read_digits;
use toml::Value;

/// How many bytes write a day.
const DAY_LENGTH: usize = 10;

/// The first and the last year of a task.
const FIRST_YEAR: u32 = 2_000;

const LAST_YEAR: u32 = 2_099;

/// The day number of a day in the years 2000 to 2099.
#[tactic(auto, unfolding(crate::specs::Values::recent_day), using(crate::proofs::DayLemmas::recent_range))]
fn recent_day(year: u32, month: u32, day: u32) -> Option<i32>
    requires month { month < 100 }
    requires day { day < 100 }
    ensures day { result ≡ recent_day year month day }
    ensures range { IfSome result
        (λ number. (pos first_day ≤ℤ number) × (number ≤ℤ pos last_day)) }
{
    if FIRST_YEAR <= year && year <= LAST_YEAR {
        day_number(year, month, day)
    } else {
        None
    }
}

/// The day number, from 1970-01-01, of the day that YYYY-MM-DD says, in the years 2000 to 2099.
/// `None` where the text hasn't that form or the calendar hasn't the day.
#[tactic(auto, unfolding(crate::specs::Values::day_of))]
fn day_of(text: &[u8]) -> Option<i32>
    ensures day { result ≡ day_of text.now }
    ensures range { IfSome result
        (λ number. (pos first_day ≤ℤ number) × (number ≤ℤ pos last_day)) }
{
    if text.len() != DAY_LENGTH || text[4] != b'-' || text[7] != b'-' {
        return None;
    }
    let year = read_digits(&text[..4])?;
    let month = read_digits(&text[5..7])?;
    let day = read_digits(&text[8..])?;
    recent_day(year, month, day)
}

/// The day of a value.
pub fn day(value: &Value) -> Option<i32>
    ensures day { result ≡ day (view value.now) }
    ensures range { IfSome result
        (λ number. (pos first_day ≤ℤ number) × (number ≤ℤ pos last_day)) }
{
    day_of(value.as_str()?.as_bytes())
}
