ghost use Rattle.std.specs.Prelude.{◌≡◌, codes, option_map};
ghost use Rattle.gl_text.specs.Forms.{is_file_name, is_in_file_name};
ghost use Rattle.gl_words.specs.Words.{Badge, BadgeCheck, Demo, Free, Near, NearCheck, Point, Replay, Series, Triangle, badge_command, badge_form, command_of, demo_form, file_command, file_form, flights_command, near_command, near_form, numbered_command, point_form, replay_form, series_form};
ghost use Rattle.gl_words.specs.Command.{seen};

use crate::badge_words::{BadgeWords, read_badge_words};
use crate::day_number::{DayNumber, read_demo};
use crate::near_words::{NearWords, PointWords, read_near_words, read_point};
use crate::replay_words::{ReplayWords, read_replay};
use crate::series_words::{SeriesWords, read_series};
use gl_desk::Name;
use gl_text::is_file_name;

/// A command that isn't one of a day, and what it is given.
#[derive(Clone, Copy)]
pub enum Command<'a> {
    /// `free FILE`: the best free distance of a recording.
    Free(&'a Name),
    /// `triangle FILE`: the best triangle of a recording.
    Triangle(&'a Name),
    /// `replay FILE SCHEDULE WORKERS`: the best free distance of a recording by a schedule.
    Replay(ReplayWords<'a>),
    /// `near FILE OTHER SECONDS PROOF`: how near two flights came, and its proof.
    Near(NearWords<'a>),
    /// `nearcheck FILE OTHER SECONDS PROOF`: whether a proof is that of two flights.
    NearCheck(NearWords<'a>),
    /// `point FILE PLACE`: how near a flight came to a place.
    Point(PointWords<'a>),
    /// `badge FILE PROOF`: which badge limits a flight met, and its proof.
    Badge(BadgeWords<'a>),
    /// `badgecheck FILE PROOF`: whether a proof is that of a flight's badge claims.
    BadgeCheck(BadgeWords<'a>),
    /// `series LIST DROP`: the standing of a championship.
    Series(SeriesWords<'a>),
    /// `demo NUMBER`: the sheet of a generated day.
    Demo(DayNumber),
}

/// The name in `free FILE`, or behind another first word.
fn read_file<'a>(first: &str, words: &'a [Name]) -> Option<&'a Name>
    ensures { option_map (λ file. file.now) result ≡ file_form first.now words.now }
{
    match words {
        [word, file] if word.as_str() == first && is_file_name(file.as_str()) => Some(file),
        _ => None,
    }
}

/// `free FILE`.
fn read_free_command(words: &[Name]) -> Option<Command<'_>>
    ensures { option_map seen result ≡ option_map Free (file_form (codes "free") words.now) }
{
    let file = read_file("free", words)?;
    Some(Command::Free(file))
}

/// `triangle FILE`.
fn read_triangle_command(words: &[Name]) -> Option<Command<'_>>
    ensures { option_map seen result
        ≡ option_map Triangle (file_form (codes "triangle") words.now) }
{
    let file = read_file("triangle", words)?;
    Some(Command::Triangle(file))
}

/// A command that says something of one recording.
fn read_course(words: &[Name]) -> Option<Command<'_>>
    ensures { option_map seen result ≡ file_command words.now }
{
    read_free_command(words).or_else(|| read_triangle_command(words))
}

/// `replay FILE SCHEDULE WORKERS`.
fn read_replay_command(words: &[Name]) -> Option<Command<'_>>
    ensures { option_map seen result ≡ option_map Replay (replay_form words.now) }
{
    let replay = read_replay(words)?;
    Some(Command::Replay(replay))
}

/// `near FILE OTHER SECONDS PROOF`.
fn read_near_command(words: &[Name]) -> Option<Command<'_>>
    ensures { option_map seen result ≡ option_map Near (near_form (codes "near") words.now) }
{
    let near = read_near_words("near", words)?;
    Some(Command::Near(near))
}

/// `nearcheck FILE OTHER SECONDS PROOF`.
fn read_near_check_command(words: &[Name]) -> Option<Command<'_>>
    ensures { option_map seen result
        ≡ option_map NearCheck (near_form (codes "nearcheck") words.now) }
{
    let near = read_near_words("nearcheck", words)?;
    Some(Command::NearCheck(near))
}

/// `point FILE PLACE`.
fn read_point_command(words: &[Name]) -> Option<Command<'_>>
    ensures { option_map seen result ≡ option_map Point (point_form words.now) }
{
    let point = read_point(words)?;
    Some(Command::Point(point))
}

/// A command about how near flights came.
fn read_near(words: &[Name]) -> Option<Command<'_>>
    ensures { option_map seen result ≡ near_command words.now }
{
    read_near_command(words)
        .or_else(|| read_near_check_command(words))
        .or_else(|| read_point_command(words))
}

/// `badge FILE PROOF`.
fn read_badge_command(words: &[Name]) -> Option<Command<'_>>
    ensures { option_map seen result ≡ option_map Badge (badge_form (codes "badge") words.now) }
{
    let badge = read_badge_words("badge", words)?;
    Some(Command::Badge(badge))
}

/// `badgecheck FILE PROOF`.
fn read_badge_check_command(words: &[Name]) -> Option<Command<'_>>
    ensures { option_map seen result
        ≡ option_map BadgeCheck (badge_form (codes "badgecheck") words.now) }
{
    let badge = read_badge_words("badgecheck", words)?;
    Some(Command::BadgeCheck(badge))
}

/// A command about badges.
fn read_badge(words: &[Name]) -> Option<Command<'_>>
    ensures { option_map seen result ≡ badge_command words.now }
{
    read_badge_command(words).or_else(|| read_badge_check_command(words))
}

/// A command about flights without a task.
fn read_flights(words: &[Name]) -> Option<Command<'_>>
    ensures { option_map seen result ≡ flights_command words.now }
{
    read_near(words).or_else(|| read_badge(words))
}

/// `series LIST DROP`.
fn read_championship(words: &[Name]) -> Option<Command<'_>>
    ensures { option_map seen result ≡ option_map Series (series_form words.now) }
{
    let series = read_series(words)?;
    Some(Command::Series(series))
}

/// `demo NUMBER`.
fn read_generated(words: &[Name]) -> Option<Command<'_>>
    ensures { option_map seen result ≡ option_map Demo (demo_form words.now) }
{
    let day = read_demo(words)?;
    Some(Command::Demo(day))
}

/// A command that is given a number at its end.
fn read_numbered(words: &[Name]) -> Option<Command<'_>>
    ensures { option_map seen result ≡ numbered_command words.now }
{
    read_championship(words).or_else(|| read_generated(words))
}

/// The command, not one of a day, that the words are a form of; `None` where they are of no form.
/// The form of a further command is tried where none before it reads.
#[tactic(auto, unfolding(crate::specs::Words::command_of))]
pub fn read_words(words: &[Name]) -> Option<Command<'_>>
    ensures { option_map seen result ≡ command_of words.now }
{
    read_course(words)
        .or_else(|| read_replay_command(words))
        .or_else(|| read_flights(words))
        .or_else(|| read_numbered(words))
}
