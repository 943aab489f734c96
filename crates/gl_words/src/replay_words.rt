ghost use Rattle.std.specs.Prelude.{◌≡◌, option_map};
ghost use Rattle.gl_words.specs.ReplayWords.{replay_seen};
ghost use Rattle.gl_words.specs.Words.{replay_form, replay_words};

use crate::day_names::{Workers, read_workers};
use gl_desk::Name;
use gl_text::is_file_name;

/// What `replay` is given.
#[derive(Clone, Copy, Debug)]
pub struct ReplayWords<'a> {
    /// The file of the recording.
    pub flight: &'a Name,
    /// The file of the schedule.
    pub schedule: &'a Name,
    /// How many workers follow the schedule.
    pub workers: Workers,
}

/// What `replay` is given, where both names are those of files.
fn replay_words<'a>(
    flight: &'a Name,
    schedule: &'a Name,
    workers: Workers,
) -> Option<ReplayWords<'a>>
    ensures { option_map replay_seen result
        ≡ replay_words flight.now schedule.now workers.count }
{
    if is_file_name(flight.as_str()) && is_file_name(schedule.as_str()) {
        Some(ReplayWords {
            flight,
            schedule,
            workers,
        })
    } else {
        None
    }
}

/// The names and the workers in `replay FILE SCHEDULE WORKERS`, where the number of workers is 1
/// to 16.
pub fn read_replay(words: &[Name]) -> Option<ReplayWords<'_>>
    ensures { option_map replay_seen result ≡ replay_form words.now }
{
    match words {
        [word, flight, schedule, workers] if word.as_str() == "replay" => {
            replay_words(flight, schedule, read_workers(workers)?)
        }
        _ => None,
    }
}
