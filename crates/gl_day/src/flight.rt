ghost use Rattle.std.specs.Prelude.{◌≡◌, ◌<◌, ◌≤◌, ℕ, List, [], None, Some, Option, IfOk, length};
ghost use Rattle.gl_airspace.specs.declared.volume.Airspace.{Airspace};
ghost use Rattle.gl_igc.specs.Recording.{IsReadAs};
ghost use Rattle.gl_task.specs.Limits.{greatest_handicap};
ghost use Rattle.gl_day.specs.Flight.{IsFlight, IsSeen, IsUnjudged, StewardRules};
ghost use Rattle.gl_desk.specs.Limits.{most_bytes};
ghost use Rattle.gl_day.specs.Totals.{column};

use gl_igc::{IgcError, Recording};
use gl_points::Performance;
use gl_sheet::{Listed, Outcome};
use gl_task::{Entrant, Task};
use std::alloc::AllocError;

/// The number by which a larger one is refused.
const TOO_LARGE: u32 = 7;

/// What the flight of an entrant gives for the sheet.
#[derive(Clone, Copy, Debug)]
pub struct Flight {
    pub outcome: Outcome,
    /// What counts for the points.
    pub performance: Performance,
    /// Points, at most 1,000.
    pub penalty: u32,
    /// The column of the free distances.
    pub free: Listed,
    /// The column of the triangles.
    pub triangle: Listed,
}

/// What is seen of a file.
#[derive(Debug, Drop)]
pub enum Seen {
    /// A recording of the day.
    Recorded(Recording),
    /// The flight of an entrant whose file is refused.
    Refused(Flight),
}

/// What a list column has.
pub(crate) fn column(is_asked: bool, total: Option<u64>) -> Listed
    ensures { result ≡ column is_asked total }
{
    match total {
        _ if !is_asked => Listed::Unasked,
        None => Listed::Empty,
        Some(total) => Listed::Total(total),
    }
}

/// The flight of an entrant without a recording.
fn unjudged(task: &Task, entrant: &Entrant, launched: bool, outcome: Outcome) -> Flight
    ensures { IsUnjudged task.now entrant.now.handicap launched outcome result }
{
    Flight {
        outcome,
        performance: Performance {
            launched,
            finished: false,
            metres: 0,
            seconds: 0,
            handicap: entrant.handicap,
        },
        penalty: 0,
        free: column(task.free, None),
        triangle: column(task.triangle, None),
    }
}

/// The flight of an entrant whose file isn't there.
pub fn absent_flight(task: &Task, entrant: &Entrant) -> Flight
    ensures { (air : Airspace) (stewards : List StewardRules)
        → IsFlight task.now air stewards entrant.now None [] result }
{
    unjudged(task, entrant, false, Outcome::NotLaunched)
}

/// The flight of an entrant whose file has more than 16,777,216 bytes.
pub fn large_flight(task: &Task, entrant: &Entrant) -> Flight
    ensures { (air : Airspace) (stewards : List StewardRules) (bytes : List ℕ)
        → most_bytes < length bytes
        → IsFlight task.now air stewards entrant.now (Some bytes) [] result }
{
    unjudged(task, entrant, true, Outcome::Refused(TOO_LARGE))
}

/// What is seen of an entrant's file that was read so, by the task's day: the recording, or the
/// flight of an entrant whose file is refused. The only error is want of memory.
pub fn read_flight(
    task: &Task,
    entrant: &Entrant,
    read: Result<Recording, IgcError>,
) -> Result<Seen, AllocError>
    ensures { IfOk result (λ seen. (bytes : List ℕ) → length bytes ≤ most_bytes
        → IsReadAs bytes (Some task.now.date) read → IsSeen task.now entrant.now bytes seen) }
{
    match read {
        Ok(recording) => Ok(Seen::Recorded(recording)),
        Err(error) => match error.number() {
            Some(number) => {
                let outcome = Outcome::Refused(number);
                Ok(Seen::Refused(unjudged(task, entrant, true, outcome)))
            }
            None => Err(AllocError),
        },
    }
}
