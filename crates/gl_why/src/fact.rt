ghost use Rattle.std.specs.Prelude.{◌+◌, ◌^◌, ◌<◌};

use crate::spot::Spot;
use gl_day::Flight;
use gl_desk::Name;
use gl_points::{Frac, Summary};
use gl_sheet::{Outcome, Row};

/// Why a file can't be used.
#[derive(Clone, Copy, Debug, PartialEq, Eq)]
pub enum Obstacle {
    /// It isn't in the folder.
    NoFile,
    /// It has more bytes than are read.
    TooLarge,
    /// It doesn't read.
    NotRead,
    /// It has no fix with this number.
    NoFix(u32),
    /// It has no entrant with the number that is asked for.
    NoEntrant,
}

/// Whether a crossing of the start line is a legal start, or why it isn't.
#[derive(Clone, Copy, Debug, PartialEq, Eq)]
pub enum Legality {
    Legal,
    /// It comes before the start opens.
    TooEarly,
    /// It comes after the start closes.
    TooLate,
    /// It has to be announced, and isn't.
    Unannounced,
}

/// A crossing of the start line: the fix behind the line, the time in seconds, and whether it is
/// legal.
#[derive(Clone, Copy, Debug, PartialEq, Eq)]
pub struct Crossing {
    pub at: Spot,
    pub second: i32,
    pub legality: Legality,
}

/// A start or a finish: the fix, and the time in seconds.
#[derive(Clone, Copy, Debug, PartialEq, Eq)]
pub struct Passing {
    pub at: Spot,
    pub second: i64,
}

/// The first visit of a zone that counts. Zones count from 1.
#[derive(Clone, Copy, Debug, PartialEq, Eq)]
pub struct Visit {
    pub zone: usize,
    pub at: Spot,
}

/// How near a flight came to the first point of the course that it didn't reach: the centre of a
/// zone, which counts from 1, or the finish point, which is the one behind the last zone. The
/// distance is in centimetres.
#[derive(Clone, Copy, Debug, PartialEq, Eq)]
pub struct Miss {
    pub point: usize,
    pub at: Spot,
    pub distance: u64,
}

/// The fix at which airspace cut a flight, and the volume, which counts from 0.
#[derive(Clone, Copy, Debug, PartialEq, Eq)]
pub struct Cut {
    pub volume: usize,
    pub at: Spot,
    pub ghost counts: { volume + 1 < 2 ^ 64 },
}

/// What was read of a recording: how many fixes, the first and the last.
#[derive(Clone, Copy, Debug, PartialEq, Eq)]
pub struct Extent {
    pub count: usize,
    pub first: Spot,
    pub last: Spot,
}

/// A fix that the distance of a flight goes by, and its place in the choice, from 1.
#[derive(Clone, Copy, Debug, PartialEq, Eq)]
pub struct Credit {
    pub place: usize,
    pub at: Spot,
}

/// How much a day counts by how many flew far, and by how many of these were fast; and its most
/// points for speed and for distance.
#[derive(Clone, Copy, Debug)]
pub struct Most {
    pub by_far: Frac,
    pub by_fast: Frac,
    pub for_speed: Frac,
    pub for_distance: Frac,
}

/// What a flight has of the day's points: of a finisher the share of those for speed, else that of
/// those for distance; and its points before they are rounded.
#[derive(Clone, Copy, Debug)]
pub struct Earning {
    pub share: Frac,
    pub exact: Frac,
}

/// A rule of the championship that charges points.
#[derive(Clone, Copy, Debug, PartialEq, Eq)]
pub enum Rule {
    Ceiling,
    Engine,
}

/// The points that a rule charges for a flight, and the first fix after which it owes them.
#[derive(Clone, Copy, Debug, PartialEq, Eq)]
pub struct Fine {
    pub rule: Rule,
    pub points: u32,
    pub at: Spot,
}

/// What a line of an answer tells.
#[derive(Debug, Drop)]
pub enum Fact {
    /// The file with this name can't be used.
    Refused(Name, Obstacle),
    /// The recording has this fix.
    Fix(Spot),
    /// What became of the entrant with a number.
    Entrant(Name, Outcome),
    /// So much was read of the recording.
    Read(Extent),
    /// The start line is crossed.
    Crossed(Crossing),
    /// The flight starts here, as far as it counts.
    Started(Passing),
    /// A zone is visited.
    Visited(Visit),
    /// A point of the course isn't reached.
    Missed(Miss),
    /// Airspace cuts the flight.
    Cut(Cut),
    /// The flight finishes.
    Finished(Passing),
    /// The flight has no start.
    NoStart,
    /// The distance goes by this fix.
    Credited(Credit),
    /// A rule charges points.
    Fined(Fine),
    /// What counts of the flight of the entrant with a number.
    Counted(Name, Flight),
    /// The figures of the day.
    Day(Summary),
    /// The most points of the day, and how much they count.
    Most(Most),
    /// What the entrant with a number has of the day's points.
    Earned(Name, Earning),
    /// The line of the sheet of the entrant with a number.
    Scored(Name, Row),
}
