ghost use Rattle.std.specs.Prelude.{◌≤◌, IsTrue, length, map};
ghost use Rattle.gl_igc.specs.Reading.{most_fixes};
ghost use Rattle.gl_igc.specs.Seconds.{is_rising};

use crate::fix::Fix;
use gl_sphere::Grid;
use gl_text::Items;

/// The places that a pilot declared before the flight: take-off, start, turn points, finish and
/// landing, in order.
#[derive(Debug, Drop)]
pub struct Declared {
    pub points: Items<Grid>,
    pub ghost at_least_four: { 4 ≤ length points },
    pub ghost at_most_103: { length points ≤ 103 },
}

/// What a flight recorder wrote of one flight.
#[derive(Debug, Drop)]
pub struct Recording {
    /// The day, as the number of days from 1970-01-01.
    pub date: i32,
    /// The used fixes; their seconds rise.
    pub fixes: Items<Fix>,
    /// The seconds of the pilot's events, in the order of the file.
    pub events: Items<i32>,
    /// The declared places, if the declaration is whole.
    pub declared: Option<Declared>,
    /// How many B lines gave no fix.
    pub skipped: u32,
    pub ghost some_fix: { 1 ≤ length fixes },
    pub ghost at_most_90000: { length fixes ≤ most_fixes },
    pub ghost rising: { IsTrue (is_rising (map (λ fix. fix.second) fixes)) },
}
