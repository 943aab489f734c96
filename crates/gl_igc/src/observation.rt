ghost use Rattle.std.specs.Prelude.{◌<◌, pos, neg_ℤ, ◌≤ℤ◌};
ghost use Rattle.gl_igc.specs.Columns.{day};

use gl_sphere::Grid;

/// What an undamaged B line with validity `A` says.
#[derive(Clone, Copy)]
pub struct Observed {
    /// The second of the day.
    pub time: u32,
    pub grid: Grid,
    /// The GNSS altitude in metres.
    pub alt: i32,
    /// The engine noise, from 0 to 999.
    pub enl: Option<u16>,
    pub ghost in_day: { time < day },
    pub ghost above: { neg_ℤ (pos 9_999) ≤ℤ alt },
    pub ghost below: { alt ≤ℤ pos 32_767 },
}
