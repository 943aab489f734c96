ghost use Rattle.std.specs.Prelude.{◌≡◌, pos, neg_ℤ, ◌≤ℤ◌};
ghost use Rattle.std.specs.Coded.{Coded-set};
ghost use Rattle.gl_sphere.specs.Place.{written_vector};

use gl_sphere::{Grid, Vec3};

/// One used fix of a recording.
#[derive(Clone, Copy, Debug, PartialEq, Eq)]
pub struct Fix {
    /// Seconds from 00:00 UTC of the task day, or of the recording's own day where there is no
    /// task.
    pub second: i32,
    /// The place, in 1/100,000 minute.
    pub grid: Grid,
    /// The point of the place, in centimetres from the centre of the sphere.
    pub at: Vec3,
    /// The GNSS altitude in metres.
    pub alt: i32,
    /// The engine noise that the recorder measured, from 0 to 999.
    pub enl: Option<u16>,
    pub ghost placed: { at
        ≡ written_vector grid } by { Coded-set at-code at (written_vector grid) },
    pub ghost above: { neg_ℤ (pos 9_999) ≤ℤ alt },
    pub ghost below: { alt ≤ℤ pos 32_767 },
}
