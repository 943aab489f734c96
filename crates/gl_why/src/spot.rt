ghost use Rattle.std.specs.Prelude.{◌≡◌};
ghost use Rattle.gl_why.specs.Spots.{spot_at};

use gl_igc::Fix;

/// A fix of a recording, with its number.
#[derive(Clone, Copy, Debug, PartialEq, Eq)]
pub struct Spot {
    /// How many fixes of the recording stand before it.
    pub number: u32,
    pub fix: Fix,
}

/// The fix with a number.
pub fn spot_at(fixes: &[Fix], number: u32) -> Option<Spot>
    ensures { result ≡ spot_at fixes.now number }
{
    let fix = fixes.get(number as usize)?;
    Some(Spot { number, fix: *fix })
}
