ghost use Rattle.std.specs.Prelude.{◌+◌, ◌<◌, ◌≤◌, IsTrue};
ghost use Rattle.std.specs.Bool.{OnFalse};
ghost use Rattle.gl_sphere.specs.Distance.{written_distance};
ghost use Rattle.gl_free.specs.Code.Ways.{IsKnown};

use crate::way::{Longest, Most};
use gl_sphere::dist;

/// What is longer has a third term in its arc's series.
const TWO_TERMS_BELOW: u64 = 32_000_000;

/// Whether a squared chord is surely that of no greater distance.
#[inline]
pub(crate) fn is_within(chord: u64, distance: u64) -> bool
    ensures { IsTrue result → written_distance chord ≤ distance }
{
    if distance >= TWO_TERMS_BELOW {
        return false;
    }
    let cube = distance as u128 * (distance * distance) as u128;
    let second_term = (cube >> 13) as u64 / 1_189_149_638_671_875;
    let root = distance - second_term;
    chord < (root + 1) * (root + 1)
}

/// Whether no way is longer than what was found.
#[inline]
pub(crate) fn is_beaten(most: Most, found: &Longest) -> bool
    requires { IsKnown found.now }
    ensures none { IsTrue result → 0 < most.way
        → most.way + written_distance most.chord ≤ found.now.length }
    ensures longer { OnFalse result
        (found.now.length < most.way + written_distance most.chord) }
{
    if most.way == 0 {
        return true;
    }
    if most.way <= found.way && most.chord <= found.chord {
        return true;
    }
    if most.way > found.length {
        return false;
    }
    let room = found.length - most.way;
    is_within(most.chord, room) || dist(most.chord) <= room
}
