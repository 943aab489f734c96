ghost use Rattle.std.specs.Prelude.{◌≤◌, ◌^◌};

use crate::side::Side;
use gl_sphere::Vec3;

/// How long a way to a fix of a group is at most, with one more, and the greatest squared chord
/// from there: no way is 0.
#[derive(Clone, Copy)]
pub(crate) struct Most {
    pub way: u64,
    pub chord: u64,
    ghost way_limited: { way ≤ 2 ^ 40 },
    ghost chord_limited: { chord ≤ 4_870_756_920_000_000_000 },
}

/// The longest way to a fix that was found, with one more, and the fix before it there. `way` and
/// `chord` are of the leg that was found, or less.
#[derive(Clone, Copy)]
pub(crate) struct Longest {
    pub length: u64,
    pub from: u32,
    pub way: u64,
    pub chord: u64,
}

/// A fix to which ways go on, and the side of it on which the fixes before it on them stand.
#[derive(Clone, Copy)]
pub(crate) struct Target {
    pub number: u32,
    pub side: Side,
    pub at: Vec3,
}
