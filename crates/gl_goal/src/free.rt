ghost use Rattle.std.specs.Prelude.{◌≡◌, ◌<◌, ◌≤◌, ◌≤ℤ◌, pos, length};
ghost use Rattle.std.specs.Coded.{Coded-set};
ghost use Rattle.gl_goal.specs.Free.{fixes_between};

use crate::hulls::Hulls;
use gl_igc::Fix;

/// The free distance over some fixes of a recording: five fixes in time order, worth the four legs
/// between them, of which the last is at most `loss` metres lower than the first.
#[derive(Debug, Drop)]
pub struct FreeGoal {
    pub(crate) fixes: Vec<Fix>,
    pub(crate) hulls: Hulls,
    pub(crate) first: u32,
    pub(crate) last: u32,
    pub(crate) loss: i32,
    pub ghost in_order: { first ≤ last },
    pub ghost within: { last < length fixes.items },
    pub ghost at_most_90000: { length fixes.items ≤ 90_000 },
    pub ghost loss_from_zero: { pos 0 ≤ℤ loss },
    pub ghost hulled: { hulls
        ≡ fixes_between fixes.items first last } by { Coded-set hulls-code hulls
            (fixes_between fixes.items first last) },
}
