ghost use Rattle.std.specs.Prelude.{◌<◌, ◌≤◌, ◌^◌, length, All};
ghost use Rattle.std.specs.List.Sorted.{IsStrictlyIncreasing};
ghost use Rattle.gl_goal.specs.Lists.{AreNamed};

use crate::lists::Lists;
use gl_sphere::Vec3;

/// The distance of an outlanding: one fix from each list, in time order, the last of them the one
/// that comes nearest to the target. They are worth `fixed` centimetres, the legs from the start
/// point through the fixes but the last, and how much nearer to the target the last one is than the
/// one before.
#[derive(Debug, Drop)]
pub struct OutGoal {
    pub(crate) lists: Lists,
    pub(crate) start: Vec3,
    pub(crate) fixed: u64,
    pub(crate) target: Vec3,
    pub ghost some_list: { 0 < length lists.lists },
    pub ghost ten_lists: { length lists.lists ≤ 10 },
    pub ghost some_number: { All (λ list. 0 < length list) lists.lists },
    pub ghost rising: { All IsStrictlyIncreasing lists.lists },
    pub ghost named: { All (AreNamed lists.fixes) lists.lists },
    pub ghost fixed_below: { fixed < 2 ^ 40 },
}
