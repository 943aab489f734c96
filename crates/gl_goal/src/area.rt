ghost use Rattle.std.specs.Prelude.{◌<◌, ◌≤◌, length, All};
ghost use Rattle.std.specs.List.Sorted.{IsStrictlyIncreasing};
ghost use Rattle.gl_goal.specs.Lists.{AreNamed};

use crate::lists::Lists;
use gl_sphere::Vec3;

/// The distance of an area task: one fix from each list, in time order, worth the legs from the
/// start point through them to the finish point, less `off` centimetres, and not below 0.
#[derive(Debug, Drop)]
pub struct AreaGoal {
    pub(crate) lists: Lists,
    pub(crate) start: Vec3,
    pub(crate) finish: Vec3,
    pub(crate) off: u64,
    pub ghost some_list: { 0 < length lists.lists },
    pub ghost ten_lists: { length lists.lists ≤ 10 },
    pub ghost some_number: { All (λ list. 0 < length list) lists.lists },
    pub ghost rising: { All IsStrictlyIncreasing lists.lists },
    pub ghost named: { All (AreNamed lists.fixes) lists.lists },
}
