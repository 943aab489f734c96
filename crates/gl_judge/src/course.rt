ghost use Rattle.std.specs.Prelude.{◌≡◌, ◌≤◌, ◌<◌, ◌+◌, ◌^◌, length, take};
ghost use Rattle.gl_goal.specs.Chain.{legs};
ghost use Rattle.gl_judge.specs.Choices.{course_point};
ghost use Rattle.gl_judge.specs.Marking.{course_of};

use crate::marking::{finish_point, leg};
use gl_sphere::Vec3;
use gl_task::Task;

/// The point of the course with so many zones before it: the start point, the centre of a zone or
/// the finish point.
pub fn course_point(task: &Task, before: usize) -> Vec3
    requires { before ≤ length task.now.zones + 1 }
    ensures { result ≡ course_point task.now before }
{
    if before == 0 {
        return task.start.line.centre;
    }
    match task.zones.as_slice().get(before - 1) {
        Some(zone) => zone.centre,
        None => finish_point(&task.finish),
    }
}

/// The legs from the start point through the centres of so many zones, in centimetres.
pub(crate) fn legs_to(task: &Task, zones: usize) -> u64
    requires { zones ≤ length task.now.zones }
    ensures value { result ≡ legs (take (zones + 1) (course_of task.now)) }
    ensures bound { result < 2 ^ 40 }
{
    let mut length = 0;
    let mut last = task.start.line.centre;
    for zone in &task.zones.as_slice()[..zones] {
        length += leg(last, zone.centre);
        last = zone.centre;
    }
    length
}
