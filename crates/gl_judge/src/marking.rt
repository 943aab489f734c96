ghost use Rattle.std.specs.Prelude.{◌≡◌, ◌≤◌, IsSome, IsTrue, unwrap_or};
ghost use Rattle.gl_sphere.specs.Distance.{distance};
ghost use Rattle.gl_goal.specs.Chain.{legs};
ghost use Rattle.gl_judge.specs.Marking.{IsMarked, course_of, distance_of, finish_point, is_chosen, marking_time, metres_of, racing_distance, ring_radius};
ghost use Rattle.gl_judge.specs.Outcome.{OnFinished};
ghost use Rattle.gl_task.specs.Ranges.{has_minimum};

use crate::outcome::Judged;
use gl_points::Performance;
use gl_sphere::{GREATEST_DISTANCE, Vec3, dist, sq};
use gl_task::{Finish, Kind, Task};

/// The greatest marking distance, in metres.
const GREATEST_METRES: u64 = 2_000_000;

/// The distance of two points, in centimetres.
pub(crate) fn leg(from: Vec3, to: Vec3) -> u64
    ensures value { result ≡ distance from to }
    ensures bound { result ≤ GREATEST_DISTANCE }
{
    dist(sq(from, to))
}

/// The finish point of a task.
pub(crate) fn finish_point(finish: &Finish) -> Vec3
    ensures { result ≡ finish_point finish.now }
{
    match finish {
        Finish::Ring { at, .. } => *at,
        Finish::Gate(line) => line.centre,
    }
}

/// The radius of the finish ring in centimetres; 0 for a gate.
pub(crate) fn ring_radius(finish: &Finish) -> u64
    ensures { result ≡ ring_radius finish.now }
{
    match finish {
        Finish::Ring { radius, .. } => *radius,
        Finish::Gate(_) => 0,
    }
}

/// The legs of a task, in centimetres: from its start point through the centres of its zones to its
/// finish point.
fn course_length(task: &Task) -> u64
    ensures { result ≡ legs (course_of task.now) }
{
    let mut length = 0;
    let mut last = task.start.line.centre;
    for zone in task.zones.as_slice() {
        length += leg(last, zone.centre);
        last = zone.centre;
    }
    length + leg(last, finish_point(&task.finish))
}

/// The distance of one who finished a racing task, in centimetres.
fn racing_distance(task: &Task) -> u64
    ensures { result ≡ racing_distance task.now }
{
    course_length(task).saturating_sub(ring_radius(&task.finish))
}

/// The distance of a flight, in centimetres.
fn distance_of(task: &Task, judged: &Judged, best: Option<u64>) -> u64
    requires { IsTrue (is_chosen task.now.kind judged.now) → IsSome best }
    ensures { result ≡ distance_of task.now judged.now (unwrap_or best 0) }
{
    match (judged, task.kind) {
        (Judged::Finished { .. }, Kind::Racing) => racing_distance(task),
        (Judged::Finished { .. }, Kind::Area { .. }) | (Judged::Outlanded { .. }, _) => {
            best.unwrap()
        }
        (Judged::NoStart, _) => 0,
    }
}

/// The marking distance in metres.
fn metres_of(distance: u64) -> u32
    ensures { result ≡ metres_of distance }
{
    (distance / 100).min(GREATEST_METRES) as u32
}

/// The marking time of a finisher who flew so many seconds.
fn marking_time(kind: Kind, flown: u32) -> u32
    requires flown { flown ≤ 100_000 }
    requires minimum { IsTrue (has_minimum kind) }
    ensures value { result ≡ marking_time kind flown }
    ensures at_least { 1 ≤ result }
    ensures at_most { result ≤ 100_000 }
{
    match kind {
        Kind::Racing => flown.max(1),
        Kind::Area { minimum } => flown.max(1).max(minimum),
    }
}

/// What counts of a flight with a recording.
///
/// The distance of one who finished a racing task is that of the task: from the centre of the start
/// line through the centres of the zones to the finish point, less the radius of a finish ring, not
/// below 0. Of one who finished a task of areas or landed out it is `best`, the best of the choices
/// of fixes, in centimetres. It counts in whole metres, at most 2,000,000. The time of a finisher
/// is the flown time, at least 1 s and in a task of areas at least the task's minimum; else it is
/// 0.
///
/// `handicap` is in thousandths, from 1 to 2,000.
pub fn mark(task: &Task, handicap: u32, judged: &Judged, best: Option<u64>) -> Performance
    requires handicap_at_least { 1 ≤ handicap }
    requires handicap_at_most { handicap ≤ 2_000 }
    requires seconds { OnFinished judged.now (λ window seconds. seconds ≤ 100_000) }
    requires best { IsTrue (is_chosen task.now.kind judged.now) → IsSome best }
    ensures { IsMarked task.now handicap judged.now best result }
{
    let metres = metres_of(distance_of(task, judged, best));
    match judged {
        Judged::Finished { seconds, .. } => Performance {
            launched: true,
            finished: true,
            metres,
            seconds: marking_time(task.kind, *seconds),
            handicap,
        },
        Judged::Outlanded { .. } | Judged::NoStart => Performance {
            launched: true,
            finished: false,
            metres,
            seconds: 0,
            handicap,
        },
    }
}
