ghost use Rattle.std.specs.Prelude.{◌≡◌, ◌≤◌, ◌<◌, ◌+◌, length, OnOk};
ghost use Rattle.gl_judge.specs.Choices.{course_point};
ghost use Rattle.gl_judge.specs.JudgedFixes.{IsInRange};
ghost use Rattle.gl_sphere.specs.Distance.{distance};
ghost use Rattle.gl_why.specs.Code.Nearest.{IsMissAt, IsNearestBefore};
ghost use Rattle.gl_why.specs.Facts.{AddsFacts};
ghost use Rattle.gl_why.specs.Visits.{IsMissTold, IsNearest};

use crate::fact::{Fact, Miss};
use crate::flight_words::{head_of_miss, words_of_miss};
use crate::lines::Lines;
use crate::spot::Spot;
use gl_igc::{Fix, Recording};
use gl_judge::{Stretch, course_point};
use gl_sphere::{Vec3, dist, sq};
use gl_task::Task;
use std::alloc::{AllocError, Global};

/// How far the fix of a number is from a point.
fn miss_at(fixes: &[Fix], i: usize, to: Vec3, point: usize) -> Miss
    requires in_list { i < length fixes.now }
    requires few { length fixes.now ≤ 90_000 }
    ensures at { IsMissAt fixes.now i to result }
    ensures point { result.point ≡ point }
{
    let fix = fixes[i];
    let at = Spot {
        number: i as u32,
        fix,
    };
    Miss {
        point,
        at,
        distance: dist(sq(fix.at, to)),
    }
}

/// The nearer of the nearest fix so far and the next one.
fn nearer(fixes: &[Fix], from: usize, i: usize, to: Vec3, best: Miss, other: Miss) -> Miss
    requires after { from ≤ i }
    requires best { IsNearestBefore fixes.now from i to best }
    requires other { IsMissAt fixes.now i to other }
    requires point { other.point ≡ best.point }
    ensures nearest { IsNearestBefore fixes.now from (i + 1) to result }
    ensures point { result.point ≡ best.point }
{
    if other.distance < best.distance {
        other
    } else {
        best
    }
}

/// Of the judged fixes from one on, the nearest to a point.
fn nearest(fixes: &[Fix], judged: Stretch, from: usize, to: Vec3, point: usize) -> Miss
    requires to_in_list { judged.to ≤ length fixes.now }
    requires few { length fixes.now ≤ 90_000 }
    requires from_judged { IsInRange judged from }
    ensures nearest { IsNearest fixes.now judged from to result }
    ensures point { result.point ≡ point }
{
    let mut best = miss_at(fixes, from, to, point);
    for i in from + 1..judged.to {
        let other = miss_at(fixes, i, to, point);
        best = nearer(fixes, from, i, to, best, other);
    }
    best
}

/// Tells how near a flight came to a point of the course that it didn't reach.
pub fn tell_miss(
    alloc: Global,
    lines: &mut Lines,
    task: &Task,
    rec: &Recording,
    judged: Stretch,
    from: usize,
    point: usize,
) -> Result<(), AllocError>
    requires to_in_list { judged.to ≤ length rec.now.fixes }
    requires from_judged { IsInRange judged from }
    requires of_course { point ≤ length task.now.zones + 1 }
    ensures { OnOk result (AddsFacts (IsMissTold task.now rec.now.fixes judged from point)
        lines.old lines.new) }
{
    let to = course_point(task, point);
    let miss = nearest(rec.fixes.as_slice(), judged, from, to, point);
    let head = head_of_miss(alloc, task, &miss)?;
    let words = words_of_miss(alloc, task, &miss)?;
    lines.push(Fact::Missed(miss), head, words)
}
