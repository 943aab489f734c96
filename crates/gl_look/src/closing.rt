ghost use Rattle.std.specs.Prelude.{◌≡◌, ◌≤◌, ◌<◌, ◌↔◌, ℕ, ℤ, length, pos, ◌+ℤ◌, int_le, IfNone, IfSome, IsTrue};
ghost use Rattle.gl_judge.specs.Finishes.{IsAtFinish, IsInRing};
ghost use Rattle.gl_judge.specs.declared.outcome.Judged.TheVariants as outcome;
ghost use Rattle.gl_judge.specs.declared.outcome.Window.{Window as judged_window};
ghost use Rattle.gl_sphere.specs.Distance.{squared_chord, written_distance};
ghost use Rattle.gl_look.specs.Closings.{IsFirstLate, IsLate, IsLateFinish, whole};

use gl_airspace::empty;
use gl_igc::Recording;
use gl_judge::{Judged, Stretch, crossing_at, judge};
use gl_sphere::{Vec3, dist, sq};
use gl_task::{Finish, Task};
use std::alloc::Global;

/// How long after a task closes a finish is remarked, in seconds.
const LATE: i32 = 3_600;

/// Whether a point is at most the radius from the centre of a ring.
fn is_in_ring(x: Vec3, at: Vec3, radius: u64) -> bool
    ensures { IsTrue result ↔ (written_distance (squared_chord x at) ≤ radius) }
{
    dist(sq(x, at)) <= radius
}

/// The second of a fix in a ring.
fn ring_at(at: Vec3, radius: u64, rec: &Recording, f: usize) -> Option<i32>
    requires { f < length rec.now.fixes }
    ensures some { IfSome result
        (λ time. IsInRing at radius rec.now.fixes (whole rec.now.fixes) f time) }
    ensures none { IfNone result
        ((time : ℤ) → IsInRing at radius rec.now.fixes (whole rec.now.fixes) f time → ⊥) }
{
    let fix = &rec.fixes.as_slice()[f];
    if is_in_ring(fix.at, at, radius) {
        Some(fix.second)
    } else {
        None
    }
}

/// The time at which a flight comes within the finish with the fix of a number.
fn finish_at(finish: &Finish, rec: &Recording, f: usize) -> Option<i32>
    requires { f < length rec.now.fixes }
    ensures some { IfSome result
        (λ time. IsAtFinish finish.now rec.now.fixes (whole rec.now.fixes) f time) }
    ensures none { IfNone result
        ((time : ℤ) → IsAtFinish finish.now rec.now.fixes (whole rec.now.fixes) f time → ⊥) }
{
    let all = Stretch {
        from: 0,
        to: rec.fixes.len(),
    };
    match finish {
        Finish::Ring { at, radius } => ring_at(*at, *radius, rec, f),
        Finish::Gate(line) => crossing_at(line, rec, all, f),
    }
}

/// An hour after a task closes.
fn latest(task: &Task) -> i32
    ensures { result ≡ task.now.closes +ℤ pos 3_600 }
{
    task.closes + LATE
}

/// Whether a time is at most another one.
fn is_upto(latest: i32, time: i32) -> bool
    ensures { result ≡ int_le time latest }
{
    time <= latest
}

/// Whether a time is at most an hour after a task closes.
fn is_soon(task: &Task, time: i32) -> bool
    ensures { result ≡ int_le time (task.now.closes +ℤ pos 3_600) }
{
    is_upto(latest(task), time)
}

/// The time at which a flight comes within the finish with the fix of a number, if that is soon
/// after the task closes.
fn late_at(task: &Task, rec: &Recording, last: u32, f: usize) -> Option<i32>
    requires in_list { f < length rec.now.fixes }
    requires behind { last < f }
    ensures some { IfSome result (IsLateFinish task.now rec.now.fixes last f) }
    ensures none { IfNone result
        ((time : ℤ) → IsLateFinish task.now rec.now.fixes last f time → ⊥) }
{
    let time = finish_at(&task.finish, rec, f)?;
    if is_soon(task, time) {
        Some(time)
    } else {
        None
    }
}

/// The time of the first finish behind the fix of a number that is soon after the task closes.
fn first_late(task: &Task, rec: &Recording, last: u32) -> Option<i32>
    ensures some { IfSome result (IsFirstLate task.now rec.now.fixes last) }
    ensures none { IfNone result ((f : ℕ) (time : ℤ)
        → IsLateFinish task.now rec.now.fixes last f time → ⊥) }
{
    for f in last as usize + 1..rec.fixes.len() {
        if let Some(time) = late_at(task, rec, last, f) {
            return Some(time);
        }
    }
    None
}

/// The last fix that counts of a flight that landed out after all zones.
fn last_after_zones(task: &Task, judged: &Judged) -> Option<u32>
    ensures some { IfSome result (λ last. (window : judged_window)
        × (judged.now ≡ outcome.Outlanded window (length task.now.zones))
        × (window.last ≡ last)) }
    ensures none { IfNone result ((window : judged_window)
        → judged.now ≡ outcome.Outlanded window (length task.now.zones) → ⊥) }
{
    match judged {
        Judged::Outlanded { window, zones } => {
            if *zones as usize == task.zones.len() {
                Some(window.last)
            } else {
                None
            }
        }
        Judged::Finished { .. } => None,
        Judged::NoStart => None,
    }
}

/// When a flight that landed out after all zones comes within the finish too late, if it does.
pub fn late_finish(alloc: Global, task: &Task, rec: &Recording) -> Option<i32>
    ensures { IsLate task.now rec.now result }
{
    let judged = judge(task, &empty(alloc), rec);
    let last = last_after_zones(task, &judged)?;
    first_late(task, rec, last)
}
