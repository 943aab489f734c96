ghost use Rattle.std.specs.Prelude.{ℕ, ◌≡◌, ◌≤◌, ◌<◌, ◌+◌, ◌↔◌, ℤ, [], IsTrue, length, IfSome, IfNone};
ghost use Rattle.gl_judge.specs.Finishes.{IsAtFinish, IsFinish, IsInRing, lead_of};
ghost use Rattle.gl_judge.specs.Greatest.{IsGreatest};
ghost use Rattle.gl_judge.specs.JudgedFixes.{IsInRange};
ghost use Rattle.gl_judge.specs.Visits.{CanFinish};
ghost use Rattle.gl_sphere.specs.Distance.{squared_chord, written_distance};

use crate::crossings::crossing_at;
use crate::passing::Passing;
use crate::stretch::Stretch;
use gl_igc::Recording;
use gl_sphere::{Vec3, dist, sq};
use gl_task::Finish;

/// Whether a point is at most the radius from the centre of a ring.
fn is_in_ring(x: Vec3, at: Vec3, radius: u64) -> bool
    ensures { IsTrue result ↔ (written_distance (squared_chord x at) ≤ radius) }
{
    dist(sq(x, at)) <= radius
}

/// The second of a judged fix in a ring; `None` exactly where the fix isn't one.
fn ring_at(at: Vec3, radius: u64, rec: &Recording, judged: Stretch, f: usize) -> Option<i32>
    requires { judged.to ≤ length rec.now.fixes }
    ensures some { IfSome result
        (λ time. IsInRing at radius rec.now.fixes judged f time) }
    ensures none { IfNone result
        ((time : ℤ) → IsInRing at radius rec.now.fixes judged f time → ⊥) }
{
    if f < judged.from || judged.to <= f {
        return None;
    }
    let fix = &rec.fixes.as_slice()[f];
    if is_in_ring(fix.at, at, radius) {
        Some(fix.second)
    } else {
        None
    }
}

/// The time at which the finish is reached with the fix of a number.
fn finish_at(finish: &Finish, rec: &Recording, judged: Stretch, f: usize) -> Option<i32>
    requires { judged.to ≤ length rec.now.fixes }
    ensures some { IfSome result
        (λ time. IsAtFinish finish.now rec.now.fixes judged f time) }
    ensures none { IfNone result
        ((time : ℤ) → IsAtFinish finish.now rec.now.fixes judged f time → ⊥) }
{
    match finish {
        Finish::Ring { at, radius } => ring_at(*at, *radius, rec, judged, f),
        Finish::Gate(line) => crossing_at(line, rec, judged, f),
    }
}

/// How many fixes a finish comes behind the last visit, at least.
pub(crate) fn lead(finish: &Finish) -> usize
    ensures { result ≡ lead_of finish.now }
{
    match finish {
        Finish::Ring { .. } => 0,
        Finish::Gate(_) => 1,
    }
}

/// The first finish after a visit that ended with the fix of a number.
pub(crate) fn first_finish(
    finish: &Finish,
    rec: &Recording,
    judged: Stretch,
    visited: usize,
) -> Option<Passing>
    requires to_in_list { judged.to ≤ length rec.now.fixes }
    requires visited_judged { IsInRange judged visited }
    ensures finish { IfSome result
        (λ p. IsFinish finish.now rec.now.fixes judged visited p.fix p.second) }
    ensures first { IfSome result (λ p. (f : ℕ) (time : ℤ)
        → IsFinish finish.now rec.now.fixes judged visited f time → p.fix ≤ f) }
    ensures none { IfNone result ((f : ℕ) (time : ℤ)
        → IsFinish finish.now rec.now.fixes judged visited f time → ⊥) }
{
    for f in visited + lead(finish)..judged.to {
        if let Some(second) = finish_at(finish, rec, judged, f) {
            return Some(Passing { fix: f, second });
        }
    }
    None
}

/// The last fix that a finish may come after.
pub(crate) fn last_before_finish(finish: &Finish, rec: &Recording, judged: Stretch) -> Option<usize>
    requires { judged.to ≤ length rec.now.fixes }
    ensures judged { IfSome result (IsInRange judged) }
    ensures last { IfSome result
        (IsGreatest (CanFinish finish.now rec.now.fixes judged [])) }
    ensures none { IfNone result
        ((b : ℕ) → CanFinish finish.now rec.now.fixes judged [] b → ⊥) }
{
    for f in (judged.from..judged.to).rev() {
        if finish_at(finish, rec, judged, f).is_some() {
            return Some(f - lead(finish));
        }
    }
    None
}
