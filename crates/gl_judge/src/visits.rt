ghost use Rattle.std.specs.Prelude.{ℕ, ◌≡◌, ◌≤◌, ◌<◌, ◌↔◌, IsTrue, length, take, slice_get, IsSomeAnd, IfSome, IfNone};
ghost use Rattle.gl_judge.specs.Greatest.{IsGreatest, IsLeast};
ghost use Rattle.gl_judge.specs.JudgedFixes.{IsInRange};
ghost use Rattle.gl_judge.specs.Visits.{CanFinish, HasVisit, IsInZone, VisitsFirst};
ghost use Rattle.gl_zone.specs.Zones.{is_in_zone};

use crate::finishes::last_before_finish;
use crate::stretch::Stretch;
use gl_igc::{Fix, Recording};
use gl_task::Task;
use gl_zone::{Zone, holds};

/// How far a task was flown: how many of its zones were visited, and the fix in the last of them,
/// or that of the start.
#[derive(Clone, Copy, Debug)]
pub struct Visited {
    pub count: usize,
    pub last: usize,
}

/// Whether the fix of a number is in a zone.
pub(crate) fn is_in_zone(zone: &Zone, fixes: &[Fix], i: usize) -> bool
    requires { i < length fixes.now }
    ensures { IsTrue result
        ↔ IsSomeAnd (slice_get fixes.now i) (λ fix. IsTrue (is_in_zone zone.now fix.at)) }
{
    holds(zone, fixes[i].at)
}

/// The first judged fix in a zone from the fix of a number on.
pub fn first_in_zone(zone: &Zone, fixes: &[Fix], judged: Stretch, from: usize) -> Option<usize>
    requires to_in_list { judged.to ≤ length fixes.now }
    requires from_judged { judged.from ≤ from }
    ensures found { IfSome result (IsInZone fixes.now judged zone.now) }
    ensures after { IfSome result (λ z. from ≤ z) }
    ensures first { IfSome result (λ z. (i : ℕ)
        → from ≤ i → IsInZone fixes.now judged zone.now i → z ≤ i) }
    ensures none { IfNone result ((i : ℕ)
        → from ≤ i → IsInZone fixes.now judged zone.now i → ⊥) }
{
    for i in from..judged.to {
        if is_in_zone(zone, fixes, i) {
            return Some(i);
        }
    }
    None
}

/// The last judged fix in a zone up to the fix of a number.
fn last_in_zone(zone: &Zone, fixes: &[Fix], judged: Stretch, limit: usize) -> Option<usize>
    requires to_in_list { judged.to ≤ length fixes.now }
    requires limit_judged { limit < judged.to }
    ensures found { IfSome result (IsInZone fixes.now judged zone.now) }
    ensures before { IfSome result (λ z. z ≤ limit) }
    ensures last { IfSome result (λ z. (i : ℕ)
        → i ≤ limit → IsInZone fixes.now judged zone.now i → i ≤ z) }
    ensures none { IfNone result ((i : ℕ)
        → i ≤ limit → IsInZone fixes.now judged zone.now i → ⊥) }
{
    for i in (judged.from..limit + 1).rev() {
        if is_in_zone(zone, fixes, i) {
            return Some(i);
        }
    }
    None
}

/// How far the zones are visited from the fix of a number on, each as early as can be.
pub(crate) fn visit_zones(zones: &[Zone], fixes: &[Fix], judged: Stretch, from: usize) -> Visited
    requires to_in_list { judged.to ≤ length fixes.now }
    requires from_judged { IsInRange judged from }
    ensures judged { IsInRange judged result.last }
    ensures most { IsGreatest
        (VisitsFirst fixes.now judged zones.now from) result.count }
    ensures least { IsLeast
        (HasVisit fixes.now judged (take result.count zones.now) from) result.last }
{
    let mut last = from;
    for (count, zone) in zones.iter().enumerate() {
        match first_in_zone(zone, fixes, judged, last) {
            Some(z) => last = z,
            None => return Visited { count, last },
        }
    }
    Visited {
        count: zones.len(),
        last,
    }
}

/// The last fix from which all zones can be visited with a finish after them.
pub(crate) fn last_ready(task: &Task, rec: &Recording, judged: Stretch) -> Option<usize>
    requires { judged.to ≤ length rec.now.fixes }
    ensures judged { IfSome result (IsInRange judged) }
    ensures last { IfSome result (IsGreatest
        (CanFinish task.now.finish rec.now.fixes judged task.now.zones)) }
    ensures none { IfNone result ((b : ℕ)
        → CanFinish task.now.finish rec.now.fixes judged task.now.zones b → ⊥) }
{
    let zones = task.zones.as_slice();
    let fixes = rec.fixes.as_slice();
    let mut limit = last_before_finish(&task.finish, rec, judged)?;
    for k in (0..zones.len()).rev() {
        limit = last_in_zone(&zones[k], fixes, judged, limit)?;
    }
    Some(limit)
}
