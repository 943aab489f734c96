ghost use Rattle.std.specs.Prelude.{ℕ, ◌≡◌, ◌≤◌, ◌≤ℤ◌, ◌-ℤ◌, ◌↔◌, pos, IsTrue, length, take, IfSome, IfNone};
ghost use Rattle.gl_judge.specs.Greatest.{IsGreatest, IsLeast};
ghost use Rattle.gl_judge.specs.JudgedFixes.{IsInRange};
ghost use Rattle.gl_judge.specs.Outcome.{IsCompleteStart, IsJudged, IsOutcome, OnFinished};
ghost use Rattle.gl_judge.specs.Starts.{IsLegalStart, IsStart};
ghost use Rattle.gl_judge.specs.Visits.{CanFinish, HasVisit, VisitsFirst};

use crate::finishes::first_finish;
use crate::judged_fixes::judged_range;
use crate::outcome::{Judged, Window};
use crate::passing::Passing;
use crate::starts::{first_start, last_start};
use crate::stretch::Stretch;
use crate::visits::{Visited, last_ready, visit_zones};
use gl_airspace::Airspace;
use gl_igc::Recording;
use gl_task::Task;

/// The last complete start.
fn last_complete_start(task: &Task, rec: &Recording, judged: Stretch) -> Option<Passing>
    requires { judged.to ≤ length rec.now.fixes }
    ensures legal { IfSome result
        (λ p. IsLegalStart task.now.start rec.now judged p.fix p.second) }
    ensures last { IfSome result
        (λ p. IsGreatest (IsCompleteStart task.now rec.now judged) p.fix) }
    ensures none { IfNone result
        ((b : ℕ) → IsCompleteStart task.now rec.now judged b → ⊥) }
{
    let ready = last_ready(task, rec, judged)?;
    last_start(&task.start, rec, judged, ready)
}

/// The seconds from a start to a finish that isn't before it.
fn flown(start: i32, finish: i32) -> u32
    requires { start ≤ℤ finish }
    ensures { pos result ≡ finish -ℤ start }
{
    (finish as i64 - start as i64) as u32
}

/// The first fix with which a visit of all zones ends, from a complete start on.
fn first_end(task: &Task, rec: &Recording, judged: Stretch, start: usize) -> usize
    requires to_in_list { judged.to ≤ length rec.now.fixes }
    requires complete { IsCompleteStart task.now rec.now judged start }
    ensures judged { IsInRange judged result }
    ensures least { IsLeast
        (HasVisit rec.now.fixes judged task.now.zones start) result }
{
    let zones = task.zones.as_slice();
    visit_zones(zones, rec.fixes.as_slice(), judged, start).last
}

/// The outcome of a flight with a complete start, of which this is the last.
fn finished(task: &Task, rec: &Recording, judged: Stretch, start: Passing) -> Judged
    requires to_in_list { judged.to ≤ length rec.now.fixes }
    requires legal { IsLegalStart task.now.start rec.now judged start.fix start.second }
    requires last { IsGreatest (IsCompleteStart task.now rec.now judged) start.fix }
    ensures { IsOutcome task.now rec.now judged result }
{
    let end = first_end(task, rec, judged, start.fix);
    match first_finish(&task.finish, rec, judged, end) {
        Some(finish) => Judged::Finished {
            window: Window {
                first: start.fix as u32,
                last: finish.fix as u32,
                start: start.second,
            },
            seconds: flown(start.second, finish.second),
        },
        None => unreachable!(),
    }
}

/// The outcome of a flight with a complete start.
fn finished_from_last(task: &Task, rec: &Recording, judged: Stretch, first: usize) -> Judged
    requires to_in_list { judged.to ≤ length rec.now.fixes }
    requires complete { IsCompleteStart task.now rec.now judged first }
    ensures { IsOutcome task.now rec.now judged result }
{
    match last_complete_start(task, rec, judged) {
        Some(start) => finished(task, rec, judged, start),
        None => unreachable!(),
    }
}

/// The outcome of a flight without a complete start, whose first legal start is this.
fn outlanded(task: &Task, rec: &Recording, judged: Stretch, start: Passing, count: usize) -> Judged
    requires to_in_list { judged.to ≤ length rec.now.fixes }
    requires legal { IsLegalStart task.now.start rec.now judged start.fix start.second }
    requires first { IsLeast (IsStart task.now.start rec.now judged) start.fix }
    requires incomplete { (b : ℕ) → IsCompleteStart task.now rec.now judged b → ⊥ }
    requires visited { IsGreatest
        (VisitsFirst rec.now.fixes judged task.now.zones start.fix) count }
    ensures { IsOutcome task.now rec.now judged result }
{
    Judged::Outlanded {
        window: Window {
            first: start.fix as u32,
            last: (judged.to - 1) as u32,
            start: start.second,
        },
        zones: count as u8,
    }
}

/// Whether the zones can be visited from the fix of a number on with a finish after them, where the
/// visits got so far from it.
fn can_finish(task: &Task, rec: &Recording, judged: Stretch, from: usize, visited: Visited) -> bool
    requires to_in_list { judged.to ≤ length rec.now.fixes }
    requires judged { IsInRange judged visited.last }
    requires most { IsGreatest
        (VisitsFirst rec.now.fixes judged task.now.zones from) visited.count }
    requires least { IsLeast
        (HasVisit rec.now.fixes judged (take visited.count task.now.zones) from)
        visited.last }
    ensures { IsTrue result
        ↔ CanFinish task.now.finish rec.now.fixes judged task.now.zones from }
{
    if visited.count < task.zones.len() {
        return false;
    }
    first_finish(&task.finish, rec, judged, visited.last).is_some()
}

/// The outcome of a flight whose first legal start is this. From no later start on more zones are
/// visited, so one pass shows whether any start is complete.
fn outcome_from(task: &Task, rec: &Recording, judged: Stretch, first: Passing) -> Judged
    requires to_in_list { judged.to ≤ length rec.now.fixes }
    requires legal { IsLegalStart task.now.start rec.now judged first.fix first.second }
    requires first { IsLeast (IsStart task.now.start rec.now judged) first.fix }
    ensures { IsOutcome task.now rec.now judged result }
{
    let zones = task.zones.as_slice();
    let visited = visit_zones(zones, rec.fixes.as_slice(), judged, first.fix);
    if can_finish(task, rec, judged, first.fix, visited) {
        finished_from_last(task, rec, judged, first.fix)
    } else {
        outlanded(task, rec, judged, first, visited.count)
    }
}

/// The outcome of a flight with these judged fixes.
pub(crate) fn outcome_of(task: &Task, rec: &Recording, judged: Stretch) -> Judged
    requires { judged.to ≤ length rec.now.fixes }
    ensures { IsOutcome task.now rec.now judged result }
{
    match first_start(&task.start, rec, judged) {
        Some(first) => outcome_from(task, rec, judged, first),
        None => Judged::NoStart,
    }
}

/// How a flight is judged.
///
/// With a complete start, which is a legal one after which every zone is visited in order and the
/// finish reached, the flight finished: the window is from the last complete start to the first
/// finish that completes it. Else, with a legal start, it landed out: the window is from the first
/// legal start to the last judged fix, and `zones` is the greatest number of zones that were
/// visited in order.
pub fn judge(task: &Task, air: &Airspace, rec: &Recording) -> Judged
    ensures judged { IsJudged task.now air.now rec.now result }
    ensures seconds { OnFinished result (λ window seconds. seconds ≤ 100_000) }
{
    let judged = judged_range(task, air, rec);
    outcome_of(task, rec, judged)
}
