ghost use Rattle.std.specs.Prelude.{ℕ, List, ◌≡◌, ◌≤◌, length, take, IfOk};
ghost use Rattle.gl_goal.specs.AreaGoal.{area_rule};
ghost use Rattle.gl_goal.specs.OutGoal.{out_rule};
ghost use Rattle.gl_goal.specs.Goal.{IsLegal};
ghost use Rattle.gl_judge.specs.Choices.{IsOutChoice, area_choice, areas_choice, racing_choice};
ghost use Rattle.gl_judge.specs.Greatest.{IsLeast};
ghost use Rattle.gl_judge.specs.JudgedFixes.{IsInRange};
ghost use Rattle.gl_judge.specs.Code.Outcome.{HasFinished};
ghost use Rattle.gl_judge.specs.Outcome.{IsOutlanded};
ghost use Rattle.gl_judge.specs.Visits.{HasVisit, VisitsFirst};

use crate::course::{course_point, legs_to};
use crate::finishes::lead;
use crate::marking::{finish_point, ring_radius};
use crate::outcome::Window;
use crate::stretch::Stretch;
use crate::visits::visit_zones;
use crate::zone_lists::{push_numbers, zone_lists};
use gl_goal::{AreaGoal, OutGoal};
use gl_igc::Recording;
use gl_task::{Kind, Task};
use std::alloc::{AllocError, Global};

/// The choice of one who finished a task of areas: a fix in each zone from the start up to the
/// finish, or up to the fix before a finish line. The only error is want of memory.
pub(crate) fn area_choice(
    alloc: Global,
    task: &Task,
    rec: &Recording,
    window: Window,
) -> Result<AreaGoal, AllocError>
    requires { HasFinished task.now rec.now window }
    ensures rule { IfOk result
        (λ goal. area_rule goal ≡ area_choice task.now rec.now.fixes window) }
    ensures legal { IfOk result (λ goal. (tuple : List ℕ) × IsLegal (area_rule goal) tuple) }
{
    let fixes = rec.fixes.as_slice();
    let stretch = Stretch {
        from: window.first as usize,
        to: window.last as usize + 1 - lead(&task.finish),
    };
    let lists = zone_lists(alloc, task.zones.as_slice(), fixes, stretch)?;
    let finish = finish_point(&task.finish);
    let off = ring_radius(&task.finish);
    AreaGoal::new(alloc, fixes, lists, task.start.line.centre, finish, off)
}

/// The first fix with which a visit of so many zones ends, from a start on.
fn first_visit(task: &Task, rec: &Recording, judged: Stretch, start: usize, count: usize) -> usize
    requires to_in_list { judged.to ≤ length rec.now.fixes }
    requires start_judged { IsInRange judged start }
    requires visited { VisitsFirst rec.now.fixes judged task.now.zones start count }
    ensures judged { IsInRange judged result }
    ensures least { IsLeast
        (HasVisit rec.now.fixes judged (take count task.now.zones) start) result }
{
    let zones = &task.zones.as_slice()[..count];
    visit_zones(zones, rec.fixes.as_slice(), judged, start).last
}

/// The choice of an outlanding in a racing task: the fix that comes nearest to the next point of
/// the task, from the first one on with which a visit of the visited zones ends. The only error is
/// want of memory.
fn racing_choice(
    alloc: Global,
    task: &Task,
    rec: &Recording,
    judged: Stretch,
    window: Window,
    count: usize,
) -> Result<OutGoal, AllocError>
    requires to_in_list { judged.to ≤ length rec.now.fixes }
    requires outlanded { IsOutlanded task.now rec.now judged window count }
    ensures rule { IfOk result (λ goal. (from : ℕ)
        × IsLeast (HasVisit rec.now.fixes judged (take count task.now.zones)
        window.first) from
        × (out_rule goal ≡ racing_choice task.now rec.now.fixes window count from)) }
    ensures legal { IfOk result (λ goal. (tuple : List ℕ) × IsLegal (out_rule goal) tuple) }
{
    let stretch = Stretch {
        from: first_visit(task, rec, judged, window.first as usize, count),
        to: window.last as usize + 1,
    };
    let mut lists = Vec::new(alloc);
    push_numbers(&mut lists, alloc, stretch)?;
    let start = course_point(task, count);
    let target = course_point(task, count + 1);
    let fixed = legs_to(task, count);
    OutGoal::new(alloc, rec.fixes.as_slice(), lists, start, fixed, target)
}

/// The choice of an outlanding in a task of areas: a fix in each visited zone, and the fix that
/// comes nearest to the next point of the task. The only error is want of memory.
fn areas_choice(
    alloc: Global,
    task: &Task,
    rec: &Recording,
    judged: Stretch,
    window: Window,
    count: usize,
) -> Result<OutGoal, AllocError>
    requires to_in_list { judged.to ≤ length rec.now.fixes }
    requires outlanded { IsOutlanded task.now rec.now judged window count }
    ensures rule { IfOk result
        (λ goal. out_rule goal ≡ areas_choice task.now rec.now.fixes window count) }
    ensures legal { IfOk result (λ goal. (tuple : List ℕ) × IsLegal (out_rule goal) tuple) }
{
    let fixes = rec.fixes.as_slice();
    let stretch = Stretch {
        from: window.first as usize,
        to: judged.to,
    };
    let mut lists = zone_lists(alloc, &task.zones.as_slice()[..count], fixes, stretch)?;
    push_numbers(&mut lists, alloc, stretch)?;
    let target = course_point(task, count + 1);
    OutGoal::new(alloc, fixes, lists, task.start.line.centre, 0, target)
}

/// The choice of an outlanding. The only error is want of memory.
pub(crate) fn out_choice(
    alloc: Global,
    task: &Task,
    rec: &Recording,
    judged: Stretch,
    window: Window,
    count: usize,
) -> Result<OutGoal, AllocError>
    requires to_in_list { judged.to ≤ length rec.now.fixes }
    requires outlanded { IsOutlanded task.now rec.now judged window count }
    ensures rule { IfOk result (λ goal. IsOutChoice task.now.kind task.now rec.now.fixes
        judged window count (out_rule goal)) }
    ensures legal { IfOk result (λ goal. (tuple : List ℕ) × IsLegal (out_rule goal) tuple) }
{
    match task.kind {
        Kind::Racing => racing_choice(alloc, task, rec, judged, window, count),
        Kind::Area { .. } => areas_choice(alloc, task, rec, judged, window, count),
    }
}
