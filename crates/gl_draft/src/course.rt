ghost use Rattle.std.specs.Prelude.{◌≡◌, ◌+◌, ◌≤◌, IfErr, IfOk, length};
ghost use Rattle.std.specs.List.{list_any};
ghost use Rattle.gl_cup.specs.declared.point.CupPoint.{CupPoint};
ghost use Rattle.gl_draft.specs.Taken.{AreZonesFrom, IsCourseOr, IsZoneless, is_area_task, kind_by};

use crate::draft::{Finish, Gate, Kind, Zone};
use crate::place::{distance, rounded};
use crate::shape::{finish_of, start_of, zone_of};
use crate::turn::{leg_at, turn_at};
use gl_cup::{CupPoint, CupTask};
use std::alloc::{AllocError, Global};

/// The start, the zones and the finish of a task.
#[derive(Debug, Drop)]
pub struct Course {
    pub start: Gate,
    pub zones: Vec<Zone>,
    pub finish: Finish,
}

/// A zone that a task file can't say: its line, and the number of its point.
#[derive(Clone, Copy, Debug, PartialEq, Eq)]
pub struct Shape {
    pub line: u64,
    pub number: u64,
}

/// The zones of the turn points of a task, which are all but the first and the last, or the first
/// that the task file can't say.
fn zones_of(alloc: Global, points: &[CupPoint]) -> Result<Result<Vec<Zone>, Shape>, AllocError>
    requires { 2 ≤ length points.now }
    ensures zones { IfOk result (λ made. IfOk made (λ zones.
        AreZonesFrom points.now 1 zones.items)) }
    ensures count { IfOk result (λ made. IfOk made (λ zones.
        length points.now ≡ length zones.items + 2)) }
    ensures refused { IfOk result (λ made. IfErr made (λ shape.
        IsZoneless points.now shape.line shape.number)) }
{
    let mut zones = Vec::new(alloc);
    'numbers: for number in 1..points.len() - 1 {
        let turn = turn_at(points, number);
        let Some(zone) = zone_of(turn) else {
            let line = turn.here.line;
            let number = number as u64;
            return Ok(Err(Shape { line, number }));
        };
        zones.push(zone)?;
    }
    Ok(Ok(zones))
}

/// The start, the zones and the finish of a task of at least three points, or the first point whose
/// zone the task file can't say.
pub fn course_of(alloc: Global, points: &[CupPoint]) -> Result<Result<Course, Shape>, AllocError>
    requires { 3 ≤ length points.now }
    ensures { IfOk result (IsCourseOr points.now) }
{
    let first = leg_at(points, 0);
    let Some(start) = start_of(first.from, first.to) else {
        let line = first.from.line;
        return Ok(Err(Shape { line, number: 0 }));
    };
    let zones = match zones_of(alloc, points)? {
        Ok(zones) => zones,
        Err(shape) => return Ok(Err(shape)),
    };
    let number = points.len() - 1;
    let last = leg_at(points, number - 1);
    let Some(finish) = finish_of(last.from, last.to) else {
        let line = last.to.line;
        let number = number as u64;
        return Ok(Err(Shape { line, number }));
    };
    Ok(Ok(Course {
        start,
        zones,
        finish,
    }))
}

/// Whether one of some points has a zone that is said to be an area.
fn has_area(points: &[CupPoint]) -> bool
    ensures { result ≡ list_any (λ (point : CupPoint). point.zone.is_area) points.now }
{
    points.iter().any(|point| point.zone.is_area)
}

/// Whether a task is one of areas: it has a time, or a zone that is said to be an area.
fn is_area_task(task: &CupTask) -> bool
    ensures { result ≡ is_area_task task.now }
{
    has_area(task.points.as_slice()) || task.time.is_some()
}

/// The kind of a task.
pub fn kind_of(task: &CupTask) -> Kind
    ensures { result ≡ kind_by (is_area_task task.now) task.now.time }
{
    if is_area_task(task) {
        Kind::Area { minimum: task.time }
    } else {
        Kind::Racing
    }
}

/// How far the farthest place of a task is moved when places are rounded, in centimetres.
pub fn greatest_rounding(task: &CupTask) -> u64 {
    let mut greatest = 0;
    for point in task.points.as_slice() {
        greatest = distance(point.place, rounded(point.place)).max(greatest);
    }
    greatest
}
