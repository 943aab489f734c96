ghost use Rattle.std.specs.Prelude.{◌≡◌, ◌≤◌, length, map, IfOk};
ghost use Rattle.gl_sphere.specs.Place.{written_vector};
ghost use Rattle.gl_badge.specs.Course.{IsCourse, IsCourseThrough};

use crate::near::numbers_near;
use crate::shown::Course;
use gl_igc::{Fix, Recording};
use gl_sphere::{Grid, Vec3, vector};
use std::alloc::{AllocError, Global};

/// The greatest number of points of a course: start, turn points and finish.
const MOST_POINTS: usize = 10;

/// The points of some places. The only error is want of memory.
fn points_of(alloc: Global, places: &[Grid]) -> Result<Vec<Vec3>, AllocError>
    ensures { IfOk result (λ points. points.items ≡ map written_vector places.now) }
{
    let mut points = Vec::with_capacity(alloc, places.len())?;
    for &place in places {
        points.push(vector(place))?;
    }
    Ok(points)
}

/// What fixes show of a course through these points. The only error is want of memory.
fn course_through(alloc: Global, fixes: &[Fix], points: Vec<Vec3>) -> Result<Course, AllocError>
    requires fixes { length fixes.now ≤ 90_000 }
    requires points { length points.items ≤ 10 }
    ensures { IfOk result (λ course. IsCourseThrough fixes.now points.items course) }
{
    let mut lists = Vec::with_capacity(alloc, points.len())?;
    for &point in points.as_slice() {
        let numbers = numbers_near(alloc, fixes, point)?;
        if numbers.is_empty() {
            return Ok(Course::Missed(lists.len() as u32 + 1));
        }
        lists.push(numbers)?;
    }
    Ok(Course::Lists { lists, points })
}

/// What a recording shows of its declared course. The only error is want of memory.
pub fn course(alloc: Global, rec: &Recording) -> Result<Course, AllocError>
    ensures { IfOk result (λ course. IsCourse rec.now course) }
{
    let Some(declared) = &rec.declared else {
        return Ok(Course::Undeclared);
    };
    let places = declared.points.as_slice();
    let between = &places[1..places.len() - 1];
    if between.len() > MOST_POINTS {
        return Ok(Course::Long);
    }
    course_through(alloc, rec.fixes.as_slice(), points_of(alloc, between)?)
}
