ghost use Rattle.std.specs.Prelude.{◌≡◌, ◌≤◌, ◌++◌, length, slice_get, IfOk, OnOk};
ghost use Rattle.gl_goal.specs.Chain.{legs};
ghost use Rattle.gl_badge.specs.declared.shown.Course.{Course};
ghost use Rattle.gl_badge.specs.Course.{IsCourse};
ghost use Rattle.gl_badge.specs.Text.{AreBadgeLines, AreBadgeOptima, course_line, distance_line, gain_line, goal_line, graded, missed_line, reached_line};
ghost use Rattle.gl_badge.specs.Code.Text.{is_total};

use crate::badge::Badge;
use crate::declared::course;
use crate::grade::Grade;
use crate::shown::Course;
use gl_igc::Recording;
use gl_sphere::{Vec3, dist, sq};
use gl_text::{push_fixed, push_u64};
use std::alloc::{AllocError, Global};

/// How many digits of a length in centimetres stand behind the point of its metres.
const METRE_PLACES: u32 = 2;

/// The legs along some points, in centimetres.
fn legs(points: &[Vec3]) -> u64
    requires { length points.now ≤ 10 }
    ensures { result ≡ legs points.now }
{
    let Some((&first, others)) = points.split_first() else {
        return 0;
    };
    let mut length = 0;
    let mut end = first;
    for &next in others {
        length += dist(sq(end, next));
        end = next;
    }
    length
}

/// Appends the end of a line with a value.
fn push_grade(text: &mut Vec<u8>, badge: Badge, value: u64) -> Result<(), AllocError>
    ensures { OnOk result (text.new.items ≡ text.old.items ++ graded badge value) }
{
    text.extend_from_slice(b" m ")?;
    text.extend_from_slice(Grade::of(badge, value).word().as_bytes())?;
    text.push(b'\n')?;
    Ok(())
}

/// Appends the line of the free distance, of so many centimetres.
#[tactic(auto, unfolding(crate::specs::Text::distance_line))]
fn push_distance(text: &mut Vec<u8>, total: u64) -> Result<(), AllocError>
    ensures { OnOk result (text.new.items ≡ text.old.items ++ distance_line total) }
{
    text.extend_from_slice(b"DISTANCE ")?;
    push_fixed(text, total, METRE_PLACES)?;
    push_grade(text, Badge::Distance, total)
}

/// Appends the line of the gain of height, of so many metres.
#[tactic(auto, unfolding(crate::specs::Text::gain_line))]
fn push_gain(text: &mut Vec<u8>, metres: u64) -> Result<(), AllocError>
    ensures { OnOk result (text.new.items ≡ text.old.items ++ gain_line metres) }
{
    text.extend_from_slice(b"GAIN ")?;
    push_u64(text, metres)?;
    push_grade(text, Badge::Gain, metres)
}

/// Appends the line of a declared course that was flown, of so many centimetres.
#[tactic(auto, unfolding(crate::specs::Text::course_line))]
fn push_course(text: &mut Vec<u8>, length: u64) -> Result<(), AllocError>
    ensures { OnOk result (text.new.items ≡ text.old.items ++ course_line length) }
{
    text.extend_from_slice(b"GOAL ")?;
    push_fixed(text, length, METRE_PLACES)?;
    push_grade(text, Badge::DeclaredGoal, length)
}

/// Appends the line of a declared course whose point with this number was missed.
fn push_missed(text: &mut Vec<u8>, number: u32) -> Result<(), AllocError>
    ensures { OnOk result (text.new.items ≡ text.old.items ++ missed_line number) }
{
    text.extend_from_slice(b"GOAL MISSED ")?;
    push_u64(text, u64::from(number))?;
    text.push(b'\n')?;
    Ok(())
}

/// Appends the line of a declared course each of whose points was reached, in order or not.
fn push_reached(text: &mut Vec<u8>, points: &[Vec3], is_flown: bool) -> Result<(), AllocError>
    requires { length points.now ≤ 10 }
    ensures { OnOk result
        (text.new.items ≡ text.old.items ++ reached_line points.now is_flown) }
{
    if is_flown {
        push_course(text, legs(points))
    } else {
        text.extend_from_slice(b"GOAL UNORDERED\n")
    }
}

/// Appends the line of the declared course of a recording. Where each of its points was reached it
/// is told whether they were reached in order.
fn push_goal(
    alloc: Global,
    text: &mut Vec<u8>,
    rec: &Recording,
    is_flown: bool,
) -> Result<(), AllocError>
    ensures { OnOk result ((shown : Course) × IsCourse rec.now shown
        × (text.new.items ≡ text.old.items ++ goal_line shown is_flown)) }
{
    match course(alloc, rec)? {
        Course::Undeclared => text.extend_from_slice(b"GOAL UNDECLARED\n"),
        Course::Long => text.extend_from_slice(b"GOAL LONG\n"),
        Course::Missed(number) => push_missed(text, number),
        Course::Lists { points, .. } => push_reached(text, points.as_slice(), is_flown),
    }
}

/// Whether there is a third claim that has a total.
fn has_third(totals: &[Option<u64>]) -> bool
    ensures { result ≡ is_total (slice_get totals.now 2) }
{
    match totals.get(2) {
        Some(total) => total.is_some(),
        None => false,
    }
}

/// The three lines that tell of the badge claims of a flight, each with its grade: the free
/// distance, the gain of height and the declared course. The totals are those of the flight's badge
/// claims, in their order. The only error is want of memory.
pub fn badge_text(
    alloc: Global,
    rec: &Recording,
    totals: &[Option<u64>],
) -> Result<Vec<u8>, AllocError>
    requires { AreBadgeOptima rec.now totals.now }
    ensures { IfOk result (λ text. AreBadgeLines rec.now text.items) }
{
    let mut text = Vec::new(alloc);
    push_distance(&mut text, totals[0].unwrap())?;
    push_gain(&mut text, totals[1].unwrap())?;
    push_goal(alloc, &mut text, rec, has_third(totals))?;
    Ok(text)
}
