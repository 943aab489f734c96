ghost use Rattle.std.specs.Prelude.{◌≡◌, IfNone, IfSome};
ghost use Rattle.gl_draft.specs.Bearing.{HasNoBearing};
ghost use Rattle.gl_draft.specs.Draft.{first_radial, second_radial, turned_about};
ghost use Rattle.gl_draft.specs.Sector.{HasNoAxis, HasNoOutside, HasNoWayBy, IsAxisOf, IsOutside, IsWay, IsWayTo, is_off_pole};

use crate::angle::bearing;
use crate::draft::Axis;
use crate::middle::{outside, thousandths};
use crate::turn::Turn;
use gl_cup::Style;
use gl_sphere::{Grid, QUARTER_TURN};

/// A whole turn, in thousandths of a degree.
const WHOLE_TURN: u64 = 360_000;

/// The two radials of a sector that lies about a direction, so far to each side, in thousandths of
/// a degree.
pub fn radials(middle: u32, half_angle: u32) -> (u32, u32)
    ensures first { result.0 ≡ first_radial middle half_angle }
    ensures second { result.1 ≡ second_radial middle half_angle }
{
    let middle = u64::from(middle);
    let half = u64::from(half_angle);
    let first = (middle + WHOLE_TURN).saturating_sub(half) % WHOLE_TURN;
    let second = (middle + half) % WHOLE_TURN;
    (first as u32, second as u32)
}

/// The opposite direction, in thousandths of a degree.
pub fn turned_about(way: u32) -> u32
    ensures { result ≡ turned_about way }
{
    ((u64::from(way) + WHOLE_TURN / 2) % WHOLE_TURN) as u32
}

/// Whether a place isn't a pole, nor becomes one when it is rounded.
pub fn is_off_pole(place: Grid) -> bool
    ensures { result ≡ is_off_pole place }
{
    u64::from(place.lat.unsigned_abs()) + 50 < QUARTER_TURN
}

/// The direction from a place to another, in thousandths of a degree.
fn way_to(from: Grid, to: Grid) -> Option<u32>
    ensures some { IfSome result (IsWayTo from to) }
    ensures none { IfNone result (HasNoBearing from to) }
{
    let angle = bearing(from, to)?;
    Some(thousandths(angle))
}

/// The direction that lies outside the turn at a point, in thousandths of a degree.
fn way_outside(before: Grid, here: Grid, next: Grid) -> Option<u32>
    ensures some { IfSome result (IsOutside before here next) }
    ensures none { IfNone result (HasNoOutside before here next) }
{
    let back = bearing(here, before)?;
    let on = bearing(here, next)?;
    match outside(back, on) {
        Some(angle) => Some(thousandths(angle)),
        None => None,
    }
}

/// The direction that the style of a turn point's zone says, in thousandths of a degree. None where
/// it isn't defined: between places that are one point or opposite ones, and outside no turn.
fn way_of(turn: Turn<'_>) -> Option<u32>
    ensures some { IfSome result (IsWay turn.entry) }
    ensures none { IfNone result (HasNoWayBy turn.entry.here.now.zone.style turn.entry) }
{
    let here = turn.here.place;
    match turn.here.zone.style {
        Style::Fixed => Some(turn.here.zone.axis % WHOLE_TURN as u32),
        Style::Symmetrical => way_outside(turn.before.place, here, turn.next.place),
        Style::ToNext => way_to(here, turn.next.place),
        Style::ToPrevious => way_to(here, turn.before.place),
        Style::ToStart => way_to(here, turn.start.place),
    }
}

/// The axis of a sector at a turn point: it lies outside the turn where it is symmetrical. None
/// where the direction isn't defined.
pub fn axis_of(turn: Turn<'_>) -> Option<Axis>
    ensures some { IfSome result (IsAxisOf turn.entry) }
    ensures none { IfNone result (HasNoAxis turn.entry) }
{
    if !is_off_pole(turn.here.place) {
        return None;
    }
    let way = way_of(turn)?;
    match turn.here.zone.style {
        Style::Symmetrical => Some(Axis::About(way)),
        _ => Some(Axis::Either(way)),
    }
}
