ghost use Rattle.std.specs.Prelude.{◌≡◌, true, false, IfNone, IfSome};
ghost use Rattle.gl_draft.specs.Taken.{HasNoFinish, HasNoPart, HasNoZone, IsFinishOf, IsGateOf, IsPartOf, IsSecondOf, IsStartOf, IsTooNear, IsZoneFor, inner_of, is_gate, is_keyhole, is_part, is_ring, is_ring_sector, is_sayable, is_start_line};

use crate::draft::{Finish, Gate, Part, Sector, Zone};
use crate::place::{distance, opposite, rounded};
use crate::sector::axis_of;
use crate::turn::Turn;
use gl_cup::{CupPoint, ObsZone, Style};

/// Half a turn, in thousandths of a degree: the half angle of a full circle.
const HALF_TURN: u32 = 180_000;

/// A kilometre, in centimetres: a nearer point gives no direction to a line or a sector.
const KILOMETRE: u64 = 100_000;

/// Whether a zone is a line across the way to the next point, alone.
fn is_start_line(zone: ObsZone) -> bool
    ensures { result ≡ is_start_line zone }
{
    zone.is_line && matches!(zone.style, Style::ToNext) && zone.second_radius == 0
}

/// Whether a zone is a full circle, alone.
fn is_ring(zone: ObsZone) -> bool
    ensures { result ≡ is_ring zone }
{
    !zone.is_line && zone.angle == HALF_TURN && zone.second_radius == 0
}

/// Whether a zone is a line across the way from the point before, alone.
fn is_gate(zone: ObsZone) -> bool
    ensures { result ≡ is_gate zone }
{
    zone.is_line && matches!(zone.style, Style::ToPrevious) && zone.second_radius == 0
}

/// Whether the first part of a zone is no line, and goes some way to each side.
fn is_part(zone: ObsZone) -> bool
    ensures { result ≡ is_part zone }
{
    !zone.is_line && zone.angle > 0 && zone.angle <= HALF_TURN
}

/// Whether a zone is a sector and a full circle.
fn is_keyhole(zone: ObsZone) -> bool
    ensures { result ≡ is_keyhole zone }
{
    zone.second_radius != 0 && zone.angle != HALF_TURN && zone.second_angle == HALF_TURN
}

/// Whether a zone is a sector that begins at its second radius: two sectors with one half angle.
fn is_ring_sector(zone: ObsZone) -> bool
    ensures { result ≡ is_ring_sector zone }
{
    zone.second_radius != 0
        && zone.angle != HALF_TURN
        && zone.second_angle == zone.angle
        && zone.second_radius < zone.radius
}

/// Where a sector begins: at its second radius, or else at its centre.
fn inner_of(zone: ObsZone) -> u32
    ensures { result ≡ inner_of zone }
{
    if is_ring_sector(zone) {
        zone.second_radius
    } else {
        0
    }
}

/// A start that is a line across the way to the next point; none where its zone is of another
/// shape.
pub fn start_of(start: &CupPoint, next: &CupPoint) -> Option<Gate>
    ensures some { IfSome result (IsStartOf start.now next.now) }
    ensures none { IfNone result (is_start_line start.now.zone ≡ false) }
{
    if !is_start_line(start.zone) {
        return None;
    }
    Some(Gate {
        at: rounded(start.place),
        towards: rounded(next.place),
        half: start.zone.radius,
    })
}

/// A finish line across the way from the point before; none where that is less than a kilometre
/// away.
fn gate_of(last: &CupPoint, finish: &CupPoint) -> Option<Gate>
    requires { is_gate finish.now.zone ≡ true }
    ensures some { IfSome result (IsGateOf last.now finish.now) }
    ensures none { IfNone result (IsTooNear last.now finish.now) }
{
    let at = rounded(finish.place);
    let before = rounded(last.place);
    if distance(before, at) < KILOMETRE {
        return None;
    }
    Some(Gate {
        at,
        towards: opposite(before),
        half: finish.zone.radius,
    })
}

/// A finish that is a full circle, or a line across the way from the point before.
pub fn finish_of(last: &CupPoint, finish: &CupPoint) -> Option<Finish>
    ensures some { IfSome result (IsFinishOf last.now finish.now) }
    ensures none { IfNone result (HasNoFinish last.now finish.now) }
{
    if is_ring(finish.zone) {
        return Some(Finish::Ring {
            at: rounded(finish.place),
            radius: finish.zone.radius,
        });
    }
    if !is_gate(finish.zone) {
        return None;
    }
    let gate = gate_of(last, finish)?;
    Some(Finish::Gate(gate))
}

/// The first part of a turn point's zone: a full circle, or a sector.
fn first_part(turn: Turn<'_>) -> Option<Part>
    ensures some { IfSome result (IsPartOf turn.entry) }
    ensures none { IfNone result (HasNoPart turn.entry) }
{
    let zone = turn.here.zone;
    if !is_part(zone) {
        return None;
    }
    if zone.angle == HALF_TURN {
        return Some(Part::Circle(zone.radius));
    }
    let axis = axis_of(turn)?;
    Some(Part::Sector(Sector {
        inner: inner_of(zone),
        outer: zone.radius,
        half_angle: zone.angle,
        axis,
    }))
}

/// The second part of a turn point's zone, where a task file can say its parts: one, or a sector
/// and a full circle.
fn second_part(zone: ObsZone) -> Option<Option<Part>>
    ensures some { IfSome result (IsSecondOf zone) }
    ensures none { IfNone result (is_sayable zone ≡ false) }
{
    if zone.second_radius == 0 || is_ring_sector(zone) {
        return Some(None);
    }
    if is_keyhole(zone) {
        return Some(Some(Part::Circle(zone.second_radius)));
    }
    None
}

/// The zone of a turn point: its first part, and perhaps a full circle more. None where its zone is
/// of another shape.
pub fn zone_of(turn: Turn<'_>) -> Option<Zone>
    ensures some { IfSome result (IsZoneFor turn.entry) }
    ensures none { IfNone result (HasNoZone turn.entry) }
{
    let second = second_part(turn.here.zone)?;
    let part = first_part(turn)?;
    Some(Zone {
        at: rounded(turn.here.place),
        part,
        second,
    })
}
