ghost use Rattle.std.specs.Prelude.{◌≡◌, ◌==◌, is_none};
ghost use Rattle.std.specs.Cmp.Lexicographic.{pointwise};
ghost use Rattle.std.specs.Ordering.{int_eq};
ghost use Rattle.gl_text.specs.Forms.{is_text};
ghost use Rattle.jiff_core.specs.Date.{epoch_day};
ghost use Rattle.gl_draft.specs.Draft.{has_begin, has_draft, has_entrant, has_finish, has_head, has_kind, has_line, has_part, has_parts, has_radials, has_rest, has_sector, has_zone, is_at, is_known, is_length};

use crate::draft::{Axis, Draft, Finish, Gate, Kind, Part, Sector, Zone};
use crate::entrant::Entrant;
use crate::sector::radials;
use gl_desk::Name;
use gl_sphere::{Grid, Vec3, vector};
use gl_task::{Finish as TaskFinish, Kind as TaskKind, PilotStart, Start as TaskStart, Task};
use gl_zone::{Line, Part as TaskPart, Sector as TaskSector, Zone as TaskZone};
use jiff_core::civil::Date;

/// A metre, in centimetres.
const METRE: u64 = 100;

/// Whether a length is so many metres.
fn is_length(centimetres: u64, metres: u32) -> bool
    ensures { result ≡ is_length centimetres metres }
{
    centimetres == u64::from(metres) * METRE
}

/// Whether a point is that of a place.
fn is_at(point: Vec3, place: Grid) -> bool
    ensures { result ≡ is_at point place }
{
    let at = vector(place);
    point.x == at.x && point.y == at.y && point.z == at.z
}

/// Whether a line is the one that was taken.
fn has_line(gate: Gate, line: Line) -> bool
    ensures { result ≡ has_line gate line }
{
    is_at(line.centre, gate.at)
        && is_at(line.towards, gate.towards)
        && is_length(line.half, gate.half)
}

/// Whether a sector has the radials, where it is known which way it lies.
fn has_radials(axis: Axis, half_angle: u32, made: TaskSector) -> bool
    ensures { result ≡ has_radials axis half_angle made }
{
    match axis {
        Axis::About(middle) => {
            let (from, to) = radials(middle, half_angle);
            made.from == from && made.to == to
        }
        Axis::Either(_) => true,
    }
}

/// Whether a sector is the one that was taken.
fn has_sector(centre: Grid, sector: Sector, made: TaskSector) -> bool
    ensures { result ≡ has_sector centre sector made }
{
    is_at(made.centre, centre)
        && is_length(made.inner, sector.inner)
        && is_length(made.outer, sector.outer)
        && has_radials(sector.axis, sector.half_angle, made)
}

/// Whether a part is the one that was taken.
fn has_part(centre: Grid, part: Part, made: TaskPart) -> bool
    ensures { result ≡ has_part centre part made }
{
    match (part, made) {
        (Part::Circle(radius), TaskPart::Cylinder(circle)) => {
            is_at(circle.centre, centre) && is_length(circle.radius, radius)
        }
        (Part::Sector(sector), TaskPart::Sector(made)) => has_sector(centre, sector, made),
        _ => false,
    }
}

/// Whether parts are the one or the two that were taken.
fn has_parts(centre: Grid, first: Part, second: Option<Part>, made: &[TaskPart]) -> bool
    ensures { result ≡ has_parts centre first second made.now }
{
    match (second, made) {
        (None, [part]) => has_part(centre, first, *part),
        (Some(second), [part, other]) => {
            has_part(centre, first, *part) && has_part(centre, second, *other)
        }
        _ => false,
    }
}

/// Whether a zone is the one that was taken.
fn has_zone(zone: &Zone, made: &TaskZone) -> bool
    ensures { result ≡ has_zone zone.now made.now }
{
    is_at(made.centre, zone.at) && has_parts(zone.at, zone.part, zone.second, made.parts.as_slice())
}

/// Whether zones are those that were taken.
fn has_zones(zones: &[Zone], made: &[TaskZone]) -> bool
    ensures { result ≡ pointwise has_zone zones.now made.now }
{
    let mut left = zones;
    let mut right = made;
    'zones: while let Some((zone, rest)) = left.split_first() {
        let Some((one, others)) = right.split_first() else {
            return false;
        };
        if !has_zone(zone, one) {
            return false;
        }
        left = rest;
        right = others;
    }
    right.is_empty()
}

/// Whether a finish is the one that was taken.
fn has_finish(finish: Finish, made: TaskFinish) -> bool
    ensures { result ≡ has_finish finish made }
{
    match (finish, made) {
        (
            Finish::Ring { at, radius },
            TaskFinish::Ring {
                at: point,
                radius: length,
            },
        ) => { is_at(point, at) && is_length(length, radius) }
        (Finish::Gate(gate), TaskFinish::Gate(line)) => has_line(gate, line),
        _ => false,
    }
}

/// Whether a kind is the one that was taken.
#[tactic(auto, unfolding(crate::specs::Draft::has_kind))]
fn has_kind(kind: Kind, made: TaskKind) -> bool
    ensures { result ≡ has_kind kind made }
{
    match (kind, made) {
        (Kind::Racing, TaskKind::Racing) => true,
        (Kind::Area { minimum }, TaskKind::Area { minimum: seconds }) => {
            has_minimum(minimum, seconds)
        }
        _ => false,
    }
}

/// Whether a name is the number that is known.
fn has_number(number: &Option<Name>, made: &Name) -> bool
    ensures { result
        ≡ is_known (λ known number. is_text number known) number.now made.now }
{
    match number {
        Some(known) => made == known,
        None => true,
    }
}

/// Whether an entrant is the one that was taken.
fn has_entrant(entrant: &Entrant, made: &gl_task::Entrant) -> bool
    ensures { result ≡ has_entrant entrant.now made.now }
{
    has_number(&entrant.number, &made.number)
        && made.name == entrant.name
        && made.handicap == 1_000
        && made.file == entrant.file
}

/// Whether entrants are those that were taken.
fn has_entrants(entrants: &[Entrant], made: &[gl_task::Entrant]) -> bool
    ensures { result ≡ pointwise has_entrant entrants.now made.now }
{
    let mut left = entrants;
    let mut right = made;
    'entrants: while let Some((entrant, rest)) = left.split_first() {
        let Some((one, others)) = right.split_first() else {
            return false;
        };
        if !has_entrant(entrant, one) {
            return false;
        }
        left = rest;
        right = others;
    }
    right.is_empty()
}

/// Whether a day is the one that is known.
fn has_date(date: Option<Date>, made: i32) -> bool
    ensures { result ≡ is_known (λ known date. int_eq date (epoch_day known)) date made }
{
    match date {
        Some(known) => made == known.to_unix_epoch_day(),
        None => true,
    }
}

/// Whether a minimum is the one that is known.
fn has_minimum(minimum: Option<u32>, made: u32) -> bool
    ensures { result ≡ is_known (λ known made. made == known) minimum made }
{
    match minimum {
        Some(known) => made == known,
        None => true,
    }
}

/// Whether a start needn't be announced.
fn is_unannounced(pilot: Option<PilotStart>) -> bool
    ensures { result ≡ is_none pilot }
{
    pilot.is_none()
}

/// Whether a task has the start that was taken, which needn't be announced.
#[tactic(auto, unfolding(crate::specs::Draft::has_begin))]
fn has_begin(start: Gate, made: TaskStart) -> bool
    ensures { result ≡ has_begin start made }
{
    has_line(start, made.line) && is_unannounced(made.pilot)
}

/// Whether a task has the day, the kind and the start that were taken.
fn has_head(draft: &Draft, task: &Task) -> bool
    ensures { result ≡ has_head draft.now task.now }
{
    has_date(draft.date, task.date)
        && has_kind(draft.kind, task.kind)
        && has_begin(draft.start, task.start)
}

/// Whether a task has the zones, the finish and the entrants that were taken.
fn has_rest(draft: &Draft, task: &Task) -> bool
    ensures { result ≡ has_rest draft.now task.now }
{
    has_zones(draft.zones.as_slice(), task.zones.as_slice())
        && has_finish(draft.finish, task.finish)
        && has_entrants(draft.entrants.as_slice(), task.entrants.as_slice())
}

/// Whether a task has all that was taken.
#[tactic(auto, unfolding(crate::specs::Draft::has_draft))]
pub fn has_draft(draft: &Draft, task: &Task) -> bool
    ensures { result ≡ has_draft draft.now task.now }
{
    has_head(draft, task) && has_rest(draft, task)
}
