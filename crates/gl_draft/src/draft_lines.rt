ghost use Rattle.std.specs.Prelude.{◌≡◌, ◌++◌, ◌∷◌, [], OnOk};
ghost use Rattle.std.specs.List.{flat_map};
ghost use Rattle.gl_draft.specs.Draft.{axis_lines, course_lines, date_lines, day_lines, finish_lines, inner_lines, kind_lines, lines_of, part_lines, radials_about, start_lines, zone_lines};

use crate::draft::{Axis, Draft, Finish, Gate, Kind, Part, Sector, Zone};
use crate::entrant::are_of_several_days;
use crate::entrant_line::{Seen, say_entrants};
use crate::lines::Lines;
use crate::plain::plain_text;
use crate::recording::Recording;
use crate::sector::{radials, turned_about};
use crate::value::Value;
use crate::word::{Key, Section};
use gl_cup::{CupPoint, CupTask};
use jiff_core::civil::Date;
use std::alloc::{AllocError, Global};

/// Appends the day.
fn say_date(lines: &mut Lines, date: Option<Date>) -> Result<(), AllocError>
    ensures { OnOk result (lines.new ≡ lines.old ++ date_lines date) }
{
    match date {
        Some(day) => lines.say(Key::Date, Value::Day(day)),
        None => {
            lines.note("the day, such as \"2026-07-18\"")?;
            lines.ask(Key::Date, 0)
        }
    }
}

/// Appends the kind, and the minimum of an area task.
fn say_kind(lines: &mut Lines, kind: Kind) -> Result<(), AllocError>
    ensures { OnOk result (lines.new ≡ lines.old ++ kind_lines kind) }
{
    let Kind::Area { minimum } = kind else {
        lines.note(
            "the SeeYou file has no TaskTime and no AAT=1: if it is an area task, write so",
        )?;
        return lines.say(Key::Kind, Value::Racing);
    };
    lines.say(Key::Kind, Value::Area)?;
    lines.note("the least time in seconds: 3 hours are 10800")?;
    match minimum {
        Some(seconds) => lines.amount(Key::Minimum, seconds),
        None => lines.ask(Key::Minimum, 0),
    }
}

/// Appends the lines of the day itself.
#[tactic(auto, unfolding(crate::specs::Draft::day_lines))]
fn say_day(lines: &mut Lines, date: Option<Date>, kind: Kind) -> Result<(), AllocError>
    ensures { OnOk result (lines.new ≡ lines.old ++ day_lines date kind) }
{
    say_date(lines, date)?;
    say_kind(lines, kind)?;
    lines.note("the last second of the day that counts, from midnight UTC: 20:00 UTC is 72000")?;
    lines.ask(Key::Closes, 0)?;
    lines.note("a file of airspace goes here, such as: airspace = \"AIRSPACE.TXT\"")
}

/// What the SeeYou file says of the opening.
fn opening_remark(alloc: Global, opens: Option<u32>) -> Result<Option<String>, AllocError> {
    let Some(seconds) = opens else {
        return Ok(None);
    };
    let hours = seconds / 3_600;
    let minutes = seconds / 60 % 60;
    let rest = seconds % 60;
    let clock = format!(in alloc; "{hours:02}:{minutes:02}:{rest:02}")?;
    let text = format!(in alloc;
        "the SeeYou file has {clock}: as UTC that is {seconds}; convert local time first"
    )?;
    Ok(Some(text))
}

/// Appends the start. When it opens and closes is left to fill in.
fn say_start(lines: &mut Lines, start: Gate, opens: Option<u32>) -> Result<(), AllocError>
    ensures { OnOk result (lines.new ≡ lines.old ++ start_lines start) }
{
    lines.gap()?;
    lines.head(Section::Start)?;
    lines.say(Key::At, Value::Place(start.at))?;
    lines.say(Key::Towards, Value::Place(start.towards))?;
    lines.amount(Key::Half, start.half)?;
    lines.note("the start opens, in seconds from midnight UTC: 11:30 UTC is 41400")?;
    let remark = opening_remark(lines.alloc(), opens)?;
    lines.note_if(remark)?;
    lines.ask(Key::Opening, 0)?;
    lines.note("the start closes: 12:00 UTC is 43200")?;
    lines.ask(Key::Close, 0)
}

/// An angle in degrees, by its thousandths.
fn degrees(alloc: Global, thousandths: u32) -> Result<String, AllocError> {
    let whole = thousandths / 1_000;
    let rest = thousandths % 1_000;
    format!(in alloc; "{whole}.{rest:03}")
}

/// How far the rounding of a direction moves the edge of a sector at its radius, at most. A direction
/// is rounded by at most 0.00051 degrees, which are 891 centimetres in a million metres.
fn rounding_remark(alloc: Global, outer: u32) -> Result<String, AllocError> {
    let centimetres = (u64::from(outer) * 891).div_ceil(1_000_000);
    let metres = centimetres / 100;
    let rest = centimetres % 100;
    format!(in alloc;
        "directions are rounded by at most 0.00051 degrees, {metres}.{rest:02} m at the radius"
    )
}

/// Which way a sector lies.
fn axis_remark(alloc: Global, axis: Axis, half_angle: u32) -> Result<String, AllocError> {
    let half = degrees(alloc, half_angle)?;
    match axis {
        Axis::About(middle) => {
            let about = degrees(alloc, middle)?;
            format!(in alloc; "outside the turn: {half} degrees to each side of {about}")
        }
        Axis::Either(_) => {
            format!(in alloc;
                "{half} degrees to each side, but of which direction? Programs differ: look at the map."
            )
        }
    }
}

/// Appends the radials that a sector has if it lies about a direction.
fn offer_radials(lines: &mut Lines, middle: u32, half_angle: u32) -> Result<(), AllocError>
    ensures { OnOk result (lines.new ≡ lines.old ++ radials_about middle half_angle ∷ []) }
{
    let (from, to) = radials(middle, half_angle);
    lines.offer(middle, from, to)
}

/// Appends the two radials of a sector. Where it lies about a direction or the opposite one they are
/// left to fill in, below remarks that say both.
fn say_axis(lines: &mut Lines, axis: Axis, half_angle: u32) -> Result<(), AllocError>
    ensures { OnOk result (lines.new ≡ lines.old ++ axis_lines axis half_angle) }
{
    let remark = axis_remark(lines.alloc(), axis, half_angle)?;
    lines.remark(remark)?;
    match axis {
        Axis::About(middle) => {
            let (from, to) = radials(middle, half_angle);
            lines.amount(Key::From, from)?;
            lines.amount(Key::To, to)
        }
        Axis::Either(middle) => {
            offer_radials(lines, middle, half_angle)?;
            offer_radials(lines, turned_about(middle), half_angle)?;
            lines.ask(Key::From, 0)?;
            lines.ask(Key::To, 0)
        }
    }
}

/// Appends where a sector begins, unless that is its centre.
fn say_inner(lines: &mut Lines, inner: u32) -> Result<(), AllocError>
    ensures { OnOk result (lines.new ≡ lines.old ++ inner_lines inner) }
{
    if inner == 0 {
        return Ok(());
    }
    lines.note("R2 is taken as the inner radius, since A2 is A1: look at the map")?;
    lines.amount(Key::Inner, inner)
}

/// Appends a part of a zone.
fn say_part(lines: &mut Lines, part: Part) -> Result<(), AllocError>
    ensures { OnOk result (lines.new ≡ lines.old ++ part_lines part) }
{
    lines.head(Section::Part)?;
    match part {
        Part::Circle(radius) => lines.amount(Key::Radius, radius),
        Part::Sector(
            Sector {
                inner,
                outer,
                half_angle,
                axis,
            },
        ) => {
            say_inner(lines, inner)?;
            lines.amount(Key::Outer, outer)?;
            let remark = rounding_remark(lines.alloc(), outer)?;
            lines.remark(remark)?;
            say_axis(lines, axis, half_angle)
        }
    }
}

/// Appends a zone below a remark with the name of its point.
fn say_zone(lines: &mut Lines, zone: Zone, point: Option<&CupPoint>) -> Result<(), AllocError>
    ensures { OnOk result (lines.new ≡ lines.old ++ zone_lines zone) }
{
    lines.gap()?;
    if let Some(point) = point {
        let name = plain_text(lines.alloc(), point.name.as_slice())?;
        lines.remark(name)?;
    }
    lines.head(Section::Zone)?;
    lines.say(Key::At, Value::Place(zone.at))?;
    say_part(lines, zone.part)?;
    match zone.second {
        Some(part) => say_part(lines, part),
        None => Ok(()),
    }
}

/// Appends zones, those of a task's turn points.
fn say_zones(lines: &mut Lines, zones: &[Zone], points: &[CupPoint]) -> Result<(), AllocError>
    ensures { OnOk result (lines.new ≡ lines.old ++ flat_map zone_lines zones.now) }
{
    'zones: for (n, zone) in zones.iter().enumerate() {
        say_zone(lines, *zone, points.get(n + 1))?;
    }
    Ok(())
}

/// Appends the finish.
fn say_finish(lines: &mut Lines, finish: Finish) -> Result<(), AllocError>
    ensures { OnOk result (lines.new ≡ lines.old ++ finish_lines finish) }
{
    lines.gap()?;
    lines.head(Section::Finish)?;
    match finish {
        Finish::Ring { at, radius } => {
            lines.say(Key::At, Value::Place(at))?;
            lines.amount(Key::Ring, radius)
        }
        Finish::Gate(gate) => {
            lines.say(Key::At, Value::Place(gate.at))?;
            lines.amount(Key::Half, gate.half)?;
            lines.note(
                "straight on from the last turn point, on the far side of the earth from it",
            )?;
            lines.say(Key::Towards, Value::Place(gate.towards))
        }
    }
}

/// Appends the start, the zones and the finish.
#[tactic(auto, unfolding(crate::specs::Draft::course_lines))]
fn say_course(lines: &mut Lines, draft: &Draft, task: &CupTask) -> Result<(), AllocError>
    ensures { OnOk result (lines.new
        ≡ lines.old ++ course_lines draft.now.start draft.now.zones draft.now.finish) }
{
    say_start(lines, draft.start, task.opens)?;
    say_zones(lines, draft.zones.as_slice(), task.points.as_slice())?;
    say_finish(lines, draft.finish)
}

/// Appends all lines of a draft, which is made of a task and recordings. No local rule is said.
pub fn say_draft(
    lines: &mut Lines,
    draft: &Draft,
    task: &CupTask,
    recordings: &[Recording],
) -> Result<(), AllocError>
    ensures { OnOk result (lines.new ≡ lines.old ++ lines_of draft.now) }
{
    say_day(lines, draft.date, draft.kind)?;
    say_course(lines, draft, task)?;
    lines.gap()?;
    lines.head(Section::Rules)?;
    lines.note("local rules go here, such as: ceiling = 1900")?;
    let seen = Seen {
        entrants: draft.entrants.as_slice(),
        recordings,
        is_of_several_days: are_of_several_days(recordings),
    };
    say_entrants(lines, &seen, draft.entrants.as_slice())
}
