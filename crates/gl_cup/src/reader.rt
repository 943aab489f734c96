ghost use Rattle.std.specs.Prelude.{◌≡◌, ◌≢◌, ◌<◌, ◌≤◌, ◌∷◌, [], None, Some, Ok, Err, IfOk, IfErr, OnOk, length, map, option_map, slice_get, unwrap_or};
ghost use Rattle.std.specs.List.{find};
ghost use Rattle.gl_cup.specs.declared.error.CupError.TheVariants.{Memory};
ghost use Rattle.gl_cup.specs.Choice.{choice, task_rows, waypoint_rows};
ghost use Rattle.gl_cup.specs.Reading.{IsRefusalOf, IsTaskOf, first_unplaced, name_fault, names_in, point_at, point_said, points_behind, points_of, task_by, task_chosen, task_in, task_said};
ghost use Rattle.gl_cup.specs.Row.{is_broken};

use crate::choice::{choose, split_at_mark};
use crate::detail::{options_among, passed_among, test_details, zone_at};
use crate::error::CupError;
use crate::field::Field;
use crate::point::{CupPoint, CupTask};
use crate::row::{Row, first_broken, is_wide, read_rows};
use crate::waypoint::{Columns, first_damaged, place_of, read_columns};
use gl_text::Items;
use std::alloc::Global;

/// The description of a task, and the names of its points: the fields behind the description and
/// the take-off, and before the landing. There are at least three.
fn names_of(row: &Row) -> Result<(&Field, &[Field]), CupError>
    ensures title { IfOk result (λ read. unwrap_or (slice_get row.now.fields 0) [] ≡ read.0.now) }
    ensures names { IfOk result (λ read. read.1.now ≡ names_in row.now.fields) }
    ensures some { IfOk result (λ read.
        (6 ≤ length row.now.fields) × (3 ≤ length read.1.now)) }
    ensures refused { IfErr result (λ e.
        (length row.now.fields < 6) × (e ≡ CupError.TooFewPoints row.now.line)) }
{
    let fields = row.fields.as_slice();
    if fields.len() < 6 {
        return Err(CupError::TooFewPoints(row.line));
    }
    Ok((&fields[0], &fields[2..fields.len() - 1]))
}

/// What is wrong with the name of a point.
#[tactic(auto, unfolding(crate::specs::Reading::name_fault))]
fn name_fault(columns: &Columns, points: &[Row], name: &[u8], at: (u64, u64)) -> Option<CupError>
    ensures { result ≡ name_fault columns.now points.now at.0 at.1 name.now }
{
    if let Some(row) = first_damaged(columns, points, name) {
        return Some(CupError::Waypoint(row.line));
    }
    match place_of(columns, points, name) {
        Some(_) => None,
        None => Some(CupError::Unknown(at.0, at.1)),
    }
}

/// Tests that each name of a task's points is that of waypoints with one place.
fn test_names(columns: &Columns, points: &[Row], names: &[Field], line: u64) -> Result<(), CupError>
    ensures ok { OnOk result (first_unplaced columns.now points.now line 0 names.now ≡ None) }
    ensures refused { IfErr result (λ e.
        first_unplaced columns.now points.now line 0 names.now ≡ Some e) }
{
    'names: for (n, name) in names.iter().enumerate() {
        if let Some(fault) = name_fault(columns, points, name.as_slice(), (line, n as u64)) {
            return Err(fault);
        }
    }
    Ok(())
}

/// The point with a name, on a line and with a number.
fn read_point(
    alloc: Global,
    columns: &Columns,
    points: &[Row],
    details: &[Row],
    name: &Field,
    at: (u64, u64),
) -> Result<CupPoint, CupError>
    ensures ok { IfOk result (λ point.
        point_at columns.now points.now details.now at.0 at.1 name.now ≡ Ok (point_said point)) }
    ensures refused { IfErr result (λ e. e ≢ Memory
        → point_at columns.now points.now details.now at.0 at.1 name.now ≡ Err e) }
{
    let Some(place) = place_of(columns, points, name.as_slice()) else {
        return Err(CupError::Unknown(at.0, at.1));
    };
    let Some((zone, line)) = zone_at(details, at.1) else {
        return Err(CupError::NoZone(at.0, at.1));
    };
    Ok(CupPoint {
        name: Field::from_slice(alloc, name.as_slice())?,
        place,
        zone,
        line,
    })
}

/// The points of some names.
fn named_points(
    alloc: Global,
    columns: &Columns,
    points: &[Row],
    details: &[Row],
    names: &[Field],
    line: u64,
) -> Result<Vec<CupPoint>, CupError>
    ensures ok { IfOk result (λ made.
        points_behind columns.now points.now details.now line [] names.now
        ≡ Ok (map point_said made.items)) }
    ensures count { IfOk result (λ made. length made.items ≡ length names.now) }
    ensures refused { IfErr result (λ e. e ≢ Memory
        → points_behind columns.now points.now details.now line [] names.now ≡ Err e) }
{
    let mut made = Vec::new(alloc);
    let mut left = names;
    'names: while let Some((name, rest)) = left.split_first() {
        let at = (line, made.len() as u64);
        let point = read_point(alloc, columns, points, details, name, at)?;
        made.push(point)?;
        left = rest;
    }
    Ok(made)
}

/// The points of a task by their names.
#[tactic(auto, unfolding(crate::specs::Reading::points_of))]
fn tested_points(
    alloc: Global,
    columns: &Columns,
    points: &[Row],
    details: &[Row],
    names: &[Field],
    line: u64,
) -> Result<Vec<CupPoint>, CupError>
    ensures ok { IfOk result (λ made.
        points_of columns.now points.now line details.now names.now
        ≡ Ok (map point_said made.items)) }
    ensures count { IfOk result (λ made. length made.items ≡ length names.now) }
    ensures refused { IfErr result (λ e. e ≢ Memory
        → points_of columns.now points.now line details.now names.now ≡ Err e) }
{
    test_names(columns, points, names, line)?;
    test_details(alloc, details, names.len() as u64)?;
    named_points(alloc, columns, points, details, names, line)
}

/// Tests that a task's row and those below it are whole.
fn test_rows(row: &Row, details: &[Row]) -> Result<(), CupError>
    ensures ok { OnOk result (find is_broken (row.now ∷ details.now) ≡ None) }
    ensures refused { IfErr result (λ e.
        option_map (λ broken. CupError.Row broken.line) (find is_broken (row.now ∷ details.now))
        ≡ Some e) }
{
    if !row.is_whole {
        return Err(CupError::Row(row.line));
    }
    match first_broken(details) {
        Some(broken) => Err(CupError::Row(broken.line)),
        None => Ok(()),
    }
}

/// The task of a row and those below it.
#[tactic(auto, unfolding(crate::specs::Reading::task_by))]
fn read_task(
    alloc: Global,
    columns: &Columns,
    points: &[Row],
    row: &Row,
    details: &[Row],
) -> Result<CupTask, CupError>
    ensures ok { IfOk result (λ task.
        task_by columns.now points.now row.now details.now ≡ Ok (task_said task)) }
    ensures count { IfOk result (λ task. 3 ≤ length task.points) }
    ensures refused { IfErr result (λ e. e ≢ Memory
        → task_by columns.now points.now row.now details.now ≡ Err e) }
{
    test_rows(row, details)?;
    let (title, names) = names_of(row)?;
    let made = tested_points(alloc, columns, points, details, names, row.line)?;
    let options = options_among(details);
    Ok(CupTask {
        title: Field::from_slice(alloc, title.as_slice())?,
        points: Items::from_vec(made),
        opens: options.opens,
        time: options.time,
        passed: Items::from_vec(passed_among(alloc, details)?),
    })
}

/// The task that is chosen of the rows below a header.
fn task_below(
    alloc: Global,
    columns: &Columns,
    rest: &[Row],
    which: Option<u32>,
) -> Result<CupTask, CupError>
    ensures ok { IfOk result (λ task.
        task_chosen columns.now (waypoint_rows rest.now) (choice which (task_rows rest.now))
        ≡ Ok (task_said task)) }
    ensures count { IfOk result (λ task. 3 ≤ length task.points) }
    ensures refused { IfErr result (λ e. e ≢ Memory
        → task_chosen columns.now (waypoint_rows rest.now) (choice which (task_rows rest.now))
        ≡ Err e) }
{
    let (points, tasks) = split_at_mark(rest);
    let (row, details) = choose(tasks, which)?;
    read_task(alloc, columns, points, row, details)
}

/// The task of rows, the first of which is the header.
fn task_in(alloc: Global, rows: &[Row], which: Option<u32>) -> Result<CupTask, CupError>
    ensures ok { IfOk result (λ task. task_in which rows.now ≡ Ok (task_said task)) }
    ensures count { IfOk result (λ task. 3 ≤ length task.points) }
    ensures refused { IfErr result (λ e. e ≢ Memory → task_in which rows.now ≡ Err e) }
{
    let [header, rest @ ..] = rows else {
        return Err(CupError::Empty);
    };
    if !header.is_whole {
        return Err(CupError::Row(header.line));
    }
    match read_columns(header.fields.as_slice()) {
        Some(columns) => task_below(alloc, &columns, rest, which),
        None => Err(CupError::Header(header.line)),
    }
}

/// Reads a task of a text in the SeeYou form (docs/cup.md): the one of a number, counted from 1, or
/// the only one. It has a start, at least one turn point and a finish.
#[tactic(auto, unfolding(crate::specs::Reading::task_of))]
pub fn read_cup(alloc: Global, text: &[u8], which: Option<u32>) -> Result<CupTask, CupError>
    ensures ok { IfOk result (IsTaskOf text.now which) }
    ensures count { IfOk result (λ task. 3 ≤ length task.points) }
    ensures refused { IfErr result (IsRefusalOf text.now which) }
{
    if is_wide(text) {
        return Err(CupError::Wide);
    }
    let rows = read_rows(alloc, text)?;
    task_in(alloc, &rows, which)
}
