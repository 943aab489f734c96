ghost use Rattle.std.specs.Prelude.{◌≡◌, ◌≤◌, length, map, IfOk};
ghost use Rattle.gl_points.specs.Summary.{IsSummaryOf};
ghost use Rattle.gl_points.specs.Limits.{performance_limit};
ghost use Rattle.gl_points.specs.Points.{IsPartOf};
ghost use Rattle.gl_day.specs.Day.{AreRows, IsSheetOf, performances_of, row_of};

use crate::flight::Flight;
use gl_points::{Performance, Summary, day, net, score};
use gl_sheet::{Row, SheetError, sheet};
use gl_task::Task;
use std::alloc::{AllocError, Global};

/// What counts of the flights for the points. The only error is want of memory.
pub fn performances(alloc: Global, flights: &[Flight]) -> Result<Vec<Performance>, AllocError>
    ensures { IfOk result (λ list. list.items ≡ performances_of flights.now) }
{
    let mut list = Vec::with_capacity(alloc, flights.len())?;
    for flight in flights {
        list.push(flight.performance)?;
    }
    Ok(list)
}

/// The row of a flight of a day.
pub fn row_of(day: &Summary, flight: &Flight) -> Row
    requires { IsPartOf day.now flight.now.performance }
    ensures { result ≡ row_of day.now flight.now }
{
    Row {
        outcome: flight.outcome,
        metres: flight.performance.metres,
        seconds: flight.performance.seconds,
        penalty: flight.penalty,
        points: net(score(day, &flight.performance), flight.penalty),
        free: flight.free,
        triangle: flight.triangle,
    }
}

/// The rows of the flights of a day, in their order. The only error is want of memory.
fn rows(alloc: Global, day: &Summary, flights: &[Flight]) -> Result<Vec<Row>, AllocError>
    requires figures { IsSummaryOf (performances_of flights.now) day.now }
    requires few { length flights.now ≤ performance_limit }
    ensures { IfOk result (λ rows. rows.items ≡ map (row_of day.now) flights.now) }
{
    let mut rows = Vec::with_capacity(alloc, flights.len())?;
    for flight in flights {
        rows.push(row_of(day, flight))?;
    }
    Ok(rows)
}

/// The rows of the sheet of a day, one a flight and in their order: the points of each by the
/// figures of all performances, less its penalty. The only error is want of memory.
pub fn day_rows(alloc: Global, flights: &[Flight]) -> Result<Vec<Row>, AllocError>
    requires { length flights.now ≤ performance_limit }
    ensures are { IfOk result (λ list. AreRows flights.now list.items) }
    ensures count { IfOk result (λ list. length list.items ≡ length flights.now) }
{
    let list = performances(alloc, flights)?;
    let figures = day(list.as_slice());
    let rows = rows(alloc, &figures, flights)?;
    Ok(rows)
}

/// The sheet of a day, as text, from the flights of all entrants in the task's order.
pub fn sheet_of(alloc: Global, task: &Task, flights: &[Flight]) -> Result<Vec<u8>, SheetError>
    requires { length flights.now ≡ length task.now.entrants }
    ensures { IfOk result (λ text. IsSheetOf task.now flights.now text.items) }
{
    let rows = day_rows(alloc, flights)?;
    let text = sheet(alloc, task, rows.as_slice())?;
    Ok(text)
}
