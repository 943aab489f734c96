ghost use Rattle.std.specs.Prelude.{◌≡◌, ◌≤◌, ◌∷◌, IfOk, length, map};
ghost use Rattle.std.specs.List.{flat_map};
ghost use Rattle.csv.specs.Records.{fields_of};
ghost use Rattle.csv.specs.Writing.{default_writer, row_text};
ghost use Rattle.gl_task.specs.Limits.{most_entrants};
ghost use Rattle.gl_sheet.specs.Columns.{fields, heading, rank_of};
ghost use Rattle.gl_sheet.specs.Code.Line.{line_of};
ghost use Rattle.gl_sheet.specs.Sheet.{IsSheet};

use crate::columns::{push_flight, push_lists, push_points, push_standing};
use crate::error::SheetError;
use crate::line::{Line, in_order};
use crate::row::Row;
use csv::{ByteRecord, WriterBuilder};
use gl_task::Task;
use std::alloc::{AllocError, Global};

/// The text of a line with these fields, as csv's default writer makes it.
fn line_text(alloc: Global, columns: &ByteRecord) -> Result<Vec<u8>, SheetError>
    ensures { IfOk result (λ text. text.items ≡ row_text default_writer (fields_of columns.now)) }
{
    let mut writer = WriterBuilder::new().from_writer(Vec::new(alloc));
    writer.write_byte_record(columns)?;
    match writer.into_inner() {
        Ok(text) => Ok(text),
        Err(error) => Err(error.into_error().into()),
    }
}

/// The names of the columns.
fn heading_columns(alloc: Global) -> Result<ByteRecord, AllocError>
    ensures { IfOk result (λ columns. fields_of columns ≡ heading) }
{
    ByteRecord::from_fields(
        alloc,
        &[
            b"rank",
            b"number",
            b"name",
            b"result",
            b"metres",
            b"seconds",
            b"penalty",
            b"points",
            b"free",
            b"triangle",
        ],
    )
}

/// The rank of an entrant with these points.
fn rank(rows: &[Row], points: u32) -> u32
    requires { length rows.now ≤ most_entrants }
    ensures { result ≡ rank_of rows.now points }
{
    rows.iter().filter(|row| row.points > points).count() as u32 + 1
}

/// The columns of an entrant's line.
fn columns(alloc: Global, rows: &[Row], line: &Line) -> Result<ByteRecord, AllocError>
    requires { length rows.now ≤ most_entrants }
    ensures { IfOk result
        (λ columns. fields_of columns ≡ fields rows.now (line_of line.now)) }
{
    let mut columns = ByteRecord::new(alloc);
    push_standing(
        alloc,
        &mut columns,
        rank(rows, line.row.points),
        line.entrant,
    )?;
    push_flight(alloc, &mut columns, line.row)?;
    push_points(alloc, &mut columns, line.row)?;
    push_lists(alloc, &mut columns, line.row)?;
    Ok(columns)
}

/// The text of an entrant's line.
fn entrant_text(alloc: Global, rows: &[Row], line: &Line) -> Result<Vec<u8>, SheetError>
    requires { length rows.now ≤ most_entrants }
    ensures { IfOk result (λ text.
        text.items
        ≡ row_text default_writer (fields rows.now (line_of line.now))) }
{
    line_text(alloc, &columns(alloc, rows, line)?)
}

/// The text of the heading and of these lines.
fn text_of(alloc: Global, rows: &[Row], lines: &[Line]) -> Result<Vec<u8>, SheetError>
    requires { length rows.now ≤ most_entrants }
    ensures { IfOk result (λ text.
        text.items
        ≡ flat_map (row_text default_writer)
        (heading ∷ map (fields rows.now) (map line_of lines.now))) }
{
    let mut text = line_text(alloc, &heading_columns(alloc)?)?;
    for line in lines {
        text.extend_from_slice(&entrant_text(alloc, rows, line)?)?;
    }
    Ok(text)
}

/// The sheet of a day, as text: the heading and a line for each entrant, by points. The rows are
/// those of the task's entrants, in their order.
pub fn sheet(alloc: Global, task: &Task, rows: &[Row]) -> Result<Vec<u8>, SheetError>
    requires { length rows.now ≡ length task.now.entrants }
    ensures { IfOk result (λ text. IsSheet task.now.entrants rows.now text.items) }
{
    let lines = in_order(alloc, task.entrants.as_slice(), rows)?;
    let text = text_of(alloc, rows, lines.as_slice())?;
    Ok(text)
}
