ghost use Rattle.std.specs.Prelude.{◌≡◌, ◌≢◌, ◌⊎◌, ◌↔◌, ◌≤◌, ◌++◌, ◌∷◌, [], ℕ, All, IfOk, IfErr, IsErrOf, IsTrue, IsUtf8, MatchOption, MatchResult, OnOk, map};
ghost use Rattle.std.specs.Fmt.{decimal};
ghost use Rattle.csv.specs.Records.{fields_of};
ghost use Rattle.gl_series.specs.declared.day.DayRow.{DayRow};
ghost use Rattle.gl_series.specs.declared.day.DaySheet.{DaySheet};
ghost use Rattle.gl_series.specs.declared.error.SheetError.{SheetError};
ghost use Rattle.gl_series.specs.declared.error.SheetError.TheVariants.{Memory};
ghost use Rattle.gl_series.specs.Code.AddingRows.{AddsRow, IsNextRow, IsWrongRow, row_written, HasNumbers};
ghost use Rattle.gl_series.specs.Code.ReadingRecords.{StandsBehind, text_under};
ghost use Rattle.gl_text.specs.Forms.{is_name, is_number};
ghost use Rattle.gl_series.specs.SheetText.{IsRefusedSheet, IsRowOf, IsSheetOf, field_of, sheet_heading};
ghost use Rattle.gl_series.specs.Totals.{IsDay};

use crate::day::{DayRow, DaySheet};
use crate::error::SheetError;
use crate::form::text_in;
use crate::numbers::Numbers;
use csv::{ByteRecord, Error as ReadError, Reader, ReaderBuilder};
use gl_desk::Name;
use gl_text::{Items, is_name, is_number, read_u64};
use std::alloc::{AllocError, Global};

/// How many fields a record of a sheet has.
const COLUMNS: usize = 10;

/// The places of the fields that are read, from 0.
const NUMBER: usize = 1;

const NAME: usize = 2;

const POINTS: usize = 7;

/// The most rows of a sheet.
const MOST_ROWS: usize = 200;

/// The most points of a day.
const MOST_POINTS: u64 = 1_000;

/// What a record writes of a pilot.
#[derive(Clone, Copy)]
pub(crate) struct Written<'a> {
    pub number: &'a str,
    pub name: &'a str,
    pub points: u32,
}

/// The field at a place, empty where the record is too short.
fn field(columns: &ByteRecord, place: usize) -> &[u8]
    ensures { result.now ≡ field_of (fields_of columns.now) place }
{
    match columns.get(place) {
        Some(field) => field,
        None => b"",
    }
}

/// Whether a record has these fields, and no other.
fn has_fields(columns: &ByteRecord, fields: &[&[u8]]) -> bool
    ensures { IsTrue result ↔ (fields_of columns.now ≡ map (λ field. field.now) fields.now) }
{
    if columns.len() != fields.len() {
        return false;
    }
    for (place, name) in fields.iter().enumerate() {
        if field(columns, place) != *name {
            return false;
        }
    }
    true
}

/// Whether a record is the heading of a sheet.
fn is_heading(columns: &ByteRecord) -> bool
    ensures { IsTrue result ↔ (fields_of columns.now ≡ sheet_heading) }
{
    has_fields(
        columns,
        &[
            b"rank",
            b"number",
            b"name",
            b"result",
            b"metres",
            b"seconds",
            b"penalty",
            b"points",
            b"free",
            b"triangle",
        ],
    )
}

/// The number that a record writes.
fn number_in(columns: &ByteRecord) -> Option<&str>
    ensures { let field = field_of (fields_of columns.now) 1 in MatchOption result
        (IsTrue (is_number field) → ⊥)
        (λ number. (field ≡ number.now) × IsTrue (is_number number.now)) }
{
    let number = text_in(field(columns, NUMBER))?;
    is_number(number).then_some(number)
}

/// The name that a record writes.
fn name_in(columns: &ByteRecord) -> Option<&str>
    ensures { let field = field_of (fields_of columns.now) 2 in MatchOption result
        (IsUtf8 field → IsTrue (is_name field) → ⊥)
        (λ name. (field ≡ name.now) × IsUtf8 name.now × IsTrue (is_name name.now)) }
{
    let name = text_in(field(columns, NAME))?;
    is_name(name).then_some(name)
}

/// The points that a record writes.
fn points_in(columns: &ByteRecord) -> Option<u32>
    ensures { let field = field_of (fields_of columns.now) 7 in MatchOption result
        ((points : ℕ) → points ≤ 1_000 → field ≢ decimal points)
        (λ points. (field ≡ decimal points) × (points ≤ 1_000)) }
{
    let points = read_u64(field(columns, POINTS))?;
    if points > MOST_POINTS {
        return None;
    }
    Some(points as u32)
}

/// What a record writes of a pilot, where it is the row of one.
fn written_in(columns: &ByteRecord) -> Option<Written<'_>>
    ensures { MatchOption result
        ((row : DayRow) → IsRowOf (fields_of columns.now) row → ⊥)
        (λ written. IsRowOf (fields_of columns.now) (row_written written)) }
{
    if columns.len() == COLUMNS
        && let Some(number) = number_in(columns)
        && let Some(name) = name_in(columns)
        && let Some(points) = points_in(columns)
    {
        return Some(Written {
            number,
            name,
            points,
        });
    }
    None
}

/// The row that a record writes, where it writes one.
fn row_in(alloc: Global, columns: &ByteRecord) -> Result<Option<DayRow>, AllocError>
    ensures { IfOk result (λ read. MatchOption read
        ((row : DayRow) → IsRowOf (fields_of columns.now) row → ⊥)
        (IsRowOf (fields_of columns.now))) }
{
    let Some(written) = written_in(columns) else {
        return Ok(None);
    };
    Ok(Some(DayRow {
        number: Name::from_text(alloc, written.number)?,
        name: Name::from_text(alloc, written.name)?,
        points: written.points,
    }))
}

/// Whether a row fits to those before it, whose numbers are kept.
fn fits(rows: &[DayRow], numbers: &Numbers, row: &DayRow) -> bool
    requires day { IsDay rows.now }
    requires kept { HasNumbers numbers.now (map (λ row. row.number) rows.now) }
    requires low { row.now.points ≤ 1_000 }
    ensures { IsTrue result ↔ IsDay (rows.now ++ row.now ∷ []) }
{
    rows.len() < MOST_ROWS && numbers.is_new(&row.number)
}

/// The row of a record, where there is one that fits to those before it, whose numbers are kept.
fn next_row(
    alloc: Global,
    rows: &[DayRow],
    numbers: &Numbers,
    columns: &ByteRecord,
) -> Result<Option<DayRow>, AllocError>
    requires day { IsDay rows.now }
    requires kept { HasNumbers numbers.now (map (λ row. row.number) rows.now) }
    ensures { IfOk result (λ read. MatchOption read
        ((row : DayRow) → IsNextRow rows.now (fields_of columns.now) row → ⊥)
        (IsNextRow rows.now (fields_of columns.now))) }
{
    let Some(row) = row_in(alloc, columns)? else {
        return Ok(None);
    };
    if !fits(rows, numbers, &row) {
        return Ok(None);
    }
    Ok(Some(row))
}

/// Adds the row of a record behind others, and its number to theirs, where there is one that fits to
/// them; otherwise tells that the record is wrong.
fn add_row(
    alloc: Global,
    rows: &mut Vec<DayRow>,
    numbers: &mut Numbers,
    columns: &ByteRecord,
) -> Result<(), SheetError>
    requires day { IsDay rows.old.items }
    requires kept { HasNumbers numbers.old (map (λ row. row.number) rows.old.items) }
    ensures added { OnOk result
        (AddsRow (fields_of columns.now) rows.old.items rows.new.items numbers.new) }
    ensures wrong { IfErr result (IsWrongRow rows.old.items (fields_of columns.now)) }
{
    let Some(row) = next_row(alloc, rows, numbers, columns)? else {
        return Err(SheetError::Record(rows.len() as u32 + 2));
    };
    numbers.add(alloc, &row.number)?;
    rows.push(row)?;
    Ok(())
}

/// A reader at the start of a text, for which the heading is a record too, and records may have any
/// length.
fn reader_over(alloc: Global, text: &[u8]) -> Reader<&[u8]>
    ensures start { StandsBehind text.now [] result }
    ensures text { text_under result ≡ text.now }
{
    ReaderBuilder::new()
        .has_headers(false)
        .flexible(true)
        .from_reader(alloc, text)
}

/// Reads the heading of a text, or tells why the text is no sheet. Reading from memory fails for
/// want of memory alone.
fn read_heading(alloc: Global, reader: &mut Reader<&[u8]>) -> Result<(), SheetError>
    requires { StandsBehind (text_under reader.old) [] reader.old }
    ensures ok { OnOk result
        (StandsBehind (text_under reader.old) (sheet_heading ∷ []) reader.new) }
    ensures refused { IfErr result (IsRefusedSheet (text_under reader.old)) }
{
    let mut heading = ByteRecord::new(alloc);
    if !reader.read_byte_record(&mut heading)? || !is_heading(&heading) {
        return Err(SheetError::Heading);
    }
    Ok(())
}

/// Adds the row of a record as it was read, as [`add_row`] does. A record from memory that doesn't
/// read is want of memory.
fn add_record(
    alloc: Global,
    rows: &mut Vec<DayRow>,
    numbers: &mut Numbers,
    read: Result<ByteRecord, ReadError>,
) -> Result<(), SheetError>
    requires day { IsDay rows.old.items }
    requires kept { HasNumbers numbers.old (map (λ row. row.number) rows.old.items) }
    ensures added { OnOk result (MatchResult read
        (λ columns. AddsRow (fields_of columns) rows.old.items rows.new.items numbers.new)
        (λ error. ⊥)) }
    ensures wrong { IfErr result (λ told. MatchResult read
        (λ columns. IsWrongRow rows.old.items (fields_of columns) told)
        (λ error. told ≡ Memory)) }
{
    add_row(alloc, rows, numbers, &read?)
}

/// Adds the rows of the records that a reader reads, and their numbers, or tells why its text is no
/// sheet.
fn add_rows(
    alloc: Global,
    reader: &mut Reader<&[u8]>,
    rows: &mut Vec<DayRow>,
    numbers: &mut Numbers,
) -> Result<(), SheetError>
    requires start { StandsBehind (text_under reader.old) [] reader.old }
    requires none { rows.old.items ≡ [] }
    requires kept { HasNumbers numbers.old [] }
    ensures ok { OnOk result
        (IsSheetOf (text_under reader.old) (record { rows = rows.new.items })) }
    ensures refused { IfErr result (IsRefusedSheet (text_under reader.old)) }
{
    read_heading(alloc, reader)?;
    for read in reader.byte_records() {
        add_record(alloc, rows, numbers, read)?;
    }
    Ok(())
}

/// Adds the rows of a sheet, and their numbers, or tells why the text is none.
fn read_rows(
    alloc: Global,
    text: &[u8],
    rows: &mut Vec<DayRow>,
    numbers: &mut Numbers,
) -> Result<(), SheetError>
    requires none { rows.old.items ≡ [] }
    requires kept { HasNumbers numbers.old [] }
    ensures ok { OnOk result (IsSheetOf text.now (record { rows = rows.new.items })) }
    ensures refused { IfErr result (IsRefusedSheet text.now) }
{
    let mut reader = reader_over(alloc, text);
    add_rows(alloc, &mut reader, rows, numbers)
}

/// The rows of a sheet, or why the text is none.
fn sheet_in(alloc: Global, text: &[u8]) -> Result<DaySheet, SheetError>
    ensures ok { IfOk result (IsSheetOf text.now) }
    ensures refused { IfErr result (IsRefusedSheet text.now) }
{
    let mut rows = Vec::new(alloc);
    let mut numbers = Numbers::new(alloc);
    read_rows(alloc, text, &mut rows, &mut numbers)?;
    Ok(DaySheet {
        rows: Items::from_vec(rows),
    })
}

/// Reads the sheet of a day: the heading, and then a record for each pilot, at most 200, no two of
/// one number. Of a record the number, the name and the points are read; the other fields may say
/// anything.
///
/// [`SheetError::Heading`] comes exactly where the first record isn't the heading or isn't there,
/// and [`SheetError::Record`] names the first record behind it that is wrong;
/// [`SheetError::Memory`] only for want of memory.
pub fn read_day(alloc: Global, text: &[u8]) -> Result<DaySheet, SheetError>
    // What is read has this text, and what has this text is read.
    ensures ok { IfOk result (IsSheetOf text.now) }
    ensures only { (sheet : DaySheet) → IsSheetOf text.now sheet
        → MatchResult result (λ read. read ≡ sheet) (λ error. error ≡ Memory) }

    // What is told is so, and what is so is told.
    ensures refused { IfErr result (IsRefusedSheet text.now) }
    ensures exact { (error : SheetError) → error ≢ Memory → IsRefusedSheet text.now error
        → IsErrOf result error ⊎ IsErrOf result Memory }
{
    sheet_in(alloc, text)
}
