ghost use Rattle.std.specs.Prelude.{◌≡◌, ◌∷◌, ◌++◌, IfOk, OnOk, map};
ghost use Rattle.std.specs.Fmt.{decimal};
ghost use Rattle.csv.specs.Records.{fields_of};
ghost use Rattle.csv.specs.Writing.{default_writer, row_text};
ghost use Rattle.gl_series.specs.StandingText.{pilot_fields, pilot_heading, records_text, standing_text, team_fields, team_heading};

use crate::standing::{Standing, TeamTotal, Total};
use csv::{ByteRecord, Error, WriterBuilder};
use gl_text::push_u64;
use std::alloc::{AllocError, Global};

/// The digits of a number.
fn digits(alloc: Global, number: u32) -> Result<Vec<u8>, AllocError>
    ensures { IfOk result (λ text. text.items ≡ decimal number) }
{
    let mut text = Vec::new(alloc);
    push_u64(&mut text, u64::from(number))?;
    Ok(text)
}

/// The text of a record, as csv's default writer makes it.
fn written(alloc: Global, columns: &ByteRecord) -> Result<Vec<u8>, Error>
    ensures { IfOk result (λ text. text.items ≡ row_text default_writer (fields_of columns.now)) }
{
    let mut writer = WriterBuilder::new().from_writer(Vec::new(alloc));
    writer.write_byte_record(columns)?;
    match writer.into_inner() {
        Ok(text) => Ok(text),
        Err(error) => Err(error.into_error()),
    }
}

/// The text of a record. Writing into memory fails for want of memory alone.
fn record_text(alloc: Global, columns: &ByteRecord) -> Result<Vec<u8>, AllocError>
    ensures { IfOk result (λ text. text.items ≡ row_text default_writer (fields_of columns.now)) }
{
    match written(alloc, columns) {
        Ok(text) => Ok(text),
        Err(_) => Err(AllocError),
    }
}

/// The record of a pilot.
fn pilot_record(alloc: Global, pilot: &Total) -> Result<ByteRecord, AllocError>
    ensures { IfOk result (λ columns. fields_of columns ≡ pilot_fields pilot.now) }
{
    let rank = digits(alloc, pilot.rank)?;
    let total = digits(alloc, pilot.total)?;
    let dropped = digits(alloc, pilot.dropped)?;
    ByteRecord::from_fields(
        alloc,
        &[
            &rank,
            pilot.number.as_str().as_bytes(),
            pilot.name.as_str().as_bytes(),
            &total,
            &dropped,
        ],
    )
}

/// The record of a team.
fn team_record(alloc: Global, team: &TeamTotal) -> Result<ByteRecord, AllocError>
    ensures { IfOk result (λ columns. fields_of columns ≡ team_fields team.now) }
{
    let rank = digits(alloc, team.rank)?;
    let total = digits(alloc, team.total)?;
    ByteRecord::from_fields(alloc, &[&rank, team.team.as_str().as_bytes(), &total])
}

/// Adds the text of a record.
fn push_record(alloc: Global, text: &mut Vec<u8>, columns: &ByteRecord) -> Result<(), AllocError>
    ensures { OnOk result (text.new.items
        ≡ text.old.items ++ row_text default_writer (fields_of columns.now)) }
{
    text.extend_from_slice(&record_text(alloc, columns)?)?;
    Ok(())
}

/// The text of the heading of the pilots.
fn pilots_heading(alloc: Global) -> Result<Vec<u8>, AllocError>
    ensures { IfOk result (λ text. text.items ≡ row_text default_writer pilot_heading) }
{
    let heading = ByteRecord::from_fields(
        alloc,
        &[b"rank", b"number", b"name", b"total", b"dropped"],
    )?;
    record_text(alloc, &heading)
}

/// The text of the heading of the teams.
fn teams_heading(alloc: Global) -> Result<Vec<u8>, AllocError>
    ensures { IfOk result (λ text. text.items ≡ row_text default_writer team_heading) }
{
    let heading = ByteRecord::from_fields(alloc, &[b"rank", b"team", b"total"])?;
    record_text(alloc, &heading)
}

/// The text of the pilots.
fn pilots_text(alloc: Global, pilots: &[Total]) -> Result<Vec<u8>, AllocError>
    ensures { IfOk result (λ text.
        text.items ≡ records_text (pilot_heading ∷ map pilot_fields pilots.now)) }
{
    let mut text = pilots_heading(alloc)?;
    for pilot in pilots {
        push_record(alloc, &mut text, &pilot_record(alloc, pilot)?)?;
    }
    Ok(text)
}

/// The text of the teams.
fn teams_text(alloc: Global, teams: &[TeamTotal]) -> Result<Vec<u8>, AllocError>
    ensures { IfOk result (λ text.
        text.items ≡ records_text (team_heading ∷ map team_fields teams.now)) }
{
    let mut text = teams_heading(alloc)?;
    for team in teams {
        push_record(alloc, &mut text, &team_record(alloc, team)?)?;
    }
    Ok(text)
}

/// The standing as text: a record for each pilot and, exactly where there is a team, a record for
/// each team, each part under its heading. The only error is want of memory.
pub fn series_text(alloc: Global, standing: &Standing) -> Result<Vec<u8>, AllocError>
    ensures { IfOk result (λ text. text.items ≡ standing_text standing.now) }
{
    let mut text = pilots_text(alloc, standing.pilots.as_slice())?;
    if !standing.teams.is_empty() {
        text.extend_from_slice(&teams_text(alloc, standing.teams.as_slice())?)?;
    }
    Ok(text)
}
