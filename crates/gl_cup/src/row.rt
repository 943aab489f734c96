ghost use Rattle.std.specs.Prelude.{◌≡◌, Some, None, [], IfOk, OnOk, option_map, ◌++◌};
ghost use Rattle.std.specs.List.{find};
ghost use Rattle.csv.specs.Machine.{next_record};
ghost use Rattle.csv.specs.Reading.{default_config, strip_bom};
ghost use Rattle.csv.specs.Records.{fields_of};
ghost use Rattle.csv.specs.declared.parser.State.TheVariants as st;
ghost use Rattle.gl_cup.specs.Row.{fields_of_line, has_return, is_broken, is_whole, is_wide, quotes_match, row_at, row_of, rows_of};

use crate::field::Field;
use csv::{ByteRecord, Error, ReaderBuilder};
use gl_text::{Items, next_line};
use std::alloc::{AllocError, Global};

/// A line that isn't empty: its number, from 1, its fields, and whether its quotes match and no CR
/// stands in it.
#[derive(Debug, Drop)]
pub struct Row {
    pub line: u64,
    pub fields: Items<Field>,
    pub is_whole: bool,
}

/// Whether the quotes of a line are even in number.
fn quotes_match(line: &[u8]) -> bool
    ensures { result ≡ quotes_match line.now }
{
    let quotes = line.iter().filter(|byte| **byte == b'"').count();
    quotes % 2 == 0
}

/// Whether a CR stands in a line.
fn has_return(line: &[u8]) -> bool
    ensures { result ≡ has_return line.now }
{
    line.iter().any(|byte| *byte == b'\r')
}

/// Whether the quotes of a line match, and no CR stands in it.
#[tactic(auto, unfolding(crate::specs::Row::is_whole))]
fn is_whole(line: &[u8]) -> bool
    ensures { result ≡ is_whole line.now }
{
    quotes_match(line) && !has_return(line)
}

/// The record of a line, if it has one.
fn record_of(alloc: Global, line: &[u8]) -> Result<Option<ByteRecord>, Error>
    ensures { IfOk result (λ found. option_map fields_of found
        ≡ option_map (λ read. read.0)
        (next_record default_config st.StartRecord [] [] (strip_bom line.now))) }
{
    let mut reader = ReaderBuilder::new()
        .has_headers(false)
        .from_reader(alloc, line);
    let mut record = ByteRecord::new(alloc);
    if reader.read_byte_record(&mut record)? {
        Ok(Some(record))
    } else {
        Ok(None)
    }
}

/// The fields of a record.
fn fields_of(alloc: Global, row: &ByteRecord) -> Result<Vec<Field>, AllocError>
    ensures { IfOk result (λ fields. fields.items ≡ fields_of row.now) }
{
    let mut fields = Vec::new(alloc);
    let mut n = 0;
    'fields: while let Some(bytes) = row.get(n) {
        fields.push(Field::from_slice(alloc, bytes)?)?;
        n += 1;
    }
    Ok(fields)
}

/// The fields of a line.
fn read_fields(alloc: Global, line: &[u8]) -> Result<Vec<Field>, AllocError>
    ensures { IfOk result (λ fields. fields.items ≡ fields_of_line line.now) }
{
    match record_of(alloc, line) {
        Ok(Some(record)) => fields_of(alloc, &record),
        Ok(None) => Ok(Vec::new(alloc)),
        Err(_) => Err(AllocError),
    }
}

/// The row of a line.
fn read_row(alloc: Global, line: &[u8], number: u64) -> Result<Row, AllocError>
    ensures { IfOk result (λ row. row ≡ row_of number line.now) }
{
    Ok(Row {
        line: number,
        fields: Items::from_vec(read_fields(alloc, line)?),
        is_whole: is_whole(line),
    })
}

/// Takes the row of a line, unless the line is empty.
fn take_line(alloc: Global, rows: &mut Vec<Row>, line: &[u8], number: u64) -> Result<(), AllocError>
    ensures { OnOk result (rows.new.items ≡ rows.old.items ++ row_at number line.now) }
{
    if line.is_empty() {
        return Ok(());
    }
    rows.push(read_row(alloc, line, number)?)?;
    Ok(())
}

/// The rows of a text: its lines that aren't empty.
pub fn read_rows(alloc: Global, text: &[u8]) -> Result<Vec<Row>, AllocError>
    ensures { IfOk result (λ rows. rows.items ≡ rows_of text.now) }
{
    let mut rows = Vec::new(alloc);
    let mut number = 0;
    let mut at = 0;
    'lines: while let Some(line) = next_line(text, at) {
        number += 1;
        take_line(alloc, &mut rows, &text[line.from..line.to], number)?;
        at = line.next;
    }
    Ok(rows)
}

/// The first of some rows that isn't whole.
pub fn first_broken(rows: &[Row]) -> Option<&Row>
    ensures { option_map (λ row. row.now) result ≡ find is_broken rows.now }
{
    rows.iter().find(|row| !row.is_whole)
}

/// Whether a text is in UTF-16: it begins with its mark, or one of its first two bytes is 0.
#[tactic(auto, unfolding(crate::specs::Row::is_wide))]
pub fn is_wide(text: &[u8]) -> bool
    ensures { result ≡ is_wide text.now }
{
    match text {
        [first, second, ..] => {
            *first == 0
                || *second == 0
                || (*first == 255 && *second == 254)
                || (*first == 254 && *second == 255)
        }
        _ => false,
    }
}
