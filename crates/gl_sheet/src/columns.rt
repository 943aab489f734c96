ghost use Rattle.std.specs.Prelude.{◌≡◌, IfOk, OnOk, ◌++◌, [], ◌∷◌};
ghost use Rattle.std.specs.Fmt.{decimal};
ghost use Rattle.csv.specs.Records.{fields_of, partial_of};
ghost use Rattle.gl_sheet.specs.Columns.{flight_fields, list_fields, listed_text, metres_shown, point_fields, result_text, seconds_text, standing_fields};

use crate::row::{Listed, Outcome, Row};
use csv::ByteRecord;
use gl_task::Entrant;
use gl_text::{push_fixed, push_u64};
use std::alloc::{AllocError, Global};

/// The digits of a number.
fn digits(alloc: Global, number: u32) -> Result<Vec<u8>, AllocError>
    ensures { IfOk result (λ text. text.items ≡ decimal number) }
{
    let mut text = Vec::new(alloc);
    push_u64(&mut text, u64::from(number))?;
    Ok(text)
}

/// The field `result`.
fn result_field(alloc: Global, outcome: Outcome) -> Result<Vec<u8>, AllocError>
    ensures { IfOk result (λ text. text.items ≡ result_text outcome) }
{
    match outcome {
        Outcome::Finished => Vec::from_slice(alloc, b"FINISHED"),
        Outcome::Outlanded => Vec::from_slice(alloc, b"OUTLANDED"),
        Outcome::NoStart => Vec::from_slice(alloc, b"NOSTART"),
        Outcome::NotLaunched => Vec::from_slice(alloc, b"NOTLAUNCHED"),
        Outcome::Refused(number) => {
            let mut text = Vec::from_slice(alloc, b"REFUSED ")?;
            push_u64(&mut text, u64::from(number))?;
            Ok(text)
        }
    }
}

/// The field `metres`.
fn metres_field(alloc: Global, outcome: Outcome, metres: u32) -> Result<Vec<u8>, AllocError>
    ensures { IfOk result (λ text. text.items ≡ decimal (metres_shown outcome metres)) }
{
    match outcome {
        Outcome::Finished | Outcome::Outlanded => digits(alloc, metres),
        Outcome::NoStart | Outcome::NotLaunched | Outcome::Refused(_) => digits(alloc, 0),
    }
}

/// The field `seconds`.
fn seconds_field(alloc: Global, outcome: Outcome, seconds: u32) -> Result<Vec<u8>, AllocError>
    ensures { IfOk result (λ text. text.items ≡ seconds_text outcome seconds) }
{
    match outcome {
        Outcome::Finished => digits(alloc, seconds),
        Outcome::Outlanded | Outcome::NoStart | Outcome::NotLaunched | Outcome::Refused(_) => {
            Ok(Vec::new(alloc))
        }
    }
}

/// The field of a list.
fn list_field(alloc: Global, list: Listed) -> Result<Vec<u8>, AllocError>
    ensures { IfOk result (λ text. text.items ≡ listed_text list) }
{
    match list {
        Listed::Unasked => Ok(Vec::new(alloc)),
        Listed::Empty => Vec::from_slice(alloc, b"-"),
        Listed::Total(centimetres) => {
            let mut text = Vec::new(alloc);
            push_fixed(&mut text, centimetres, 2)?;
            Ok(text)
        }
    }
}

/// Appends rank, number and name.
pub(crate) fn push_standing(
    alloc: Global,
    line: &mut ByteRecord,
    rank: u32,
    entrant: &Entrant,
) -> Result<(), AllocError>
    requires { partial_of line.old ≡ [] }
    ensures fields { OnOk result
        (fields_of line.new ≡ fields_of line.old ++ standing_fields rank entrant.now) }
    ensures partial { OnOk result (partial_of line.new ≡ []) }
{
    line.push_field(&digits(alloc, rank)?)?;
    line.push_field(entrant.number.as_str().as_bytes())?;
    line.push_field(entrant.name.as_str().as_bytes())?;
    Ok(())
}

/// Appends result, metres and seconds.
pub(crate) fn push_flight(alloc: Global, line: &mut ByteRecord, row: &Row) -> Result<(), AllocError>
    requires { partial_of line.old ≡ [] }
    ensures fields { OnOk result
        (fields_of line.new ≡ fields_of line.old ++ flight_fields row.now) }
    ensures partial { OnOk result (partial_of line.new ≡ []) }
{
    line.push_field(&result_field(alloc, row.outcome)?)?;
    line.push_field(&metres_field(alloc, row.outcome, row.metres)?)?;
    line.push_field(&seconds_field(alloc, row.outcome, row.seconds)?)?;
    Ok(())
}

/// Appends penalty and points.
pub(crate) fn push_points(alloc: Global, line: &mut ByteRecord, row: &Row) -> Result<(), AllocError>
    requires { partial_of line.old ≡ [] }
    ensures fields { OnOk result (fields_of line.new ≡ fields_of line.old ++ point_fields row.now) }
    ensures partial { OnOk result (partial_of line.new ≡ []) }
{
    line.push_field(&digits(alloc, row.penalty)?)?;
    line.push_field(&digits(alloc, row.points)?)?;
    Ok(())
}

/// Appends the two list columns.
pub(crate) fn push_lists(alloc: Global, line: &mut ByteRecord, row: &Row) -> Result<(), AllocError>
    requires { partial_of line.old ≡ [] }
    ensures fields { OnOk result (fields_of line.new ≡ fields_of line.old ++ list_fields row.now) }
    ensures partial { OnOk result (partial_of line.new ≡ []) }
{
    line.push_field(&list_field(alloc, row.free)?)?;
    line.push_field(&list_field(alloc, row.triangle)?)?;
    Ok(())
}
