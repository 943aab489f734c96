ghost use Rattle.std.specs.Prelude.{◌≡◌, ◌≢◌, ◌++◌, None, Some, [], IfErr, IfOk, OnOk, option_map};
ghost use Rattle.std.specs.List.{find, flat_map, list_any};
ghost use Rattle.gl_cup.specs.declared.error.CupError.TheVariants.{Memory};
ghost use Rattle.gl_cup.specs.Detail.{detail_of, fault_of, first_fault, is_again, is_beyond, is_misplaced, is_zone_of, key_fault};
ghost use Rattle.gl_cup.specs.Detail.{keys_of, options_among, options_said, passed_among, passed_in, said_by, zone_at, zone_in};

use crate::choice::{begins_with, is_headed};
use crate::error::CupError;
use crate::field::Field;
use crate::pair::{Keys, PassedKey, are_once, foreign_key, push_all_passed};
use crate::row::Row;
use crate::zone::{ObsZone, Options, read_options, read_zone};
use std::alloc::{AllocError, Global};

/// A row below a task.
#[derive(Clone, Copy, Debug, PartialEq, Eq)]
enum Detail {
    Options(Options),
    Zone(ObsZone),
    /// A row that says nothing of the task.
    Nothing,
}

/// Which keys the fields of a row below a task may have, by the first one.
fn keys_of(fields: &[Field]) -> Keys
    ensures { result ≡ keys_of fields.now }
{
    if is_headed(fields, b"Options") {
        Keys::Options
    } else if begins_with(fields, b"ObsZone=") {
        Keys::Zone
    } else if begins_with(fields, b"Version=") {
        Keys::Any
    } else {
        Keys::None
    }
}

/// What the fields of a row say.
fn said_by(keys: Keys, fields: &[Field]) -> Option<Detail>
    ensures { result ≡ said_by keys fields.now }
{
    match keys {
        Keys::Options => Some(Detail::Options(read_options(fields)?)),
        Keys::Zone => Some(Detail::Zone(read_zone(fields)?)),
        Keys::Any => Some(Detail::Nothing),
        Keys::None => None,
    }
}

/// What a row below a task says, if it reads, and no key comes twice.
#[tactic(auto, unfolding(crate::specs::Detail::detail_of))]
fn detail_of(row: &Row) -> Option<Detail>
    ensures { result ≡ detail_of row.now }
{
    let fields = row.fields.as_slice();
    if are_once(fields) {
        said_by(keys_of(fields), fields)
    } else {
        None
    }
}

/// The zone that a detail says, if it says one.
fn zone_in(detail: Option<Detail>) -> Option<ObsZone>
    ensures { result ≡ zone_in detail }
{
    match detail {
        Some(Detail::Zone(zone)) => Some(zone),
        _ => None,
    }
}

/// Whether two details say the same thing: both the options, or both the zone of one point.
fn is_again(one: Detail, other: Option<Detail>) -> bool
    ensures { result ≡ is_again one other }
{
    match (one, other) {
        (Detail::Options(_), Some(Detail::Options(_))) => true,
        (Detail::Zone(a), Some(Detail::Zone(b))) => a.point == b.point,
        _ => false,
    }
}

/// Whether a detail is the zone of no point, where there are so many.
fn is_beyond(points: u64, detail: Detail) -> bool
    ensures { result ≡ is_beyond points detail }
{
    match detail {
        Detail::Zone(zone) => zone.point >= points,
        _ => false,
    }
}

/// Whether one of some rows says what a detail says.
fn is_said(detail: Detail, rows: &[Row]) -> bool
    ensures { result ≡ list_any (λ row. is_again detail (detail_of row)) rows.now }
{
    rows.iter().any(|row| is_again(detail, detail_of(row)))
}

/// Whether a row doesn't read, is of no point, or says what one before it says.
fn is_misplaced(points: u64, before: &[Row], detail: Option<Detail>) -> bool
    ensures { result ≡ is_misplaced points before.now detail }
{
    match detail {
        Some(detail) => is_beyond(points, detail) || is_said(detail, before),
        None => true,
    }
}

/// That a row has a key which its line can't have, if it does.
fn key_fault(alloc: Global, row: &Row) -> Result<Option<CupError>, AllocError>
    ensures { IfOk result (λ fault. fault ≡ key_fault row.now) }
{
    let fields = row.fields.as_slice();
    match foreign_key(keys_of(fields), fields) {
        Some(key) => Ok(Some(CupError::Key(row.line, Field::from_slice(alloc, key)?))),
        None => Ok(None),
    }
}

/// What is wrong with a row below a task of so many points, behind others.
#[tactic(auto, unfolding(crate::specs::Detail::fault_of))]
fn fault_of(
    alloc: Global,
    points: u64,
    before: &[Row],
    row: &Row,
) -> Result<Option<CupError>, AllocError>
    ensures { IfOk result (λ fault. fault ≡ fault_of points before.now row.now) }
{
    if let Some(fault) = key_fault(alloc, row)? {
        return Ok(Some(fault));
    }
    if is_misplaced(points, before, detail_of(row)) {
        Ok(Some(CupError::Detail(row.line)))
    } else {
        Ok(None)
    }
}

/// Tests that each row has known keys, reads, is of one of so many points, and says what none
/// before it says.
pub fn test_details(alloc: Global, rows: &[Row], points: u64) -> Result<(), CupError>
    ensures ok { OnOk result (first_fault points [] rows.now ≡ None) }
    ensures refused { IfErr result (λ e. e ≢ Memory
        → first_fault points [] rows.now ≡ Some e) }
{
    'rows: for (n, row) in rows.iter().enumerate() {
        if let Some(fault) = fault_of(alloc, points, &rows[..n], row)? {
            return Err(fault);
        }
    }
    Ok(())
}

/// The options that a detail says, if it says some.
fn options_said(detail: Option<Detail>) -> Option<Options>
    ensures { result ≡ options_said detail }
{
    match detail {
        Some(Detail::Options(options)) => Some(options),
        _ => None,
    }
}

/// The options among the rows, if there are some.
pub fn options_among(rows: &[Row]) -> Options
    ensures { result ≡ options_among rows.now }
{
    let mut rest = rows;
    'rows: while let Some((row, others)) = rest.split_first() {
        if let Some(options) = options_said(detail_of(row)) {
            return options;
        }
        rest = others;
    }
    Options {
        opens: None,
        time: None,
    }
}

/// Whether a row says the zone of a point.
fn is_zone_of(point: u64, row: &Row) -> bool
    ensures { result ≡ is_zone_of point (zone_in (detail_of row.now)) }
{
    match zone_in(detail_of(row)) {
        Some(zone) => zone.point == point,
        None => false,
    }
}

/// The first row that says the zone of a point.
fn row_of(rows: &[Row], point: u64) -> Option<&Row>
    ensures { option_map (λ row. row.now) result
        ≡ find (λ row. is_zone_of point (zone_in (detail_of row))) rows.now }
{
    rows.iter().find(|row| is_zone_of(point, row))
}

/// The zone of a point among the rows, and its line.
#[tactic(auto, unfolding(crate::specs::Detail::zone_at))]
pub fn zone_at(rows: &[Row], point: u64) -> Option<(ObsZone, u64)>
    ensures { result ≡ zone_at rows.now point }
{
    let row = row_of(rows, point)?;
    let zone = zone_in(detail_of(row))?;
    Some((zone, row.line))
}

/// Appends the keys of a row that are passed over.
fn push_passed_in(alloc: Global, passed: &mut Vec<PassedKey>, row: &Row) -> Result<(), AllocError>
    ensures { OnOk result (passed.new.items ≡ passed.old.items ++ passed_in row.now) }
{
    let fields = row.fields.as_slice();
    push_all_passed(alloc, passed, keys_of(fields), row.line, fields)
}

/// The keys of the rows below a task that are passed over.
pub fn passed_among(alloc: Global, rows: &[Row]) -> Result<Vec<PassedKey>, AllocError>
    ensures { IfOk result (λ passed. passed.items ≡ passed_among rows.now) }
{
    let mut passed = Vec::new(alloc);
    'rows: for row in rows {
        push_passed_in(alloc, &mut passed, row)?;
    }
    Ok(passed)
}
