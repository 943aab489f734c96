ghost use Rattle.std.specs.Prelude.{◌≡◌, ◌≢◌, ◌≤◌, All, Contains, IfOk, MatchOption, length, map};
ghost use Rattle.std.specs.List.Sorted.{IsPermutation, IsSorted};
ghost use Rattle.gl_series.specs.Choices.{points_on};
ghost use Rattle.gl_series.specs.Code.Tallies.{AreOrdered, IsOrdered, has_number, text_cmp};
ghost use Rattle.gl_series.specs.Totals.{AreDays, IsDay};

use crate::day::{DayRow, DaySheet};
use gl_desk::Name;
use std::alloc::{AllocError, Global};

/// A day with its rows in the order of their numbers.
#[derive(Drop)]
pub(crate) struct Ordered<'a> {
    pub day: &'a DaySheet,
    pub rows: Vec<&'a DayRow>,
}

/// The rows of a day.
fn rows_of<'a>(alloc: Global, day: &'a [DayRow]) -> Result<Vec<&'a DayRow>, AllocError>
    ensures { IfOk result (λ rows. map (λ row. row.now) rows.items ≡ day.now) }
{
    let mut rows = Vec::new(alloc);
    for row in day {
        rows.push(row)?;
    }
    Ok(rows)
}

/// Puts rows in the order of their numbers.
fn sort(rows: &mut [&DayRow])
    ensures all { IsPermutation rows.old rows.new }
    ensures sorted { IsSorted (λ one other. text_cmp one.now.number other.now.number) rows.new }
{
    rows.sort_unstable_by(|a, b| a.number.cmp(&b.number));
}

/// A day with its rows in the order of their numbers.
fn in_order<'a>(alloc: Global, day: &'a DaySheet) -> Result<Ordered<'a>, AllocError>
    requires { IsDay day.now.rows }
    ensures day { IfOk result (λ ordered. ordered.day.now ≡ day.now) }
    ensures ordered { IfOk result IsOrdered }
{
    let mut rows = rows_of(alloc, day.rows.as_slice())?;
    sort(&mut rows);
    Ok(Ordered { day, rows })
}

/// Days, each with its rows in the order of their numbers.
pub(crate) fn days_ordered<'a>(
    alloc: Global,
    days: &'a [DaySheet],
) -> Result<Vec<Ordered<'a>>, AllocError>
    requires { AreDays days.now }
    ensures { IfOk result (λ ordered. AreOrdered days.now ordered.items) }
{
    let mut all = Vec::new(alloc);
    for day in days {
        all.push(in_order(alloc, day)?)?;
    }
    Ok(all)
}

/// The row with a number, where the day has one.
fn row_beside<'a>(day: &Ordered<'a>, number: &Name) -> Option<&'a DayRow>
    requires { IsOrdered day.now }
    ensures { let rows = day.now.day.now.rows in MatchOption result
        (All (λ row. row.number ≢ number.now) rows)
        (λ row. Contains rows row.now × (row.now.number ≡ number.now)) }
{
    match day.rows.binary_search_by(|row| row.number.cmp(number)) {
        Ok(place) => Some(day.rows[place]),
        Err(_) => None,
    }
}

/// Whether a day has a number.
pub(crate) fn has_number(day: &Ordered, number: &Name) -> bool
    requires { IsOrdered day.now }
    ensures { result ≡ has_number number.now day.now.day.now.rows }
{
    row_beside(day, number).is_some()
}

/// The points beside a number, 0 where the day hasn't it.
pub(crate) fn points_in(day: &Ordered, number: &Name) -> u32
    requires { IsOrdered day.now }
    ensures value { result ≡ points_on number.now day.now.day.now }
    ensures low { result ≤ 1_000 }
{
    match row_beside(day, number) {
        Some(row) => row.points,
        None => 0,
    }
}
