ghost use Rattle.std.specs.Prelude.{◌≡◌, ◌≤◌, ◌++◌, All, IfOk, OnOk, length, map, filter, not};
ghost use Rattle.std.specs.List.Sorted.{IsNonDecreasing, IsPermutation, IsSorted};
ghost use Rattle.gl_series.specs.Code.Tallies.{AreRanked, AreTallies, AreTotals, IsOrdered, days_of, is_in_days, last_rows, pilot_of, total_of_tally};
ghost use Rattle.gl_series.specs.Totals.{AreDays, ArePilots, pilot_cmp};

use crate::day::{DayRow, DaySheet};
use crate::ordered::{Ordered, days_ordered, has_number};
use crate::ranks;
use crate::scored::sums_of;
use crate::standing::Total;
use gl_desk::Name;
use std::alloc::{AllocError, Global};
use std::cmp::Ordering;

/// A pilot's row of the last day that has the pilot, with the total and what was left out.
#[derive(Clone, Copy)]
pub(crate) struct Tally<'a> {
    pub row: &'a DayRow,
    pub total: u32,
    pub dropped: u32,
}

/// Whether a number stands in one of some days.
fn is_in_days(days: &[Ordered], number: &Name) -> bool
    requires { All IsOrdered days.now }
    ensures { result ≡ is_in_days number.now (days_of days.now) }
{
    for day in days {
        if has_number(day, number) {
            return true;
        }
    }
    false
}

/// Adds the rows of a day whose numbers no later day has.
fn push_last<'a>(
    rows: &mut Vec<&'a DayRow>,
    day: &'a [DayRow],
    later: &[Ordered],
) -> Result<(), AllocError>
    requires { All IsOrdered later.now }
    ensures { OnOk result (map (λ row. row.now) rows.new.items
        ≡ map (λ row. row.now) rows.old.items
        ++ filter (λ row. not (is_in_days row.number (days_of later.now))) day.now) }
{
    for row in day {
        if !is_in_days(later, &row.number) {
            rows.push(row)?;
        }
    }
    Ok(())
}

/// The rows whose numbers no later day has: one for each pilot.
fn last_rows<'a>(alloc: Global, days: &[Ordered<'a>]) -> Result<Vec<&'a DayRow>, AllocError>
    requires { All IsOrdered days.now }
    ensures { IfOk result (λ rows.
        map (λ row. row.now) rows.items ≡ last_rows (days_of days.now)) }
{
    let mut rows = Vec::new(alloc);
    for (place, day) in days.iter().enumerate() {
        push_last(&mut rows, day.day.rows.as_slice(), &days[place + 1..])?;
    }
    Ok(rows)
}

/// The tallies of the pilots of some rows.
fn tallies_of<'a>(
    alloc: Global,
    days: &[Ordered],
    rows: &[&'a DayRow],
    drop: u32,
) -> Result<Vec<Tally<'a>>, AllocError>
    requires few { length (days_of days.now) ≤ 30 }
    requires ordered { All IsOrdered days.now }
    ensures { IfOk result (λ tallies.
        AreTotals (days_of days.now) (map (λ row. row.now) rows.now) drop tallies.items) }
{
    let mut tallies = Vec::new(alloc);
    for &row in rows {
        let sums = sums_of(alloc, days, &row.number, drop)?;
        tallies.push(Tally {
            row,
            total: sums.total,
            dropped: sums.dropped,
        })?;
    }
    Ok(tallies)
}

/// The tallies of all pilots.
fn tallies<'a>(alloc: Global, days: &'a [DaySheet], drop: u32) -> Result<Vec<Tally<'a>>, AllocError>
    requires { AreDays days.now }
    ensures { IfOk result (λ tallies. AreTallies days.now drop tallies.items) }
{
    let ordered = days_ordered(alloc, days)?;
    let rows = last_rows(alloc, &ordered)?;
    tallies_of(alloc, &ordered, &rows, drop)
}

/// The totals of some tallies.
fn totals_of(alloc: Global, tallies: &[Tally]) -> Result<Vec<u32>, AllocError>
    ensures { IfOk result (λ totals. totals.items ≡ map total_of_tally tallies.now) }
{
    let mut totals = Vec::new(alloc);
    for tally in tallies {
        totals.push(tally.total)?;
    }
    Ok(totals)
}

/// The totals of some tallies in their order, the least first.
fn totals_in_order(alloc: Global, tallies: &[Tally]) -> Result<Vec<u32>, AllocError>
    ensures all { IfOk result (λ totals.
        IsPermutation (map total_of_tally tallies.now) totals.items) }
    ensures sorted { IfOk result (λ totals. IsNonDecreasing totals.items) }
{
    let mut totals = totals_of(alloc, tallies)?;
    ranks::sort(&mut totals);
    Ok(totals)
}

/// A pilot among all totals.
fn pilot(alloc: Global, totals: &[u32], tally: &Tally) -> Result<Total, AllocError>
    requires few { length totals.now ≤ 6_000 }
    requires sorted { IsNonDecreasing totals.now }
    ensures { IfOk result (λ pilot. pilot ≡ pilot_of totals.now tally.now) }
{
    Ok(Total {
        rank: ranks::rank(totals, tally.total),
        number: Name::from_text(alloc, tally.row.number.as_str())?,
        name: Name::from_text(alloc, tally.row.name.as_str())?,
        total: tally.total,
        dropped: tally.dropped,
    })
}

/// The pilots, in the order of the tallies.
fn ranked(alloc: Global, totals: &[u32], tallies: &[Tally]) -> Result<Vec<Total>, AllocError>
    requires few { length totals.now ≤ 6_000 }
    requires sorted { IsNonDecreasing totals.now }
    ensures { IfOk result (λ pilots. pilots.items ≡ map (pilot_of totals.now) tallies.now) }
{
    let mut pilots = Vec::new(alloc);
    for tally in tallies {
        pilots.push(pilot(alloc, totals, tally)?)?;
    }
    Ok(pilots)
}

/// How two pilots stand: by total, the greater first, and at equal totals by the bytes of the
/// number.
fn compare(a: &Total, b: &Total) -> Ordering
    ensures { result ≡ pilot_cmp a.now b.now }
{
    let by_total = b.total.cmp(&a.total);
    by_total.then(a.number.cmp(&b.number))
}

/// Puts pilots in their order.
fn sort(pilots: &mut [Total])
    ensures all { IsPermutation pilots.old pilots.new }
    ensures sorted { IsSorted pilot_cmp pilots.new }
{
    pilots.sort_unstable_by(|a, b| compare(a, b));
}

/// The pilots of some tallies, in their order.
fn in_order(alloc: Global, tallies: &[Tally]) -> Result<Vec<Total>, AllocError>
    requires { length tallies.now ≤ 6_000 }
    ensures { IfOk result (λ pilots. AreRanked tallies.now pilots.items) }
{
    let totals = totals_in_order(alloc, tallies)?;
    let mut pilots = ranked(alloc, &totals, tallies)?;
    sort(&mut pilots);
    Ok(pilots)
}

/// The pilots of some days, in their order.
pub(crate) fn pilots(alloc: Global, days: &[DaySheet], drop: u32) -> Result<Vec<Total>, AllocError>
    requires { AreDays days.now }
    ensures pilots { IfOk result (λ pilots. ArePilots days.now drop pilots.items) }
    ensures low { IfOk result (λ pilots. All (λ pilot. pilot.total ≤ 30_000) pilots.items) }
{
    let tallies = tallies(alloc, days, drop)?;
    in_order(alloc, &tallies)
}
