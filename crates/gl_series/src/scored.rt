ghost use Rattle.std.specs.Prelude.{◌≡◌, ◌≤◌, All, IfOk, length, sum_by};
ghost use Rattle.std.specs.List.Sorted.{IsNonDecreasingBy, IsPermutation};
ghost use Rattle.gl_series.specs.Code.Tallies.{AreInOrder, AreScored, IsOrdered, IsTally, days_of};

use crate::day::DaySheet;
use crate::ordered::{Ordered, points_in};
use gl_desk::Name;
use std::alloc::{AllocError, Global};

/// A day with a pilot's points.
#[derive(Clone, Copy)]
pub(crate) struct Scored<'a> {
    pub day: &'a DaySheet,
    pub points: u32,
}

/// A pilot's total, and the points that were left out.
#[derive(Clone, Copy)]
pub(crate) struct Sums {
    pub total: u32,
    pub dropped: u32,
}

/// The days with a pilot's points.
fn days_scored<'a>(
    alloc: Global,
    days: &[Ordered<'a>],
    number: &Name,
) -> Result<Vec<Scored<'a>>, AllocError>
    requires { All IsOrdered days.now }
    ensures { IfOk result (λ scored. AreScored number.now (days_of days.now) scored.items) }
{
    let mut scored = Vec::new(alloc);
    for day in days {
        scored.push(Scored {
            day: day.day,
            points: points_in(day, number),
        })?;
    }
    Ok(scored)
}

/// Puts days in the order of their points, the least first.
fn sort(scored: &mut [Scored])
    ensures all { IsPermutation scored.old scored.new }
    ensures sorted { IsNonDecreasingBy (λ one. one.points) scored.new }
{
    scored.sort_unstable_by(|a, b| a.points.cmp(&b.points));
}

/// The days with a pilot's points, in the order of the points.
fn in_order<'a>(
    alloc: Global,
    days: &[Ordered<'a>],
    number: &Name,
) -> Result<Vec<Scored<'a>>, AllocError>
    requires { All IsOrdered days.now }
    ensures { IfOk result (λ scored. AreInOrder number.now (days_of days.now) scored.items) }
{
    let mut scored = days_scored(alloc, days, number)?;
    sort(&mut scored);
    Ok(scored)
}

/// The sum of the points of some days.
fn sum(scored: &[Scored]) -> u32
    requires few { length scored.now ≤ 30 }
    requires low { All (λ one. one.points ≤ 1_000) scored.now }
    ensures value { result ≡ sum_by (λ one. one.points) scored.now }
    ensures low { result ≤ 30_000 }
{
    let mut sum = 0;
    for one in scored {
        sum += one.points;
    }
    sum
}

/// The total of a pilot where so many days are left out: those of the least points.
pub(crate) fn sums_of(
    alloc: Global,
    days: &[Ordered],
    number: &Name,
    drop: u32,
) -> Result<Sums, AllocError>
    requires few { length (days_of days.now) ≤ 30 }
    requires ordered { All IsOrdered days.now }
    ensures tally { IfOk result (λ sums.
        IsTally (days_of days.now) drop number.now sums.total sums.dropped) }
    ensures low { IfOk result (λ sums. sums.total ≤ 30_000) }
{
    let scored = in_order(alloc, days, number)?;
    let cut = scored.len().min(drop as usize);
    let (left, counted) = scored.split_at(cut);
    Ok(Sums {
        total: sum(counted),
        dropped: sum(left),
    })
}
