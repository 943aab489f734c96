ghost use Rattle.std.specs.Prelude.{◌≡◌, ◌+◌, ◌<◌, ◌≤◌, [], ◌∷◌, ◌++◌, pos, neg_ℤ, ◌+ℤ◌, ◌-ℤ◌, ◌<ℤ◌, ◌≤ℤ◌, length, sum_by, OnOk};
ghost use Rattle.gl_goal.specs.FreeGoal.{rule_of};
ghost use Rattle.gl_free.specs.Code.Places.{altitude_at};
ghost use Rattle.gl_free.specs.Code.Ranges.{AreLeft, IsSplit, turns_of};
ghost use Rattle.gl_free.specs.Code.Search.{AreFlanks, IsValid};

use crate::altitudes::Altitudes;
use crate::pair::Pair;
use crate::search::Search;
use gl_goal::{FreeGoal, Hulls};
use std::alloc::{AllocError, Global};

/// An altitude halfway between two.
fn halfway(low: i32, high: i32) -> i32
    requires order { low ≤ℤ high }
    requires above { neg_ℤ (pos 9_999) ≤ℤ low }
    requires below { high ≤ℤ pos 32_767 }
    ensures not_below { low ≤ℤ result }
    ensures not_above { result ≤ℤ high }
{
    low + ((high - low) as u32 / 2) as i32
}

/// Splits a range into two, halfway between two of its altitudes, of which the second isn't the
/// highest.
fn split(range: Altitudes, low: i32, high: i32) -> (Altitudes, Altitudes)
    requires from { range.lowest ≤ℤ low }
    requires order { low ≤ℤ high }
    requires to { high <ℤ range.highest }
    ensures { IsSplit range result.0 result.1 }
{
    let between = halfway(low, high);
    let lower = Altitudes {
        lowest: range.lowest,
        highest: between,
    };
    let upper = Altitudes {
        lowest: between + 1,
        highest: range.highest,
    };
    (lower, upper)
}

/// The lowest altitude for which the last of a pair isn't too low, and the highest below the first
/// of them.
fn gap_of(hulls: &Hulls, pair: Pair, loss: i32) -> (i32, i32)
    requires loss { pos 0 ≤ℤ loss }
    requires first { pair.first < length hulls.now }
    requires last { pair.last < length hulls.now }
    requires low { loss <ℤ (altitude_at hulls.now pair.first -ℤ altitude_at hulls.now pair.last) }
    ensures low { result.0 ≡ altitude_at hulls.now pair.last +ℤ loss }
    ensures high { result.1 ≡ altitude_at hulls.now pair.first -ℤ pos 1 }
{
    let first = hulls.fix(pair.first).alt;
    let last = hulls.fix(pair.last).alt;
    (last + loss, first - 1)
}

/// Runs over a range that was the last. Where the run stopped, two shorter ranges take its place.
/// The only error is want of memory.
pub(crate) fn advance(
    alloc: Global,
    goal: &FreeGoal,
    hulls: &Hulls,
    search: &mut Search,
    ranges: &mut Vec<Altitudes>,
    range: Altitudes,
) -> Result<(), AllocError>
    requires same { hulls.now ≡ goal.now.hulls }
    requires some { 0 < length hulls.now }
    requires valid { IsValid (rule_of goal.now) search.old.best }
    requires flanks { AreFlanks hulls.now search.old }
    requires left { AreLeft hulls.now goal.now.loss search.old.best.total
        (ranges.old.items ++ range ∷ []) }
    ensures valid { OnOk result (IsValid (rule_of goal.now) search.new.best) }
    ensures flanks { OnOk result (AreFlanks hulls.now search.new) }
    ensures left { OnOk result
        (AreLeft hulls.now goal.now.loss search.new.best.total ranges.new.items) }
    ensures less { OnOk result
        (sum_by turns_of ranges.new.items < sum_by turns_of ranges.old.items + turns_of range) }
{
    if let Some(pair) = search.run(alloc, goal, hulls, range)? {
        let (low, high) = gap_of(hulls, pair, goal.loss());
        let (lower, upper) = split(range, low, high);
        ranges.push(upper)?;
        ranges.push(lower)?;
    }
    Ok(())
}
