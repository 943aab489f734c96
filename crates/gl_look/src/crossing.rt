ghost use Rattle.std.specs.Prelude.{◌≡◌, IfOk, is_some};
ghost use Rattle.std.specs.List.{list_any};
ghost use Rattle.gl_look.specs.Crossings.{AreCrossed, AreCrossedBehind, IsCrossed, is_in_times, slip_of_start};

use crate::told::Slip;
use gl_igc::Fix;
use gl_task::Start;
use gl_zone::{Line, crossing};
use std::alloc::{AllocError, Global};

/// The time at which a line is crossed forwards from a fix to a later one.
fn crossed_at(line: &Line, x: &Fix, y: &Fix) -> Option<i32>
    ensures { IsCrossed line.now x.now y.now result }
{
    if x.second < y.second {
        crossing(line, x, y)
    } else {
        None
    }
}

/// For each fix behind another one, when a line is crossed forwards from the fix before it.
fn crossed_behind(
    alloc: Global,
    line: &Line,
    first: &Fix,
    fixes: &[Fix],
) -> Result<Vec<Option<i32>>, AllocError>
    ensures { IfOk result (λ crossed.
        AreCrossedBehind line.now first.now fixes.now crossed.items) }
{
    let mut crossed = Vec::new(alloc);
    let mut before = first;
    let mut rest = fixes;
    'fixes: while let Some((fix, others)) = rest.split_first() {
        crossed.push(crossed_at(line, before, fix))?;
        before = fix;
        rest = others;
    }
    Ok(crossed)
}

/// For each fix but the first, when a line is crossed forwards from the fix before it.
pub fn crossed_in(alloc: Global, line: &Line, fixes: &[Fix]) -> Result<Vec<Option<i32>>, AllocError>
    ensures { IfOk result (λ crossed. AreCrossed line.now fixes.now crossed.items) }
{
    match fixes.split_first() {
        Some((first, others)) => crossed_behind(alloc, line, first, others),
        None => Ok(Vec::new(alloc)),
    }
}

/// Whether a start line is crossed in its times.
fn is_in_times(start: &Start, crossed: Option<i32>) -> bool
    ensures { result ≡ is_in_times start.now crossed }
{
    match crossed {
        Some(time) => start.opens <= time && time <= start.close,
        None => false,
    }
}

/// Whether a start line is crossed in its times at one of some fixes.
fn any_in_times(start: &Start, crossed: &[Option<i32>]) -> bool
    ensures { result ≡ list_any (is_in_times start.now) crossed.now }
{
    crossed.iter().any(|time| is_in_times(start, *time))
}

/// Whether a line is crossed at one of some fixes.
fn any_crossed(crossed: &[Option<i32>]) -> bool
    ensures { result ≡ list_any is_some crossed.now }
{
    crossed.iter().any(|time| time.is_some())
}

/// What is wrong where the start line is crossed, and never in its times.
pub fn slip_of_start(start: &Start, crossed: &[Option<i32>]) -> Option<Slip>
    ensures { result ≡ slip_of_start start.now crossed.now }
{
    if any_in_times(start, crossed) {
        None
    } else if any_crossed(crossed) {
        Some(Slip::NoStart)
    } else {
        None
    }
}
