ghost use Rattle.std.specs.Prelude.{◌≡◌, ◌≤◌, ◌<◌, ◌*◌, ◌+◌, length, IfOk};
ghost use Rattle.gl_box.specs.Cell.{ends};
ghost use Rattle.gl_goal.specs.Box.{IsLeastBox, fixes_in};
ghost use Rattle.gl_goal.specs.Hull.{box_of};
ghost use Rattle.gl_goal.specs.Table.{IsTable};

use crate::entry::Entry;
use crate::hull::Hull;
use gl_box::Span;
use gl_igc::Fix;
use std::alloc::{AllocError, Global};

/// Where a table has the hull of a span that comes from halving the whole again and again: a single
/// place at an even index, and a longer span between its halves.
#[inline]
pub(crate) fn index_of(span: Span) -> usize
    ensures { result ≤ 2 * span.hi }
{
    let ends = span.lo as usize + span.hi as usize;
    if span.lo == span.hi {
        ends
    } else {
        ends / 2 * 2 + 1
    }
}

/// The hull of some fixes, by going over them.
pub(crate) fn hull_over(fixes: &[Fix]) -> Hull
    requires { 0 < length fixes.now }
    ensures { IsLeastBox (box_of result) fixes.now }
{
    let mut hull = Hull::of_fix(&fixes[0]);
    for place in 1..fixes.len() {
        hull = hull.join(&Hull::of_fix(&fixes[place]));
    }
    hull
}

/// A table that has the hulls of the single fixes, each at its index and at the next.
pub(crate) fn singles(alloc: Global, fixes: &[Fix]) -> Result<Vec<Entry>, AllocError>
    requires some { 0 < length fixes.now }
    requires most { length fixes.now ≤ 90_000 }
    ensures { IfOk result (λ table. IsTable fixes.now table.items) }
{
    let mut table = Vec::with_capacity(alloc, 2 * fixes.len())?;
    for (place, fix) in fixes.iter().enumerate() {
        let entry = Entry {
            span: Span::point(place as u32),
            hull: Hull::of_fix(fix),
        };
        table.push(entry)?;
        table.push(entry)?;
    }
    Ok(table)
}

/// Writes the hulls of a span, of its halves, of their halves and so on into a table. Answers that
/// of the span.
pub(crate) fn fill(fixes: &[Fix], table: &mut [Entry], span: Span) -> Hull
    requires inside { span.hi < length fixes.now }
    requires table { IsTable fixes.now table.old }
    ensures hull { IsLeastBox (box_of result) (fixes_in fixes.now (ends span)) }
    ensures table { IsTable fixes.now table.new }
{
    if span.lo == span.hi {
        return Hull::of_fix(&fixes[span.lo as usize]);
    }
    let middle = span.lo + (span.hi - span.lo) / 2;
    let lower = Span {
        lo: span.lo,
        hi: middle,
    };
    let upper = Span {
        lo: middle + 1,
        hi: span.hi,
    };
    let lower = fill(fixes, table, lower);
    let upper = fill(fixes, table, upper);
    let hull = lower.join(&upper);
    table[index_of(span)] = Entry { span, hull };
    hull
}
