ghost use Rattle.std.specs.Prelude.{◌≡◌, IfOk, length, map};
ghost use Rattle.std.specs.List.{zip};
ghost use Rattle.std.specs.List.Sorted.{IsPermutation, IsSorted};
ghost use Rattle.gl_sheet.specs.Code.Line.{line_of};
ghost use Rattle.gl_sheet.specs.Sheet.{line_cmp};

use crate::row::Row;
use gl_task::Entrant;
use std::alloc::{AllocError, Global};
use std::cmp::Ordering;

/// One entrant's line.
#[derive(Clone, Copy)]
pub(crate) struct Line<'a> {
    pub entrant: &'a Entrant,
    pub row: &'a Row,
}

/// How two lines stand: by points, the greater first, and at equal points by the bytes of the
/// number.
fn compare(a: &Line, b: &Line) -> Ordering
    ensures { result
        ≡ line_cmp (line_of a.now) (line_of b.now) }
{
    let by_points = b.row.points.cmp(&a.row.points);
    by_points.then(a.entrant.number.cmp(&b.entrant.number))
}

/// The lines of all entrants, in the order of the task.
fn gathered<'a>(
    alloc: Global,
    entrants: &'a [Entrant],
    rows: &'a [Row],
) -> Result<Vec<Line<'a>>, AllocError>
    requires { length rows.now ≡ length entrants.now }
    ensures { IfOk result
        (λ lines. map line_of lines.items ≡ zip entrants.now rows.now) }
{
    let mut lines = Vec::new(alloc);
    for i in 0..entrants.len() {
        lines.push(Line {
            entrant: &entrants[i],
            row: &rows[i],
        })?;
    }
    Ok(lines)
}

/// Puts lines into the order of the sheet.
fn sort(lines: &mut [Line])
    ensures all { IsPermutation (map line_of lines.old)
        (map line_of lines.new) }
    ensures sorted { IsSorted line_cmp (map line_of lines.new) }
{
    lines.sort_unstable_by(|a, b| compare(a, b));
}

/// The lines of all entrants, in the order of the sheet.
pub(crate) fn in_order<'a>(
    alloc: Global,
    entrants: &'a [Entrant],
    rows: &'a [Row],
) -> Result<Vec<Line<'a>>, AllocError>
    requires { length rows.now ≡ length entrants.now }
    ensures all { IfOk result (λ lines.
        IsPermutation (zip entrants.now rows.now)
        (map line_of lines.items)) }
    ensures sorted { IfOk result (λ lines.
        IsSorted line_cmp (map line_of lines.items)) }
{
    let mut lines = gathered(alloc, entrants, rows)?;
    sort(&mut lines);
    Ok(lines)
}
