ghost use Rattle.std.specs.Prelude.{◌≡◌, ◌≢◌, ◌≤◌, ◌+◌, ◌/◌, ℕ, max, List, [], ◌∷◌, ◌++◌, length, vec_len, vec_capacity, IfOk, OnOk, MatchOption, codes};
ghost use Rattle.gl_proof.specs.Fronts.{Reads};
ghost use Rattle.gl_box.specs.Cell.{spans_of};
ghost use Rattle.gl_box.specs.Closed.{box_of};
ghost use Rattle.gl_box.specs.declared.closed.Why.{Why as CodeWhy};
ghost use Rattle.gl_proof.specs.Code.Fronts.{AreFixesAt, Adds, AddsBox, AreSpansAt, IsBoxAt, IsClaimAt, IsKindAt, IsReasonAt, said_of};

use crate::claim::ClaimKind;
use crate::entrant::entrant_at;
use crate::front::{behind, common_span_at, short_number_at, span_at, total_at};
use gl_box::{Cell, Closed, MOST_AXES, Span, Tuple, Why};
use std::alloc::{AllocError, Global};

/// A full list of boxes gets room for so many more, and for a quarter of those that it has.
const LEAST_ROOM: usize = 64;

/// What the first line of a claim says.
#[derive(Clone, Copy)]
pub struct ClaimFront<'a> {
    /// The number of the entrant.
    pub number: &'a [u8],
    pub kind: ClaimKind,
    pub total: Option<u64>,
}

/// The reason whose letter stands at the front of a text, and what follows it.
fn reason_at(text: &[u8]) -> Option<(Why, &[u8])>
    ensures { Reads (λ why. why) (IsReasonAt text.now) result }
{
    if let Some(rest) = behind(text, b"D") {
        return Some((Why::Disordered, rest));
    }
    if let Some(rest) = behind(text, b"S") {
        return Some((Why::Shut, rest));
    }
    if let Some(rest) = behind(text, b"B") {
        return Some((Why::Bound, rest));
    }
    None
}

/// Makes room for a box. A full list gets room for a quarter more boxes than it has, and for a few.
/// The only error is want of memory.
#[inline]
fn make_room(cells: &mut Vec<Closed>) -> Result<(), AllocError>
    ensures same { OnOk result (cells.new.items ≡ cells.old.items) }
    ensures room { OnOk result (vec_capacity cells.new
        ≤ max (vec_capacity cells.old) (vec_len cells.old + (vec_len cells.old / 4 + 64))) }
{
    if cells.len() == cells.capacity() {
        cells.reserve_exact(cells.len() / 4 + LEAST_ROOM)?;
    }
    Ok(())
}

/// Appends the box with a reason and the spans that stand at the front of a text, each behind a
/// space and LF behind the last one, and hands out what follows. The only error is want of memory.
fn add_spans_at<'a>(
    cells: &mut Vec<Closed>,
    why: Why,
    text: &'a [u8],
) -> Result<Option<&'a [u8]>, AllocError>
    ensures { IfOk result (Adds (AreSpansAt text.now) why cells.old.items cells.new.items) }
{
    let mut cell = Cell {
        axes: MOST_AXES as u8,
        spans: [Span { lo: 0, hi: 0 }; MOST_AXES],
    };
    let mut axes = 0;
    let mut rest = text;
    'axes: while let Some(word) = behind(rest, b" ") {
        if axes == MOST_AXES {
            return Ok(None);
        }
        let Some((span, after)) = span_at(word) else {
            return Ok(None);
        };
        cell.spans[axes] = span;
        axes += 1;
        rest = after;
    }
    let Some(after) = behind(rest, b"\n") else {
        return Ok(None);
    };
    if axes == 0 {
        return Ok(None);
    }
    cell.axes = axes as u8;
    make_room(cells)?;
    cells.push(Closed { cell, why })?;
    Ok(Some(after))
}

/// What follows the word of a box and its space, where the text begins with them. It compares byte
/// by byte, as the compiler does best.
#[inline]
fn behind_box(text: &[u8]) -> Option<&[u8]>
    ensures { MatchOption result ((rest : List ℕ) → text.now ≢ codes "BOX " ++ rest)
        (λ rest. text.now ≡ codes "BOX " ++ rest.now) }
{
    let rest = behind(text, b"B")?;
    let rest = behind(rest, b"O")?;
    let rest = behind(rest, b"X")?;
    behind(rest, b" ")
}

/// Appends the box whose line stands at the front of a text, and hands out what follows. The only
/// error is want of memory.
pub fn add_box_at<'a>(
    cells: &mut Vec<Closed>,
    text: &'a [u8],
) -> Result<Option<&'a [u8]>, AllocError>
    ensures { IfOk result (AddsBox text.now cells.old.items cells.new.items) }
{
    let Some(words) = behind_box(text) else {
        return Ok(None);
    };
    let Some((why, rest)) = reason_at(words) else {
        return Ok(None);
    };
    add_spans_at(cells, why, rest)
}

/// What follows the spans at the front of a text, each behind a space and LF behind the last one;
/// they are given to a cell.
#[inline(always)]
fn spans_into<'a>(cell: &mut Cell, text: &'a [u8]) -> Option<&'a [u8]>
    ensures { MatchOption result
        ((spans : List (ℕ × ℕ)) (rest : List ℕ) → AreSpansAt text.now spans rest → ⊥)
        (λ rest. AreSpansAt text.now (spans_of cell.new) rest.now) }
{
    cell.spans = [Span { lo: 0, hi: 0 }; MOST_AXES];
    cell.axes = MOST_AXES as u8;
    let mut axes = 0;
    let mut rest = text;
    'axes: while let Some(word) = behind(rest, b" ") {
        if axes == MOST_AXES {
            return None;
        }
        let Some((span, after)) = common_span_at(word) else {
            return None;
        };
        cell.spans[axes] = span;
        axes += 1;
        rest = after;
    }
    let Some(after) = behind(rest, b"\n") else {
        return None;
    };
    if axes == 0 {
        return None;
    }
    cell.axes = axes as u8;
    Some(after)
}

/// The reason of the box whose line stands at the front of a text, and what follows; its spans are
/// given to a cell.
#[inline(always)]
pub(crate) fn box_into<'a>(cell: &mut Cell, text: &'a [u8]) -> Option<(Why, &'a [u8])>
    ensures { MatchOption result
        ((box : List (ℕ × ℕ) × CodeWhy) (rest : List ℕ) → IsBoxAt text.now box rest → ⊥)
        (λ taken. IsBoxAt text.now (spans_of cell.new, taken.0) taken.1.now) }
{
    let Some(words) = behind_box(text) else {
        return None;
    };
    let Some((why, tail)) = reason_at(words) else {
        return None;
    };
    let Some(rest) = spans_into(cell, tail) else {
        return None;
    };
    Some((why, rest))
}

/// The box whose line stands at the front of a text, and what follows.
pub fn box_at(text: &[u8]) -> Option<(Closed, &[u8])>
    ensures { Reads box_of (IsBoxAt text.now) result }
{
    let mut cell = Cell::point(&Tuple::first(1));
    let Some((why, rest)) = box_into(&mut cell, text) else {
        return None;
    };
    Some((Closed { cell, why }, rest))
}

/// The numbers of fixes at the front of a text, each behind a space and LF behind the last one, and
/// what follows. The only error is want of memory.
pub fn fixes_at(alloc: Global, text: &[u8]) -> Result<Option<(Vec<u32>, &[u8])>, AllocError>
    ensures { IfOk result (Reads (λ fixes. fixes.items) (AreFixesAt text.now)) }
{
    let mut fixes = Vec::with_capacity(alloc, MOST_AXES)?;
    let mut rest = text;
    'fixes: while let Some(word) = behind(rest, b" ") {
        if fixes.len() == MOST_AXES {
            return Ok(None);
        }
        let Some((fix, after)) = short_number_at(word) else {
            return Ok(None);
        };
        fixes.push(fix)?;
        rest = after;
    }
    let Some(after) = behind(rest, b"\n") else {
        return Ok(None);
    };
    if fixes.is_empty() {
        return Ok(None);
    }
    Ok(Some((fixes, after)))
}

/// The kind of claim whose word stands at the front of a text with a space behind it, and what
/// follows that.
fn kind_at(text: &[u8]) -> Option<(ClaimKind, &[u8])>
    ensures { Reads (λ kind. kind) (IsKindAt text.now) result }
{
    if let Some(rest) = behind(text, b"AREA ") {
        return Some((ClaimKind::Area, rest));
    }
    if let Some(rest) = behind(text, b"OUT ") {
        return Some((ClaimKind::Out, rest));
    }
    if let Some(rest) = behind(text, b"FREE ") {
        return Some((ClaimKind::Free, rest));
    }
    if let Some(rest) = behind(text, b"TRIANGLE ") {
        return Some((ClaimKind::Triangle, rest));
    }
    None
}

/// What the first line of a claim says, which stands at the front of a text, and what follows.
pub fn claim_line_at(text: &[u8]) -> Option<(ClaimFront<'_>, &[u8])>
    ensures { Reads said_of (IsClaimAt text.now) result }
{
    let (number, rest) = entrant_at(behind(text, b"CLAIM ")?)?;
    let (kind, rest) = kind_at(rest)?;
    let (total, rest) = total_at(rest)?;
    let front = ClaimFront {
        number,
        kind,
        total,
    };
    Some((front, rest))
}
