ghost use Rattle.std.specs.Prelude.{◌+◌, ◌-◌, ◌↔◌, ◌<◌, ◌≤◌, ℕ, List, drop, length, map, take, All, IfOk, IfSome, IsPermutation, IsTrue, OnOk};
ghost use Rattle.gl_box.specs.Cell.{spans_of};
ghost use Rattle.gl_box.specs.Frontier.{IsFrontier};
ghost use Rattle.gl_order.specs.Code.Ends.{EachBetween, EndsBy};
ghost use Rattle.gl_order.specs.Order.{AreParts};

use crate::stretches::bring_stretches;
use gl_box::{Boxed, Cell, go_down, halve, widest};
use std::alloc::{AllocError, Global};

/// Room for open cells: each cut adds one, and a cell can be cut at most 32 times on each axis.
const OPEN_ROOM: usize = 512;

/// How many boxes there are at least where it is tried whether the first ones are in order.
const MANY: usize = 1_024;

/// How many of the first boxes are a frontier of the cell. `None` where they don't begin with one.
/// `opened` is room to work in. The only error is want of memory.
fn frontier_len<B: Boxed>(
    cell: Cell,
    boxes: &[B],
    opened: &mut Vec<Cell>,
) -> Result<Option<usize>, AllocError>
    ensures within { IfOk result (λ count. IfSome count (λ count. count ≤ length boxes.now)) }
    ensures frontier { IfOk result (λ count. IfSome count
        (λ count. IsFrontier (spans_of cell) (take count (map B.spans boxes.now)))) }
{
    opened.clear();
    opened.push(cell)?;
    for (count, next) in boxes.iter().enumerate() {
        if !go_down(opened, next.cell())? {
            return Ok(None);
        }
        if opened.is_empty() {
            return Ok(Some(count + 1));
        }
    }
    Ok(None)
}

/// As `frontier_len`, where there are many boxes. Few of them are sorted out sooner than looked
/// through.
fn passed_len<B: Boxed>(
    cell: Cell,
    boxes: &[B],
    opened: &mut Vec<Cell>,
) -> Result<Option<usize>, AllocError>
    ensures within { IfOk result (λ count. IfSome count (λ count. count ≤ length boxes.now)) }
    ensures frontier { IfOk result (λ count. IfSome count
        (λ count. IsFrontier (spans_of cell) (take count (map B.spans boxes.now)))) }
{
    if boxes.len() < MANY {
        return Ok(None);
    }
    frontier_len(cell, boxes, opened)
}

/// Whether a cell ends on an axis at a place or before it.
#[inline]
fn ends_by(cell: &Cell, axis: usize, last: u32) -> bool
    requires { axis < length (spans_of cell.now) }
    ensures { IsTrue result ↔ EndsBy axis last (spans_of cell.now) }
{
    cell.spans[axis].hi <= last
}

/// The place of the first box, from a start on and before an end, that ends on an axis later than
/// at a place; the end where there is none.
fn first_later<B: Boxed>(axis: usize, last: u32, boxes: &[B], start: usize, end: usize) -> usize
    requires order { start ≤ end }
    requires within { end ≤ length boxes.now }
    requires axis { All (λ box. axis < length (B.spans box)) boxes.now }
    ensures from { start ≤ result }
    ensures to { result ≤ end }
    ensures passed { EachBetween (λ box. EndsBy axis last (B.spans box)) boxes.now start result }
    ensures found { result < end
        → EachBetween (λ box. EndsBy axis last (B.spans box) → ⊥) boxes.now result (result + 1) }
{
    for place in start..end {
        if !ends_by(boxes[place].cell(), axis, last) {
            return place;
        }
    }
    end
}

/// The place behind the last box, from a start on and before an end, that ends on an axis at a
/// place or before it; the start where there is none.
fn after_last_ended<B: Boxed>(
    axis: usize,
    last: u32,
    boxes: &[B],
    start: usize,
    end: usize,
) -> usize
    requires order { start ≤ end }
    requires within { end ≤ length boxes.now }
    requires axis { All (λ box. axis < length (B.spans box)) boxes.now }
    ensures from { start ≤ result }
    ensures to { result ≤ end }
    ensures passed { EachBetween (λ box. EndsBy axis last (B.spans box) → ⊥) boxes.now result end }
    ensures found { start < result
        → EachBetween (λ box. EndsBy axis last (B.spans box)) boxes.now (result - 1) result }
{
    for place in (start..end).rev() {
        if ends_by(boxes[place].cell(), axis, last) {
            return place + 1;
        }
    }
    start
}

/// Brings the boxes that end on an axis at a place or before it to the front, and answers how many
/// they are. A box changes places only with one that is wrong there as well.
fn part<B: Boxed>(axis: usize, last: u32, boxes: &mut [B]) -> usize
    requires { All (λ box. axis < length (B.spans box)) boxes.old }
    ensures within { result ≤ length boxes.new }
    ensures permutation { IsPermutation boxes.old boxes.new }
    ensures front { All (λ box. EndsBy axis last (B.spans box)) (take result boxes.new) }
    ensures back { All (λ box. EndsBy axis last (B.spans box) → ⊥) (drop result boxes.new) }
{
    let mut front = 0;
    let mut back = boxes.len();
    'boxes: while front < back {
        front = first_later(axis, last, boxes, front, back);
        back = after_last_ended(axis, last, boxes, front, back);
        if front < back {
            back -= 1;
            boxes.swap(front, back);
            front += 1;
        }
    }
    front
}

/// Puts boxes that part a cell into the order of the split tree. Where those of the lower half come
/// first and in order, they stay as they are. `opened` is room to work in. The only error is want
/// of memory.
fn put_in_order<B: Boxed>(
    mut cell: Cell,
    boxes: &mut [B],
    opened: &mut Vec<Cell>,
) -> Result<(), AllocError>
    requires { AreParts (spans_of cell) (map B.spans boxes.old) }
    ensures permutation { OnOk result (IsPermutation boxes.old boxes.new) }
    ensures frontier { OnOk result (IsFrontier (spans_of cell) (map B.spans boxes.new)) }
{
    if boxes.len() == 1 {
        return Ok(());
    }
    let axis = widest(&cell);
    let Some(lower) = halve(&mut cell) else {
        return Ok(());
    };
    if let Some(count) = passed_len(lower, boxes, opened)? {
        let (_, back) = boxes.split_at_mut(count);
        return put_in_order(cell, back, opened);
    }
    // The lower half ends before the upper one on this axis, and each box lies in one of them.
    let count = part(axis, lower.spans[axis].hi, boxes);
    let (front, back) = boxes.split_at_mut(count);
    put_in_order(lower, front, opened)?;
    put_in_order(cell, back, opened)
}

/// The same boxes, or other things that stand for cells, in the order of the split tree of a cell
/// which they part: each of its tuples lies in exactly one of them. Those that come as a few
/// stretches in order take little more than three passes, and one where they are in order; no list
/// is made beside theirs. The only error is want of memory.
pub fn sorted<B: Boxed + Drop>(
    alloc: Global,
    whole: &Cell,
    mut parts: Vec<B>,
) -> Result<Vec<B>, AllocError>
    requires { AreParts (spans_of whole.now) (map B.spans parts.items) }
    ensures frontier { IfOk result
        (λ sorted. IsFrontier (spans_of whole.now) (map B.spans sorted.items)) }
    ensures permutation { IfOk result (λ sorted. IsPermutation parts.items sorted.items) }
{
    let mut opened = Vec::with_capacity(alloc, OPEN_ROOM)?;
    if frontier_len(*whole, &parts, &mut opened)? == Some(parts.len()) {
        return Ok(parts);
    }
    let boxes = parts.as_mut_slice();
    bring_stretches(alloc, whole, boxes, &mut opened)?;
    put_in_order(*whole, boxes, &mut opened)?;
    Ok(parts)
}
