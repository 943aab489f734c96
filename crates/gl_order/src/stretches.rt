ghost use Rattle.std.specs.Prelude.{◌≡◌, ◌+◌, ◌^◌, ◌<◌, ◌≤◌, length, IfOk, IsPermutation, OnOk};

use gl_box::{Boxed, Cell, covers, halve};
use std::alloc::{AllocError, Global};

/// How many stretches are put into order at most. Where there are more, they stay as they are.
const MOST_STRETCHES: usize = 4_096;

/// After how many stretches it is judged whether they will be too many: all boxes in stretches as
/// short as these would be more than the most.
const FIRST_STRETCHES: usize = 64;

/// How many turns of a way down the split tree are told.
const MOST_TURNS: u32 = 128;

/// Boxes that follow one another.
#[derive(Clone, Copy)]
struct Stretch {
    start: usize,
    len: usize,
}

/// The way from a cell down to one of its nodes: its turns, from the highest bit on, 1 where the
/// node lies in the upper half. Of boxes that part the cell, one that comes before another has the
/// smaller way, unless they part only after 128 turns.
pub(crate) fn way_to(whole: &Cell, node: &Cell) -> u128 {
    let mut cell = *whole;
    let mut way = 0;
    for turn in 0..MOST_TURNS {
        let Some(lower) = halve(&mut cell) else {
            return way;
        };
        if covers(&lower, node) {
            cell = lower;
        } else if covers(&cell, node) {
            way |= 1 << (MOST_TURNS - 1 - turn);
        } else {
            return way;
        }
    }
    way
}

/// How many of the first boxes follow one another in the split tree of a cell. `opened` is room to
/// work in. The only error is want of memory.
fn stretch_len<B: Boxed>(
    mut cell: Cell,
    boxes: &[B],
    opened: &mut Vec<Cell>,
) -> Result<usize, AllocError>
    ensures { IfOk result (λ count. count ≤ length boxes.now) }
{
    opened.clear();
    let mut count = 0;
    'halves: while count < boxes.len() {
        let next = boxes[count].cell();
        if *next == cell {
            count += 1;
            match opened.pop() {
                Some(other) => cell = other,
                None => return Ok(count),
            }
        } else {
            let Some(lower) = halve(&mut cell) else {
                return Ok(count);
            };
            if covers(&lower, next) {
                opened.push(cell)?;
                cell = lower;
            } else if count > 0 {
                return Ok(count);
            }
        }
    }
    Ok(count)
}

/// Whether there are too many stretches, or will be, where so many first boxes of all are so many
/// stretches.
fn are_many(stretches: usize, first: usize, boxes: usize) -> bool {
    if stretches == MOST_STRETCHES {
        return true;
    }
    stretches == FIRST_STRETCHES && first < boxes / (MOST_STRETCHES / FIRST_STRETCHES)
}

/// The stretches of some boxes; none where there are too many. The only error is want of memory.
fn stretches_of<B: Boxed>(
    alloc: Global,
    whole: &Cell,
    boxes: &[B],
    opened: &mut Vec<Cell>,
) -> Result<Vec<Stretch>, AllocError> {
    let mut stretches = Vec::new(alloc);
    let mut start = 0;
    'stretches: while start < boxes.len() {
        if are_many(stretches.len(), start, boxes.len()) {
            return Ok(Vec::new(alloc));
        }
        let len = stretch_len(*whole, &boxes[start..], opened)?.max(1);
        stretches.push(Stretch { start, len })?;
        start += len;
    }
    Ok(stretches)
}

/// So many boxes change places with as many behind them.
fn trade<B>(boxes: &mut [B], front: usize, back: usize, count: usize)
    requires front { front + count ≤ length boxes.old }
    requires back { back + count ≤ length boxes.old }
    ensures permutation { IsPermutation boxes.old boxes.new }
    ensures len { length boxes.new ≡ length boxes.old }
{
    for offset in 0..count {
        boxes.swap(front + offset, back + offset);
    }
}

/// Where stretches lie after so many boxes changed places with as many behind them: a stretch of
/// which only a part was in front is then two. The only error is want of memory.
fn move_stretches(
    stretches: &mut Vec<Stretch>,
    first: usize,
    front: usize,
    back: usize,
    count: usize,
) -> Result<(), AllocError>
    requires apart { front + count ≤ back }
    requires within { back + count < 2 ^ 64 }
{
    let mut index = first;
    'stretches: while index < stretches.len() {
        let Stretch { start, len } = stretches[index];
        index += 1;
        if front <= start && start < front + count {
            let inside = len.min(front + count - start);
            stretches[index - 1] = Stretch {
                start: start + (back - front),
                len: inside,
            };
            if inside < len {
                stretches.insert(
                    index,
                    Stretch {
                        start: front + count,
                        len: len - inside,
                    },
                )?;
                index += 1;
            }
        }
    }
    Ok(())
}

/// Brings stretches to the front, one after the other. The only error is want of memory.
fn place<B>(boxes: &mut [B], stretches: &mut Vec<Stretch>) -> Result<(), AllocError>
    ensures { OnOk result (IsPermutation boxes.old boxes.new) }
{
    let mut placed = 0;
    let mut index = 0;
    for _ in 0..boxes.len() {
        if index >= stretches.len() {
            return Ok(());
        }
        let Stretch { start, len } = stretches[index];
        if start < placed || boxes.len() < start || boxes.len() - start < len {
            return Ok(());
        }
        let gap = start - placed;
        let count = if gap == 0 { len } else { len.min(gap) };
        let moved = if gap == 0 { 0 } else { count };
        stretches[index] = Stretch {
            start: start + count,
            len: len - count,
        };
        trade(boxes, placed, start, moved);
        move_stretches(stretches, index + 1, placed, start, moved)?;
        placed += count;
        if count == len {
            index += 1;
        }
    }
    Ok(())
}

/// Brings boxes closer to the order of the split tree of a cell: the stretches of which they
/// consist come in the order of their first boxes. The only error is want of memory.
pub(crate) fn bring_stretches<B: Boxed>(
    alloc: Global,
    whole: &Cell,
    boxes: &mut [B],
    opened: &mut Vec<Cell>,
) -> Result<(), AllocError>
    ensures { OnOk result (IsPermutation boxes.old boxes.new) }
{
    let mut stretches = stretches_of(alloc, whole, boxes, opened)?;
    stretches.sort_by_cached_key(|stretch| match boxes.get(stretch.start) {
        Some(first) => way_to(whole, first.cell()),
        None => 0,
    })?;
    place(boxes, &mut stretches)
}
