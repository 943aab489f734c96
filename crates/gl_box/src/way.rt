ghost use Rattle.std.specs.Prelude.{◌≡◌, ◌↔◌, ◌∷◌, ◌++◌, ℕ, List, [], true, false, slice_set, IfOk, IsTrue, MatchOption, OnOk};
ghost use Rattle.gl_box.specs.Cell.{Covers, ends, spans_of};
ghost use Rattle.gl_box.specs.Halves.{IsSingle};
ghost use Rattle.gl_box.specs.Turns.{when_cut};
ghost use Rattle.gl_box.specs.Walk.{AreFrontiers, open_cells};
ghost use Rattle.gl_box.specs.Way.{HasCome, IsFork, before_if, open_of, open_on};

use crate::cell::Cell;
use crate::fork::Fork;
use crate::halves::widest;
use crate::room::append;
use crate::span::Span;
use crate::tuple::Tuple;
use crate::walk::{OPEN_ROOM, is_same};
use std::alloc::{AllocError, Global};

/// The open cells of a walk along the split tree. Only the first one is kept as it lies; those
/// that are open because of a cut are made again from it, once it is done with.
#[derive(Drop)]
pub struct OpenCells {
    /// The first open cell, or the last one that was closed.
    pub first: Cell,
    pub is_open: bool,
    /// The cuts on the way to it.
    pub way: Vec<Fork>,
    /// The cells that were open at first and that the walk hasn't come to, the next one last.
    pub others: Vec<Cell>,
}

/// Gives an axis another span, if the cell has that axis.
#[inline]
pub(crate) fn put(cell: &mut Cell, axis: usize, span: Span)
    ensures { spans_of cell.new ≡ slice_set (spans_of cell.old) axis (ends span) }
{
    if axis >= cell.axes as usize {
        return;
    }
    cell.set(axis, span);
}

/// Cuts a cell in the middle of its widest span: it becomes its lower half. `None` where it holds
/// a single tuple, and then it stays as it is.
#[inline]
pub(crate) fn lower(cell: &mut Cell) -> Option<Fork>
    ensures { MatchOption result
        (IsSingle (spans_of cell.old) × (cell.new ≡ cell.old))
        (IsFork (spans_of cell.old) (spans_of cell.new)) }
{
    let axis = widest(cell);
    let span = cell.spans[axis];
    if span.lo == span.hi {
        return None;
    }
    let middle = span.lo + (span.hi - span.lo) / 2;
    cell.set(
        axis,
        Span {
            lo: span.lo,
            hi: middle,
        },
    );
    Some(Fork {
        axis,
        lo: span.lo,
        hi: span.hi,
        is_lower: true,
    })
}

/// Cuts a cell, which becomes its lower half; a single tuple stays. The only error is want of
/// memory.
#[inline]
fn go_lower(cell: &mut Cell, way: &mut Vec<Fork>) -> Result<(), AllocError>
    ensures { OnOk result ((others : List (List (ℕ × ℕ)))
        → spans_of cell.new ∷ (open_on (spans_of cell.new) way.new.items ++ others)
        ≡ when_cut (spans_of cell.old ∷ (open_on (spans_of cell.old) way.old.items ++ others))) }
{
    let Some(fork) = lower(cell) else {
        return Ok(());
    };
    append(way, fork)?;
    Ok(())
}

/// From a cell that is done with to the next one that is open on its way: the upper half of the
/// nearest cut whose lower half it lies in. Answers whether there is one.
#[inline]
fn go_upper(cell: &mut Cell, way: &mut Vec<Fork>) -> Result<bool, AllocError>
    ensures same { IfOk result (λ there. open_on (spans_of cell.old) way.old.items
        ≡ before_if there (spans_of cell.new) (open_on (spans_of cell.new) way.new.items)) }
    ensures none { IfOk result (λ there. (there ≡ false) → way.new.items ≡ []) }
{
    'forks: while let Some(fork) = way.pop() {
        if fork.is_lower {
            put(cell, fork.axis, fork.upper());
            append(
                way,
                Fork {
                    axis: fork.axis,
                    lo: fork.lo,
                    hi: fork.hi,
                    is_lower: false,
                },
            )?;
            return Ok(true);
        }
        put(cell, fork.axis, fork.whole());
    }
    Ok(false)
}

/// From a cell that is done with to the next one that is open. Answers whether there is one.
#[inline]
fn go_on(cell: &mut Cell, way: &mut Vec<Fork>, others: &mut Vec<Cell>) -> Result<bool, AllocError>
    ensures same { IfOk result (λ there.
        open_on (spans_of cell.old) way.old.items ++ open_cells others.old.items
        ≡ before_if there (spans_of cell.new)
        (open_on (spans_of cell.new) way.new.items ++ open_cells others.new.items)) }
    ensures none { IfOk result (λ there. (there ≡ false)
        → open_on (spans_of cell.new) way.new.items ++ open_cells others.new.items ≡ []) }
{
    if go_upper(cell, way)? {
        return Ok(true);
    }
    let Some(next) = others.pop() else {
        return Ok(false);
    };
    *cell = next;
    Ok(true)
}

/// Whether a cell ends later than another on an axis, if both have it.
#[inline]
fn reaches_beyond(cell: &Cell, other: &Cell, axis: usize) -> bool
    ensures { IsTrue result → Covers (spans_of other.now) (spans_of cell.now) → ⊥ }
{
    if axis >= cell.axes as usize {
        return false;
    }
    if axis >= other.axes as usize {
        return false;
    }
    if cell.spans[axis].hi > other.spans[axis].hi {
        return true;
    }
    false
}

impl OpenCells {
    /// Some open cells, of which the last comes first. The only error is want of memory.
    pub fn new(alloc: Global, opened: &[Cell]) -> Result<OpenCells, AllocError>
        ensures { IfOk result (λ cells. open_of cells ≡ open_cells opened.now) }
    {
        let mut others = Vec::with_capacity(alloc, opened.len())?;
        others.extend_from_slice(opened)?;
        Ok(OpenCells {
            first: Cell::point(&Tuple::first(1)),
            is_open: false,
            way: Vec::with_capacity(alloc, OPEN_ROOM)?,
            others,
        })
    }

    /// A cell that is open alone. The only error is want of memory.
    pub fn of(alloc: Global, cell: Cell) -> Result<OpenCells, AllocError>
        ensures { IfOk result (λ cells. (open_of cells ≡ spans_of cell ∷ []) × HasCome cells) }
    {
        Ok(OpenCells {
            first: cell,
            is_open: true,
            way: Vec::with_capacity(alloc, OPEN_ROOM)?,
            others: Vec::new(alloc),
        })
    }

    /// Goes down from the first open cell to a cell, over lower halves alone. Answers whether the
    /// cell is there: then it is the first open one, and else the open cells serve for nothing any
    /// more. The only error is want of memory.
    ///
    /// A box that stands where it should lies in the first open cell, so after a cut its end is
    /// looked at on that axis alone.
    #[inline]
    fn go_down(&mut self, cell: &Cell) -> Result<bool, AllocError>
        requires { self.old.is_open ≡ true }
        ensures there { IfOk result (λ there. IsTrue there → (more : List (List (ℕ × ℕ)))
            → AreFrontiers (open_of self.old) (spans_of cell.now ∷ more)
            ↔ AreFrontiers (open_on (spans_of self.new.first) self.new.way.items
            ++ open_cells self.new.others.items) more) }
        ensures absent { IfOk result (λ there. (there ≡ false) → (more : List (List (ℕ × ℕ)))
            → AreFrontiers (open_of self.old) (spans_of cell.now ∷ more) → ⊥) }
    {
        'halves: while !is_same(&self.first, cell) {
            let Some(fork) = lower(&mut self.first) else {
                return Ok(false);
            };
            append(&mut self.way, fork)?;
            if reaches_beyond(cell, &self.first, fork.axis) {
                return Ok(false);
            }
        }
        Ok(true)
    }

    /// Goes down from the first open cell to a cell, over lower halves alone, takes it from the open
    /// ones, and comes to the next. Answers whether the cell is there; if not, the open cells serve
    /// for nothing any more. The only error is want of memory.
    #[inline]
    pub fn take(&mut self, cell: &Cell) -> Result<bool, AllocError>
        requires { HasCome self.old }
        ensures there { IfOk result (λ there. IsTrue there → (more : List (List (ℕ × ℕ)))
            → AreFrontiers (open_of self.old) (spans_of cell.now ∷ more)
            ↔ AreFrontiers (open_of self.new) more) }
        ensures absent { IfOk result (λ there. (there ≡ false) → (more : List (List (ℕ × ℕ)))
            → AreFrontiers (open_of self.old) (spans_of cell.now ∷ more) → ⊥) }
        ensures come { IfOk result (λ there. IsTrue there → HasCome self.new) }
    {
        if !self.is_open {
            return Ok(false);
        }
        if !self.go_down(cell)? {
            return Ok(false);
        }
        self.is_open = go_on(&mut self.first, &mut self.way, &mut self.others)?;
        Ok(true)
    }

    /// Comes to the first open cell, if there is one. The only error is want of memory.
    #[inline]
    fn come(&mut self) -> Result<(), AllocError>
        ensures same { OnOk result (open_of self.new ≡ open_of self.old) }
        ensures none { OnOk result ((self.new.is_open ≡ false) → open_of self.new ≡ []) }
    {
        if self.is_open {
            return Ok(());
        }
        self.is_open = go_on(&mut self.first, &mut self.way, &mut self.others)?;
        Ok(())
    }

    /// Cuts the first open cell; a single tuple stays. The only error is want of memory.
    #[inline]
    pub fn cut(&mut self) -> Result<(), AllocError>
        ensures { OnOk result (open_of self.new ≡ when_cut (open_of self.old)) }
    {
        self.come()?;
        if !self.is_open {
            return Ok(());
        }
        go_lower(&mut self.first, &mut self.way)
    }

    /// Closes the first open cell, and answers whether there was one. It stays as the first, but
    /// open no more. The only error is want of memory.
    #[inline]
    pub fn close(&mut self) -> Result<bool, AllocError>
        ensures same { IfOk result (λ there.
            open_of self.old ≡ before_if there (spans_of self.new.first) (open_of self.new)) }
        ensures none { IfOk result (λ there. (there ≡ false) → open_of self.new ≡ []) }
    {
        self.come()?;
        if !self.is_open {
            return Ok(false);
        }
        self.is_open = false;
        Ok(true)
    }
}
