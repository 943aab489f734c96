use crate::axis::Axis;
use crate::hull::Hull;
use crate::hulls::Hulls;
use crate::legs::{leg, leg_at_most};
use crate::way::{GreatestWay, Way};
use gl_box::{Cell, Span, Tuple};
use gl_igc::Fix;
use gl_sphere::Vec3;
use std::alloc::{AllocError, Global};
use std::marker::Model;
use std::sync::Arc;

/// Lists of fixes to choose from, one for each axis of a goal.
#[derive(Debug, Drop)]
pub(crate) struct Lists {
    fixes: Vec<Fix>,
    axes: Vec<Axis>,
}

impl Model for Lists {
    ghost use Rattle.gl_goal.specs.Code.Lists.{Listed, AreHulled, lists_of};

    ghost Value = { Listed };

    ghost view = { λ lists. record {
      fixes = lists.fixes.items;
      lists = lists_of lists.axes.items;
    } };

    ghost invariant = { λ lists. AreHulled lists.fixes.items lists.axes.items };
}

impl Axis {
    ghost use Rattle.std.specs.Prelude.{◌≡◌, ◌≤◌, ◌<◌, length, IfOk};
    ghost use Rattle.std.specs.Arc.{arc_value};
    ghost use Rattle.std.specs.List.Sorted.{IsStrictlyIncreasing};
    ghost use Rattle.gl_goal.specs.Lists.{AreNamed};
    ghost use Rattle.gl_goal.specs.Code.Lists.{IsHulled};

    /// The axis with these numbers of fixes. The only error is want of memory.
    fn new(alloc: Global, fixes: &[Fix], numbers: Vec<u32>) -> Result<Axis, AllocError>
        requires most { length fixes.now ≤ 90_000 }
        requires some { 0 < length numbers.items }
        requires rising { IsStrictlyIncreasing numbers.items }
        requires named { AreNamed fixes.now numbers.items }
        ensures numbers { IfOk result (λ axis. axis.numbers.items ≡ numbers.items) }
        ensures hulled { IfOk result (λ axis. IsHulled fixes.now axis) }
    {
        let hulls = Hulls::new(alloc, fixes, numbers.as_slice())?;
        Ok(Axis {
            numbers,
            hulls: Arc::new(alloc, hulls)?,
        })
    }

    /// A further axis with the same numbers, which shares the hulls over them. The only error is
    /// want of memory.
    fn again(&self) -> Result<Axis, AllocError>
        ensures numbers { IfOk result (λ axis. axis.numbers.items ≡ self.now.numbers.items) }
        ensures hulls { IfOk result (λ axis. arc_value axis.hulls ≡ arc_value self.now.hulls) }
    {
        Ok(Axis {
            numbers: self.numbers.clone()?,
            hulls: Arc::try_clone(&self.hulls)?,
        })
    }
}

impl Lists {
    ghost use Rattle.std.specs.Prelude.{◌≡◌, ◌≤◌, ◌<◌, ◌↔◌, [], ◌∷◌, length, map, take, IfOk, IsTrue, Some, slice_get, slice_index_or};
    ghost use Rattle.gl_box.specs.Cell.{Covers, ends, spans_of};
    ghost use Rattle.gl_box.specs.Tuple.{places_of};
    ghost use Rattle.gl_goal.specs.Box.{fixes_in, hull_of};
    ghost use Rattle.gl_goal.specs.Hull.{box_of};
    ghost use Rattle.gl_goal.specs.Chain.{fixes_at, greatest_legs, hulls_of, last_of, legs, points_of};
    ghost use Rattle.std.specs.List.Sorted.{IsStrictlyIncreasing};
    ghost use Rattle.gl_goal.specs.Lists.{AreLists, AreNamed};
    ghost use Rattle.gl_goal.specs.Goal.{IsDisordered, IsInTimeOrder, IsTuple, chosen, fix_at, whole_cell};

    /// The lists with these numbers of fixes. The only error is want of memory.
    pub fn new(alloc: Global, fixes: &[Fix], lists: Vec<Vec<u32>>) -> Result<Lists, AllocError>
        requires most { length fixes.now ≤ 90_000 }
        requires lists { AreLists fixes.now (map (λ list. list.items) lists.items) }
        ensures fixes { IfOk result (λ made. made.fixes ≡ fixes.now) }
        ensures lists { IfOk result
            (λ made. made.lists ≡ map (λ list. list.items) lists.items) }
    {
        let mut axes = Vec::with_capacity(alloc, lists.len())?;
        for numbers in lists {
            axes.push(Axis::new(alloc, fixes, numbers)?)?;
        }
        Ok(Lists {
            fixes: Vec::from_slice(alloc, fixes)?,
            axes,
        })
    }

    /// Three lists with the same numbers of fixes, over which the hulls stand once. The only error
    /// is want of memory.
    pub fn thrice(alloc: Global, fixes: &[Fix], numbers: Vec<u32>) -> Result<Lists, AllocError>
        requires most { length fixes.now ≤ 90_000 }
        requires some { 0 < length numbers.items }
        requires rising { IsStrictlyIncreasing numbers.items }
        requires named { AreNamed fixes.now numbers.items }
        ensures fixes { IfOk result (λ made. made.fixes ≡ fixes.now) }
        ensures lists { IfOk result (λ made. made.lists
            ≡ numbers.items ∷ numbers.items ∷ numbers.items ∷ []) }
    {
        let first = Axis::new(alloc, fixes, numbers)?;
        let second = first.again()?;
        let third = first.again()?;
        Ok(Lists {
            fixes: Vec::from_slice(alloc, fixes)?,
            axes: vec![in alloc; first, second, third]?,
        })
    }

    /// How many lists there are.
    pub fn count(&self) -> u8
        ensures count { result ≡ length self.now.lists }
        ensures lists { AreLists self.now.fixes self.now.lists }
    {
        self.axes.len() as u8
    }

    /// How many fixes the list of an axis has.
    pub fn len(&self, axis: u8) -> u32
        requires { axis < length self.now.lists }
        ensures { result ≡ length (slice_index_or self.now.lists axis []) }
    {
        self.axes[axis as usize].numbers.len() as u32
    }

    /// The hulls over the fixes of an axis.
    pub fn hulls(&self, axis: u8) -> &Hulls
        requires { axis < length self.now.lists }
        ensures { result.now
            ≡ fixes_at self.now.fixes (slice_index_or self.now.lists axis []) }
    {
        &self.axes[axis as usize].hulls
    }

    /// The number of the fix at a place of an axis.
    pub fn number(&self, axis: u8, place: u32) -> u32
        requires axis_in { axis < length self.now.lists }
        requires place_in { place < length (slice_index_or self.now.lists axis []) }
        ensures value { result ≡ fix_at self.now.lists axis place }
        ensures named { result < length self.now.fixes }
    {
        self.axes[axis as usize].numbers[place as usize]
    }

    /// The point of the fix that a tuple chooses on an axis.
    pub fn point(&self, axis: u8, tuple: &Tuple) -> Vec3
        requires axis_in { axis < length self.now.lists }
        requires tuple { IsTuple self.now.lists (places_of tuple.now) }
        ensures { slice_get
            (points_of (fixes_at self.now.fixes (chosen self.now.lists (places_of tuple.now)))) axis
            ≡ Some result }
    {
        self.fixes[self.number(axis, tuple.places[axis as usize]) as usize].at
    }

    /// The hull of the fixes that a cell holds on an axis.
    #[inline]
    pub fn hull(&self, axis: u8, cell: &Cell) -> Hull
        requires axis_in { axis < length self.now.lists }
        requires covers { Covers (whole_cell self.now.lists) (spans_of cell.now) }
        ensures { slice_get (hulls_of self.now.fixes self.now.lists (spans_of cell.now)) axis
            ≡ Some (box_of result) }
    {
        self.axes[axis as usize]
            .hulls
            .hull(cell.spans[axis as usize])
    }

    /// Whether the fixes that a tuple chooses are in time order.
    pub fn are_in_order(&self, tuple: &Tuple) -> bool
        requires { IsTuple self.now.lists (places_of tuple.now) }
        ensures { IsTrue result
            ↔ IsInTimeOrder (chosen self.now.lists (places_of tuple.now)) }
    {
        let mut before = 0;
        for axis in 0..self.count() {
            let number = self.number(axis, tuple.places[axis as usize]);
            if number < before {
                return false;
            }
            before = number;
        }
        true
    }

    /// Whether no tuple of a cell is in time order, as the ends of its spans show.
    #[inline]
    pub fn are_disordered(&self, cell: &Cell) -> bool
        requires { Covers (whole_cell self.now.lists) (spans_of cell.now) }
        ensures { IsTrue result ↔ IsDisordered self.now.lists (spans_of cell.now) }
    {
        let mut latest = 0;
        for axis in 0..self.count() {
            let span = cell.spans[axis as usize];
            if self.number(axis, span.hi) < latest {
                return true;
            }
            latest = latest.max(self.number(axis, span.lo));
        }
        false
    }

    /// The way from a point through the fixes that a tuple chooses on the first axes.
    pub fn way(&self, start: Vec3, tuple: &Tuple, axes: u8) -> Way
        requires axes_in { axes ≤ length self.now.lists }
        requires tuple { IsTuple self.now.lists (places_of tuple.now) }
        ensures length { result.length ≡ legs (start ∷ take axes
            (points_of (fixes_at self.now.fixes (chosen self.now.lists (places_of tuple.now))))) }
        ensures end { result.end ≡ last_of start (take axes
            (points_of (fixes_at self.now.fixes (chosen self.now.lists (places_of tuple.now))))) }
    {
        let mut length = 0;
        let mut end = start;
        for axis in 0..axes {
            let next = self.point(axis, tuple);
            length += leg(end, next);
            end = next;
        }
        Way { length, end }
    }

    /// The greatest way from a hull through those of a cell on the first axes.
    #[inline]
    pub fn greatest_way(&self, start: Hull, cell: &Cell, axes: u8) -> GreatestWay
        requires axes_in { axes ≤ length self.now.lists }
        requires covers { Covers (whole_cell self.now.lists) (spans_of cell.now) }
        ensures length { result.length ≡ greatest_legs (box_of start ∷ take axes
            (hulls_of self.now.fixes self.now.lists (spans_of cell.now))) }
        ensures end { box_of result.end ≡ last_of (box_of start) (take axes
            (hulls_of self.now.fixes self.now.lists (spans_of cell.now))) }
    {
        let mut length = 0;
        let mut end = start;
        for axis in 0..axes {
            let next = self.hull(axis, cell);
            length += leg_at_most(&end, &next);
            end = next;
        }
        GreatestWay { length, end }
    }
}
