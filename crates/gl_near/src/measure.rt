ghost use Rattle.std.specs.Prelude.{◌≡◌, ◌≤◌, ◌<◌, ◌↔◌, length, pos, ◌<ℤ◌, ◌-ℤ◌, IsTrue, MatchOption, ℕ};
ghost use Rattle.gl_box.specs.Cell.{Covers, ends, spans_of};
ghost use Rattle.gl_box.specs.Halves.{span_at};
ghost use Rattle.gl_goal.specs.Hull.{box_of};
ghost use Rattle.gl_sphere.specs.Distance.{distance};
ghost use Rattle.gl_near.specs.Pairing.{AreApart, AreFixesAt, Fits, IsAfter, IsApart, IsFixAt, IsReached, least, least_distance, whole_cell};
ghost use Rattle.gl_near.specs.Pairs.{pairing_of};

use crate::pairs::{FlightAndPlace, Pairs, TwoFlights};
use gl_box::{Cell, Span};
use gl_goal::{Hull, min_sq};
use gl_sphere::{Vec3, dist};

/// Whether a second is more than so many seconds after another.
#[inline]
fn is_after(second: i32, other: i32, apart: u32) -> bool
    ensures { IsTrue result ↔ pos apart <ℤ (second -ℤ other) }
{
    i64::from(second) - i64::from(other) > i64::from(apart)
}

/// The least distance of two points, one in each hull, in centimetres.
#[inline]
fn between(hull: &Hull, other: &Hull) -> u64
    ensures { result ≡ least_distance (box_of hull.now) (box_of other.now) }
{
    dist(min_sq(hull, other))
}

/// The distance of two points along the sphere, in centimetres.
fn distance_of(point: Vec3, other: Vec3) -> u64
    ensures { result ≡ distance point other }
{
    between(&Hull::point(point), &Hull::point(other))
}

/// The span of a cell on an axis.
#[inline]
fn span_of(cell: &Cell, axis: usize) -> Span
    requires { axis < cell.now.axes }
    ensures { ends result ≡ span_at (spans_of cell.now) axis }
{
    cell.spans[axis]
}

impl TwoFlights {
    /// Whether a fix of the first flight is more than `apart` seconds after one of the other.
    #[inline]
    fn is_one_after(&self, first: u32, second: u32) -> bool
        requires within { first < length self.now.one }
        requires other_within { second < length self.now.other }
        ensures { IsTrue result
            ↔ IsAfter self.now.one self.now.other self.now.apart first second }
    {
        is_after(
            self.one.fix(first).second,
            self.other.fix(second).second,
            self.apart,
        )
    }

    /// Whether a fix of the other flight is more than `apart` seconds after one of the first.
    #[inline]
    fn is_other_after(&self, second: u32, first: u32) -> bool
        requires within { first < length self.now.one }
        requires other_within { second < length self.now.other }
        ensures { IsTrue result
            ↔ IsAfter self.now.other self.now.one self.now.apart second first }
    {
        is_after(
            self.other.fix(second).second,
            self.one.fix(first).second,
            self.apart,
        )
    }

    /// Whether the first fix of one span is more than `apart` seconds after the last of the other.
    #[inline]
    fn are_apart(&self, span: Span, other_span: Span) -> bool
        requires within { span.hi < length self.now.one }
        requires other_within { other_span.hi < length self.now.other }
        ensures { IsTrue result
            ↔ AreApart self.now.one self.now.other self.now.apart (ends span) (ends other_span) }
    {
        self.is_one_after(span.lo, other_span.hi) || self.is_other_after(other_span.lo, span.hi)
    }

    /// The distance of a pair that fits, or `None` where it isn't there or doesn't fit.
    fn distance(&self, first: u32, second: u32) -> Option<u64>
        ensures { MatchOption result
            ((total : ℕ) → AreFixesAt self.now.one self.now.other self.now.apart total first second
            → ⊥)
            (λ total. AreFixesAt self.now.one self.now.other self.now.apart total first second) }
    {
        if first >= self.one.len() || second >= self.other.len() {
            return None;
        }
        if self.is_one_after(first, second) || self.is_other_after(second, first) {
            return None;
        }
        Some(distance_of(self.one.fix(first).at, self.other.fix(second).at))
    }
}

impl FlightAndPlace {
    /// The distance of a fix from the place, or `None` where there is no such fix, or where the
    /// second number isn't 0.
    fn distance(&self, first: u32, second: u32) -> Option<u64>
        ensures { MatchOption result
            ((total : ℕ) → IsFixAt self.now.flight self.now.point total first second → ⊥)
            (λ total. IsFixAt self.now.flight self.now.point total first second) }
    {
        if first >= self.flight.len() || second != 0 {
            return None;
        }
        Some(distance_of(self.flight.fix(first).at, self.point))
    }
}

impl Pairs {
    /// The distance of a pair that fits, in centimetres, or `None` where it isn't there or doesn't
    /// fit.
    pub fn distance(&self, first: u32, second: u32) -> Option<u64>
        ensures { MatchOption result
            (Fits (pairing_of self.now) first second → ⊥)
            (λ total. IsReached (pairing_of self.now) total first second) }
    {
        match self {
            Pairs::Two(two) => two.distance(first, second),
            Pairs::One(one) => one.distance(first, second),
        }
    }

    /// Whether the cell has no pair that fits, as the seconds at the ends of its spans show.
    #[inline]
    pub fn is_apart(&self, cell: &Cell) -> bool
        requires { Covers (whole_cell (pairing_of self.now)) (spans_of cell.now) }
        ensures { IsTrue result ↔ IsApart (pairing_of self.now) (spans_of cell.now) }
    {
        match self {
            Pairs::Two(two) => two.are_apart(span_of(cell, 0), span_of(cell, 1)),
            Pairs::One(_) => false,
        }
    }

    /// What no pair of the cell is nearer than, in centimetres: how far its hulls are apart.
    #[inline]
    pub fn least(&self, cell: &Cell) -> u64
        requires { Covers (whole_cell (pairing_of self.now)) (spans_of cell.now) }
        ensures { result ≡ least (pairing_of self.now) (spans_of cell.now) }
    {
        match self {
            Pairs::Two(two) => {
                let hull = two.one.hull(span_of(cell, 0));
                between(&hull, &two.other.hull(span_of(cell, 1)))
            }
            Pairs::One(one) => {
                let hull = one.flight.hull(span_of(cell, 0));
                between(&hull, &Hull::point(one.point))
            }
        }
    }
}
