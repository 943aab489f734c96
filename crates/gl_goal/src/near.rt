ghost use Rattle.std.specs.Prelude.{◌≡◌, ◌<◌, ◌≤◌, ◌+◌, ◌*◌, length, nat_le, MatchOption};
ghost use Rattle.gl_box.specs.Cell.{ends};
ghost use Rattle.gl_goal.specs.Box.{fixes_in, hull_of};
ghost use Rattle.gl_goal.specs.Chords.{IsChord, least_chord};
ghost use Rattle.gl_goal.specs.Hull.{box_of};
ghost use Rattle.gl_goal.specs.Near.{IsLastNear, IsLastNearBox, IsNoneNear, IsNoneNearBox};
ghost use Rattle.gl_goal.specs.Code.Boxes.{both};

use crate::chords::min_sq;
use crate::hull::Hull;
use crate::hulls::Hulls;
use gl_box::Span;
use gl_sphere::{GREATEST_SQUARE, Vec3, dist};

/// Whether a chord with this square, in square centimetres, is longer than so many centimetres. The
/// arc over it is then longer too.
#[inline]
fn is_longer(square: u64, limit: u64) -> bool
    requires { square ≤ GREATEST_SQUARE }
    ensures { result ≡ nat_le ((limit + 1) * (limit + 1)) square }
{
    let next = limit.saturating_add(1);
    next.saturating_mul(next) <= square
}

impl Hulls {
    /// The last place of a span whose fix is at most `limit` centimetres from a point, if there is
    /// one. Takes no memory.
    pub fn last_near(&self, span: Span, point: Vec3, limit: u64) -> Option<u32>
        requires { span.hi < length self.now }
        ensures { MatchOption result
            (IsNoneNear self.now point limit (ends span))
            (IsLastNear self.now point limit (ends span)) }
    {
        let from = Hull::point(point);
        self.last_near_in(self.whole(), span, &from, limit)
    }

    /// The last place of a span whose fix is at most `limit` centimetres from some point of a hull,
    /// if there is one. Takes no memory.
    pub fn last_near_hull(&self, span: Span, hull: &Hull, limit: u64) -> Option<u32>
        requires { span.hi < length self.now }
        ensures { MatchOption result
            (IsNoneNearBox self.now (box_of hull.now) limit (ends span))
            (IsLastNearBox self.now (box_of hull.now) limit (ends span)) }
    {
        self.last_near_in(self.whole(), span, hull, limit)
    }

    /// The last such place that lies in both of two spans. The first of them is halved, again and
    /// again, and what is too far from the hull, or outside the second, is passed over.
    fn last_near_in(&self, node: Span, span: Span, from: &Hull, limit: u64) -> Option<u32>
        requires { node.hi < length self.now }
        ensures { MatchOption result
            (IsNoneNearBox self.now (box_of from.now) limit (both (ends node) (ends span)))
            (IsLastNearBox self.now (box_of from.now) limit (both (ends node) (ends span))) }
    {
        if node.hi < span.lo || span.hi < node.lo {
            return None;
        }
        let square = self.least_square(from, node);
        if is_longer(square, limit) {
            return None;
        }
        if node.lo == node.hi {
            return if dist(square) <= limit {
                Some(node.lo)
            } else {
                None
            };
        }
        let middle = node.lo + (node.hi - node.lo) / 2;
        let lower = Span {
            lo: node.lo,
            hi: middle,
        };
        let upper = Span {
            lo: middle + 1,
            hi: node.hi,
        };
        match self.last_near_in(upper, span, from, limit) {
            Some(place) => Some(place),
            None => self.last_near_in(lower, span, from, limit),
        }
    }

    /// The square of the least chord from a hull to the hull of a span, in square centimetres.
    #[inline]
    fn least_square(&self, from: &Hull, span: Span) -> u64
        requires { span.hi < length self.now }
        ensures value { result
            ≡ least_chord (box_of from.now) (hull_of (fixes_in self.now (ends span))) }
        ensures bound { result ≤ GREATEST_SQUARE }
        ensures reached { IsChord (box_of from.now)
            (hull_of (fixes_in self.now (ends span))) result }
    {
        match self.kept(span) {
            Some(hull) => min_sq(from, hull),
            None => min_sq(from, &self.hull(span)),
        }
    }
}
