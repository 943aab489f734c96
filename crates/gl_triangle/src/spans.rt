ghost use Rattle.std.specs.Prelude.{◌<◌, ◌↔◌, length};

use crate::places::Places;
use gl_box::Span;
use gl_goal::{Hulls, max_sq};

/// A corner of a triangle.
#[derive(Clone, Copy, PartialEq, Eq)]
pub(crate) enum Corner {
    First,
    Second,
    Third,
}

/// A span of places for each corner of a triangle.
#[derive(Clone, Copy)]
pub(crate) struct Spans {
    pub first: Span,
    pub second: Span,
    pub third: Span,
}

impl Spans {
    ghost use Rattle.std.specs.Prelude.{◌≡◌, ◌<◌, ◌≤◌, length, MatchOption, map, max, min, slice_set};
    ghost use Rattle.gl_box.specs.Cell.{ends};
    ghost use Rattle.gl_box.specs.Halves.{IsSingle, span_at};
    ghost use Rattle.gl_triangle.specs.Code.Places.{places_in};
    ghost use Rattle.gl_triangle.specs.Code.Spans.{AreWithin, IsWide, all_places, axis_of, cell_of};

    /// The span of all places at each corner.
    pub fn whole(hulls: &Hulls) -> Spans
        requires some { 0 < length hulls.now }
        requires most { length hulls.now ≤ 90_000 }
        ensures within { AreWithin hulls.now result }
        ensures whole { cell_of result ≡ all_places (length hulls.now) }
    {
        let all = Span {
            lo: 0,
            hi: hulls.len() - 1,
        };
        Spans {
            first: all,
            second: all,
            third: all,
        }
    }

    /// The span of a corner.
    #[inline]
    pub fn at(&self, corner: Corner) -> Span
        ensures { ends result ≡ span_at (cell_of self.now) (axis_of corner) }
    {
        match corner {
            Corner::First => self.first,
            Corner::Second => self.second,
            Corner::Third => self.third,
        }
    }

    /// These spans, with another one at a corner.
    #[inline]
    pub fn with(&self, corner: Corner, span: Span) -> Spans
        ensures { cell_of result ≡ slice_set (cell_of self.now) (axis_of corner) (ends span) }
    {
        match corner {
            Corner::First => Spans {
                first: span,
                ..*self
            },
            Corner::Second => Spans {
                second: span,
                ..*self
            },
            Corner::Third => Spans {
                third: span,
                ..*self
            },
        }
    }

    /// The least of the three upper ends.
    #[inline]
    pub fn least_high(&self) -> u32
        ensures { result ≡ min (min self.now.first.hi self.now.second.hi) self.now.third.hi }
    {
        self.first.hi.min(self.second.hi).min(self.third.hi)
    }

    /// The greatest of the three lower ends.
    #[inline]
    pub fn greatest_low(&self) -> u32
        ensures { result ≡ max (max self.now.first.lo self.now.second.lo) self.now.third.lo }
    {
        self.first.lo.max(self.second.lo).max(self.third.lo)
    }

    /// The first place of each span.
    pub fn lowest(&self) -> Places
        ensures { places_in result ≡ map (λ span. span.0) (cell_of self.now) }
    {
        Places {
            first: self.first.lo,
            second: self.second.lo,
            third: self.third.lo,
        }
    }

    /// The corner to cut next: the one whose hull has the longest diagonal, the first of those if
    /// several are equally long. `None` exactly where each span is a single place.
    #[inline]
    pub fn corner_to_cut(&self, hulls: &Hulls) -> Option<Corner>
        requires { AreWithin hulls.now self.now }
        ensures { MatchOption result (IsSingle (cell_of self.now)) (IsWide self.now) }
    {
        let first = diagonal(hulls, self.first);
        let second = diagonal(hulls, self.second);
        let third = diagonal(hulls, self.third);
        if first > 0 && first >= second && first >= third {
            Some(Corner::First)
        } else if second > 0 && second >= third {
            Some(Corner::Second)
        } else if third > 0 {
            Some(Corner::Third)
        } else {
            None
        }
    }
}

/// One more than the squared diagonal of the hull of a span; 0 for a single place.
#[inline]
fn diagonal(hulls: &Hulls, span: Span) -> u64
    requires { span.hi < length hulls.now }
    ensures { (0 < result) ↔ (span.lo < span.hi) }
{
    if span.lo == span.hi {
        return 0;
    }
    let hull = hulls.hull(span);
    max_sq(&hull, &hull) + 1
}
