ghost use Rattle.std.specs.Prelude.{◌≡◌, ◌↔◌, ◌+◌, ◌<◌, ◌≤◌, ◌^◌, IsTrue, length};
ghost use Rattle.gl_box.specs.Cell.{ends};
ghost use Rattle.gl_free.specs.Code.Farthest.{IsNode};
ghost use Rattle.gl_free.specs.Code.Places.{IsMost, chord, leg};

use gl_box::Span;
use gl_goal::{Hull, Hulls, max_sq};
use gl_sphere::{GREATEST_SQUARE, dist};

/// A span of places and the hull of the fixes there.
#[derive(Clone, Copy)]
pub(crate) struct Node {
    pub span: Span,
    pub hull: Hull,
}

impl Node {
    /// The node of a span.
    #[inline]
    pub(crate) fn new(hulls: &Hulls, span: Span) -> Node
        requires { span.hi < length hulls.now }
        ensures span { result.span ≡ span }
        ensures node { IsNode hulls.now result }
    {
        Node {
            span,
            hull: hulls.hull(span),
        }
    }

    /// Whether it has a single place.
    #[inline]
    pub(crate) fn is_single(&self) -> bool
        ensures { IsTrue result ↔ (self.now.span.lo ≡ self.now.span.hi) }
    {
        self.span.lo == self.span.hi
    }

    /// The square of the greatest chord from a fix of a span to one of the node.
    #[inline]
    pub(crate) fn chord_from(&self, hulls: &Hulls, span: Span) -> u64
        requires node { IsNode hulls.now self.now }
        requires inside { span.hi < length hulls.now }
        ensures most { IsMost (chord hulls.now) (ends span) (ends self.now.span) result }
        ensures bound { result ≤ GREATEST_SQUARE }
    {
        max_sq(&hulls.hull(span), &self.hull)
    }

    /// The greatest distance from a fix of a span to one of the node.
    #[inline]
    pub(crate) fn leg_from(&self, hulls: &Hulls, span: Span) -> u64
        requires node { IsNode hulls.now self.now }
        requires inside { span.hi < length hulls.now }
        ensures most { IsMost (leg hulls.now) (ends span) (ends self.now.span) result }
        ensures bound { result < 2 ^ 40 }
    {
        dist(self.chord_from(hulls, span))
    }
}

/// The halves of a span of two places or more.
#[inline]
pub(crate) fn halves(span: Span) -> (Span, Span)
    requires { span.lo < span.hi }
    ensures first { result.0.lo ≡ span.lo }
    ensures next { result.1.lo ≡ result.0.hi + 1 }
    ensures last { result.1.hi ≡ span.hi }
{
    let middle = span.lo + (span.hi - span.lo) / 2;
    let lower = Span {
        lo: span.lo,
        hi: middle,
    };
    let upper = Span {
        lo: middle + 1,
        hi: span.hi,
    };
    (lower, upper)
}
