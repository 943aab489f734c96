ghost use Rattle.std.specs.Prelude.{◌↔◌, IsTrue};
ghost use Rattle.gl_box.specs.Cell.{ends};
ghost use Rattle.gl_free.specs.Code.Ends.{IsInside, IsPast};

use gl_box::Span;

/// The side of the middle fix on which the first two fixes stand, or the last two.
#[derive(Clone, Copy, PartialEq, Eq)]
pub(crate) enum Side {
    Before,
    After,
}

impl Side {
    /// Whether no place of a span may stand on this side of a place of another.
    #[inline]
    pub(crate) fn is_out(self, span: Span, of: Span) -> bool
        ensures { IsTrue result ↔ IsPast self (ends span) (ends of) }
    {
        match self {
            Side::Before => span.lo > of.hi,
            Side::After => span.hi < of.lo,
        }
    }

    /// Whether each place of a span may stand on this side of some place of another.
    #[inline]
    pub(crate) fn is_inside(self, span: Span, of: Span) -> bool
        ensures { IsTrue result ↔ IsInside self (ends span) (ends of) }
    {
        match self {
            Side::Before => span.hi <= of.hi,
            Side::After => span.lo >= of.lo,
        }
    }
}
