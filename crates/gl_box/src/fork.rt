ghost use Rattle.std.specs.Prelude.{◌≡◌, ◌+◌, ◌/◌, ◌<◌};

use crate::span::Span;

/// A cut on the way to a cell: the span that was cut. The way goes on in the lower half, and the
/// upper one is still open, or it goes on in the upper half.
#[derive(Clone, Copy, Debug, PartialEq, Eq)]
pub struct Fork {
    pub axis: usize,
    pub lo: u32,
    pub hi: u32,
    /// Whether the way goes on in the lower half.
    pub is_lower: bool,
    pub ghost wide: { lo < hi },
}

impl Fork {
    /// The span that was cut.
    #[inline]
    pub fn whole(&self) -> Span
        ensures lo { result.lo ≡ self.now.lo }
        ensures hi { result.hi ≡ self.now.hi }
    {
        Span {
            lo: self.lo,
            hi: self.hi,
        }
    }

    /// The span of the upper half.
    #[inline]
    pub fn upper(&self) -> Span
        ensures lo { result.lo ≡ (self.now.lo + self.now.hi) / 2 + 1 }
        ensures hi { result.hi ≡ self.now.hi }
    {
        Span {
            lo: self.lo + (self.hi - self.lo) / 2 + 1,
            hi: self.hi,
        }
    }
}
