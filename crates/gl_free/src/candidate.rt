use crate::far::Far;
use gl_box::Span;

/// A span of inner fixes with the farthest end from it, and what both legs on that side of the
/// middle span are at most, with one more.
#[derive(Clone, Copy)]
pub(crate) struct Candidate {
    pub span: Span,
    pub far: Far,
    pub most: u64,
}

/// A span of inner fixes that is to be looked at, with the farthest end from a span that holds it.
#[derive(Clone, Copy)]
pub(crate) struct Inner {
    pub span: Span,
    pub far: Far,
}
