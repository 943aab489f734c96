use crate::hull::Hull;
use gl_box::Span;

/// A span of places and the hull of the fixes there.
#[derive(Clone, Copy, Debug)]
pub(crate) struct Entry {
    pub span: Span,
    pub hull: Hull,
}
