use crate::ends::Ends;
use crate::far::Far;
use gl_box::Span;

/// The farthest of some ends from a span, as it was found.
#[derive(Clone, Copy)]
pub(crate) struct Known {
    pub span: Span,
    pub ends: Ends,
    pub far: Far,
}
