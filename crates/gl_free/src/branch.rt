ghost use Rattle.std.specs.Prelude.{◌≤◌, ◌^◌};

use gl_box::Span;

/// The least and the greatest number of the fixes in a span of the order by place, and how long a
/// way to one of them is at most, with one more.
#[derive(Clone, Copy)]
pub(crate) struct Branch {
    pub span: Span,
    pub numbers: Span,
    pub most: u64,
    ghost limited: { most ≤ 2 ^ 40 },
}
