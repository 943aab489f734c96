ghost use Rattle.std.specs.Prelude.{◌<◌, ◌^◌};

use gl_box::Span;

/// The greatest distance, in centimetres, from a fix in one span of an axis to a fix in a span of
/// the next one.
#[derive(Clone, Copy, Debug)]
pub struct Leg {
    pub from: Span,
    pub to: Span,
    pub most: u64,
    pub ghost below: { most < 2 ^ 40 },
}

impl Leg {
    /// A leg of no length from the first place to itself, for goals that keep no legs.
    pub(crate) fn none() -> Leg {
        let first = Span::point(0);
        Leg {
            from: first,
            to: first,
            most: 0,
        }
    }
}
