ghost use Rattle.std.specs.Prelude.{◌≤◌};

/// The series of the sine of an angle from 0 to 90 degrees, as far as it was added up: the square
/// of
/// the angle, the last term and the sum.
#[derive(Clone, Copy)]
pub struct Series {
    pub(crate) square: u64,
    pub(crate) term: u64,
    pub(crate) sum: u64,
    ghost square_in_range: { square ≤ 30_000_000_000_000_000 },
    ghost term_in_sum: { term ≤ sum },
    ghost sum_in_range: { sum ≤ 20_000_000_000_000_000 },
}
