/// A stretch of a flight: the fixes from the first number up to but without the second.
#[derive(Clone, Copy, Debug, PartialEq, Eq)]
pub struct Stretch {
    /// The number of the first fix.
    pub from: usize,
    /// The number of the fix behind the last one.
    pub to: usize,
}
