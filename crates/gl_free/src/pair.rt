/// A first and a last fix of which the last is too low.
#[derive(Clone, Copy)]
pub(crate) struct Pair {
    pub first: u32,
    pub last: u32,
}
