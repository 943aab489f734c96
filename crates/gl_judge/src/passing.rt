/// Where a flight passes a line or enters a ring: the number of the fix behind it, and the time in
/// seconds.
#[derive(Clone, Copy, Debug)]
pub(crate) struct Passing {
    pub fix: usize,
    pub second: i32,
}
