/// Some candidates of a flank, from a place of its list up to another, and what the legs there are
/// at most, with one more.
#[derive(Clone, Copy)]
pub(crate) struct Part {
    pub from: usize,
    pub to: usize,
    pub most: u64,
}

/// The inner fix and the end of the greatest legs on one side of the middle, with one more than
/// their sum: 0 where there are none.
#[derive(Clone, Copy)]
pub(crate) struct Arm {
    pub most: u64,
    pub inner: u32,
    pub end: u32,
}

/// The greatest legs on both sides of a middle span.
#[derive(Clone, Copy)]
pub(crate) struct Arms {
    pub before: Arm,
    pub after: Arm,
}
