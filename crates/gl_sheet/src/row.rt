/// What became of an entrant.
#[derive(Clone, Copy, Debug, PartialEq, Eq)]
pub enum Outcome {
    Finished,
    Outlanded,
    NoStart,
    NotLaunched,
    /// The recording was refused, for the reason with this number.
    Refused(u32),
}

/// What a list column shows.
#[derive(Clone, Copy, Debug, PartialEq, Eq)]
pub enum Listed {
    /// The task doesn't ask for the list.
    Unasked,
    /// There is no flight for the list.
    Empty,
    /// The distance in centimetres.
    Total(u64),
}

/// What the sheet says of one entrant.
#[derive(Clone, Copy, Debug, PartialEq, Eq)]
pub struct Row {
    pub outcome: Outcome,
    /// The marking distance in metres, shown where there was a start.
    pub metres: u32,
    /// The marking time in seconds, shown of a finisher.
    pub seconds: u32,
    /// The penalty in points.
    pub penalty: u32,
    /// The points, less the penalty.
    pub points: u32,
    /// The free distance.
    pub free: Listed,
    /// The triangle.
    pub triangle: Listed,
}
