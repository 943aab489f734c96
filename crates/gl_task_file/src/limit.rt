/// The greatest radius, half width and distance of a task file, in metres.
pub const GREATEST_LENGTH: u32 = 500_000;

/// A metre in centimetres.
pub const METRE: u64 = 100;

/// The last second that a task can name.
pub const LAST_SECOND: u32 = 100_000;

/// The longest wait after the announcement of a start, and the widest window behind it, in seconds.
pub const LONGEST_WAIT: u32 = 3_600;

pub const WIDEST_WINDOW: u32 = 3_600;

/// The greatest altitude and the greatest loss of altitude, in metres.
pub const GREATEST_ALTITUDE: u32 = 32_767;

/// The greatest level of engine noise.
pub const GREATEST_NOISE: u32 = 999;

/// The most points that a running engine costs.
pub const MOST_POINTS: u32 = 1_000;

/// The loss in metres, and the closing in metres, where the file doesn't say them.
pub const USUAL_LOSS: u32 = 1_000;

pub const USUAL_CLOSING: u32 = 1_000;

/// The greatest radial, in thousandths of a degree.
pub const GREATEST_RADIAL: u32 = 359_999;

/// The greatest handicap, in thousandths.
pub const GREATEST_HANDICAP: u32 = 2_000;

/// The most lists that a task asks for.
pub const MOST_LISTS: usize = 2;

/// The most zones of a task.
pub const MOST_ZONES: usize = 8;

/// The most entrants.
pub const MOST_ENTRANTS: usize = 200;
