/// The radius of the sphere, in centimetres.
pub const RADIUS: u64 = 637_100_000;

/// The greatest squared chord of two points whose components are within the radius: 12 times the
/// radius squared.
pub const GREATEST_SQUARE: u64 = 4_870_756_920_000_000_000;

/// The written distance of two points with the greatest squared chord, in centimetres.
pub const GREATEST_DISTANCE: u64 = 7_460_377_693;

/// What the sine and the cosine count as one.
pub const UNIT: u64 = 10_000_000_000_000_000;

/// Half a circle in radians, counted in `UNIT`.
pub const PI: u64 = 31_415_926_535_897_932;

/// 90 degrees in 1/100,000 minute.
pub const QUARTER_TURN: u64 = 540_000_000;

/// 180 degrees in 1/100,000 minute.
pub const HALF_TURN: u64 = 1_080_000_000;
