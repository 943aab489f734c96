ghost use Rattle.std.specs.Prelude.{◌≤◌, ◌<◌, length};
ghost use Rattle.gl_zone.specs.Limits.{greatest_length, least_length, most_parts, whole_turn};

use gl_sphere::Vec3;
use gl_text::Items;

/// The most parts that a zone has.
pub const MOST_PARTS: usize = 4;

/// A whole turn, in thousandths of a degree. Every radial is below it.
pub const WHOLE_TURN: u32 = 360_000;

/// The points at most the radius from the centre.
#[derive(Clone, Copy, Debug, PartialEq, Eq)]
pub struct Cylinder {
    pub centre: Vec3,
    /// In centimetres, from 100 to 50,000,000.
    pub radius: u64,
    pub ghost radius_at_least: { least_length ≤ radius },
    pub ghost radius_at_most: { radius ≤ greatest_length },
}

/// The points between two distances from the centre and between two radials, clockwise from the
/// first to the second.
///
/// Where both radials are the same, every direction counts.
#[derive(Clone, Copy, Debug, PartialEq, Eq)]
pub struct Sector {
    pub centre: Vec3,
    /// The direction of north at the centre.
    pub north: Vec3,
    /// The direction of east at the centre.
    pub east: Vec3,
    /// The least distance, in centimetres.
    pub inner: u64,
    /// The greatest distance, in centimetres: from 100 to 50,000,000, and at least `inner`.
    pub outer: u64,
    /// The first radial, in thousandths of a degree clockwise from north, below 360,000.
    pub from: u32,
    /// The second radial.
    pub to: u32,
    pub ghost outer_at_least: { least_length ≤ outer },
    pub ghost outer_at_most: { outer ≤ greatest_length },
    pub ghost ordered: { inner ≤ outer },
    pub ghost from_in_turn: { from < whole_turn },
    pub ghost to_in_turn: { to < whole_turn },
}

/// A part of a zone.
#[derive(Clone, Copy, Debug, PartialEq, Eq)]
pub enum Part {
    Cylinder(Cylinder),
    Sector(Sector),
}

/// A zone of a task: the points that one of its parts holds.
#[derive(Debug, Drop)]
pub struct Zone {
    /// The point that the task is measured to.
    pub centre: Vec3,
    /// From one part to four.
    pub parts: Items<Part>,
    pub ghost some_part: { 1 ≤ length parts },
    pub ghost at_most_four: { length parts ≤ most_parts },
}
