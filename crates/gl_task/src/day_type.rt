use gl_sphere::Vec3;
use gl_zone::Line;

/// The kind of a task.
#[derive(Clone, Copy, Debug, PartialEq, Eq)]
pub enum Kind {
    /// The zones are flown in their order, as fast as can be.
    Racing,
    /// As far as can be through the zones; a flight below the minimum, in seconds, counts as long
    /// as
    /// that.
    Area { minimum: u32 },
}

/// Where a task ends.
#[derive(Clone, Copy, Debug, PartialEq, Eq)]
pub enum Finish {
    /// At most the radius, in centimetres, from a point.
    Ring { at: Vec3, radius: u64 },
    /// Over a line.
    Gate(Line),
}
