use crate::entrant::Entrant;
use gl_sphere::Grid;
use gl_text::Items;
use jiff_core::civil::Date;

/// The kind of a task; the minimum of an area task in seconds, if it is known.
#[derive(Clone, Copy, Debug, PartialEq, Eq)]
pub enum Kind {
    Racing,
    Area { minimum: Option<u32> },
}

/// A line of a start or a finish: its middle, the place ahead, and its half width in metres.
#[derive(Clone, Copy, Debug)]
pub struct Gate {
    pub at: Grid,
    pub towards: Grid,
    pub half: u32,
}

/// Which way a sector lies, in thousandths of a degree clockwise from north.
#[derive(Clone, Copy, Debug, PartialEq, Eq)]
pub enum Axis {
    /// About this direction.
    About(u32),
    /// About this direction or about the opposite one, which is for the scorer to say.
    Either(u32),
}

/// A sector between two radii in metres, so many thousandths of a degree to each side of its axis.
#[derive(Clone, Copy, Debug, PartialEq, Eq)]
pub struct Sector {
    pub inner: u32,
    pub outer: u32,
    pub half_angle: u32,
    pub axis: Axis,
}

/// A part of a zone: a circle of a radius in metres, or a sector.
#[derive(Clone, Copy, Debug, PartialEq, Eq)]
pub enum Part {
    Circle(u32),
    Sector(Sector),
}

/// A zone about its centre: a part, and perhaps a second one.
#[derive(Clone, Copy, Debug)]
pub struct Zone {
    pub at: Grid,
    pub part: Part,
    pub second: Option<Part>,
}

/// A finish: a ring of a radius in metres, or a line.
#[derive(Clone, Copy, Debug)]
pub enum Finish {
    Ring { at: Grid, radius: u32 },
    Gate(Gate),
}

/// All that is taken into a task file. What is left out is for the scorer to fill in, and so are
/// when the start opens and closes and the end of the day.
#[derive(Debug, Drop)]
pub struct Draft {
    pub date: Option<Date>,
    pub kind: Kind,
    pub start: Gate,
    pub zones: Items<Zone>,
    pub finish: Finish,
    pub entrants: Items<Entrant>,
}
