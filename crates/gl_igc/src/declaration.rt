ghost use Rattle.std.specs.Prelude.{◌≤◌};

use gl_sphere::Grid;

/// How many places a declaration has: take-off, start, up to 99 turn points, finish and landing.
#[derive(Clone, Copy)]
pub struct Count {
    pub places: usize,
    pub ghost at_least_four: { 4 ≤ places },
    pub ghost at_most_103: { places ≤ 103 },
}

/// What is known of the heading, the first C line.
#[derive(Clone, Copy)]
pub enum Heading {
    /// There was no C line so far.
    Awaited,
    /// It declares so many places.
    Read(Count),
    /// It, or a place after it, doesn't read, so that nothing is declared.
    Damaged,
}

/// The declaration of the lines so far.
#[derive(Drop)]
pub struct Declaration {
    pub heading: Heading,
    /// The places that were read.
    pub points: Vec<Grid>,
}
