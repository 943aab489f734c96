use crate::air_line::AirLine;
use crate::polygon::Polygon;
use crate::volume::{Circle, Shape, Volume};
use gl_sphere::{Grid, vector};
use std::alloc::{AllocError, Global};

/// The least number of corners of a polygon.
const LEAST_CORNERS: usize = 3;

/// What the lines of a volume have said so far.
#[derive(Drop)]
pub struct Draft {
    pub floor: Option<i32>,
    pub ceiling: Option<i32>,
    pub centre: Option<Grid>,
    pub corners: Vec<Grid>,
    pub circle: Option<Circle>,
}

impl Draft {
    ghost use Rattle.std.specs.Prelude.{◌≡◌, ◌++◌, [], ◌∷◌, List, Some, IsTrue, IsNone, IfOk, IfSome, not};
    ghost use Rattle.gl_sphere.specs.PlaceText.{place_of};
    ghost use Rattle.gl_airspace.specs.Line.{Floor, Ceiling, Centre, Corner, Circles};
    ghost use Rattle.gl_airspace.specs.Code.Said.{said};
    ghost use Rattle.gl_airspace.specs.Volumes.{Reading, fits, is_complete};
    ghost use Rattle.gl_airspace.specs.Draft.{IsVolume};
    ghost use Rattle.gl_airspace.specs.Code.Parts.{Says};

    /// Before the first line of a volume.
    pub fn new(alloc: Global) -> Draft
        ensures { Says result [] }
    {
        Draft {
            floor: None,
            ceiling: None,
            centre: None,
            corners: Vec::new(alloc),
            circle: None,
        }
    }

    /// Takes the floor, where none was said. Answers whether it did.
    fn take_floor(&mut self, metres: i32) -> bool
        ensures fits { (lines : List Reading) → Says self.old lines
            → result ≡ fits lines (Some (Floor metres)) }
        ensures says { (lines : List Reading) → Says self.old lines
            → IsTrue result → Says self.new (lines ++ Some (Floor metres) ∷ []) }
    {
        if self.floor.is_some() {
            return false;
        }
        self.floor = Some(metres);
        true
    }

    /// Takes the ceiling, where none was said. Answers whether it did.
    fn take_ceiling(&mut self, metres: i32) -> bool
        ensures fits { (lines : List Reading) → Says self.old lines
            → result ≡ fits lines (Some (Ceiling metres)) }
        ensures says { (lines : List Reading) → Says self.old lines
            → IsTrue result → Says self.new (lines ++ Some (Ceiling metres) ∷ []) }
    {
        if self.ceiling.is_some() {
            return false;
        }
        self.ceiling = Some(metres);
        true
    }

    /// Takes a centre.
    fn take_centre(&mut self, place: Grid)
        ensures { (lines : List Reading) → Says self.old lines
            → Says self.new (lines ++ Some (Centre (place_of place)) ∷ []) }
    {
        self.centre = Some(place);
    }

    /// Takes a corner, where no circle was said. Answers whether it did.
    fn take_corner(&mut self, place: Grid) -> Result<bool, AllocError>
        ensures fits { (lines : List Reading) → Says self.old lines
            → IfOk result (λ fit. fit ≡ fits lines (Some (Corner (place_of place)))) }
        ensures says { (lines : List Reading) → Says self.old lines
            → IfOk result (λ fit. IsTrue fit
            → Says self.new (lines ++ Some (Corner (place_of place)) ∷ [])) }
    {
        if self.circle.is_some() {
            return Ok(false);
        }
        self.corners.push(place)?;
        Ok(true)
    }

    /// Takes a circle round the last centre, where there is one and no shape was said. Answers
    /// whether it did.
    fn take_circle(&mut self, radius: u64) -> bool
        ensures fits { (lines : List Reading) → Says self.old lines
            → result ≡ fits lines (Some (Circles radius)) }
        ensures says { (lines : List Reading) → Says self.old lines
            → IsTrue result → Says self.new (lines ++ Some (Circles radius) ∷ []) }
    {
        if self.circle.is_some() || !self.corners.is_empty() {
            return false;
        }
        let Some(place) = self.centre else {
            return false;
        };
        let centre = vector(place);
        self.circle = Some(Circle { centre, radius });
        true
    }

    /// Takes a line of the volume where it fits behind the lines before it. Answers whether it did.
    pub fn take(&mut self, line: AirLine) -> Result<bool, AllocError>
        ensures fits { (lines : List Reading) → Says self.old lines
            → IfOk result (λ fit. fit ≡ fits lines (Some (said line))) }
        ensures says { (lines : List Reading) → Says self.old lines
            → IfOk result (λ fit. IsTrue fit → Says self.new (lines ++ Some (said line) ∷ [])) }
    {
        match line {
            AirLine::PassedOver => Ok(true),
            AirLine::Begins => Ok(true),
            AirLine::Names => Ok(true),
            AirLine::Floor(metres) => Ok(self.take_floor(metres)),
            AirLine::Ceiling(metres) => Ok(self.take_ceiling(metres)),
            AirLine::Centre(place) => {
                self.take_centre(place);
                Ok(true)
            }
            AirLine::Corner(place) => self.take_corner(place),
            AirLine::Circles(radius) => Ok(self.take_circle(radius)),
        }
    }

    /// Whether the volume has a floor, a ceiling, and a circle or three corners.
    pub fn is_complete(&self) -> bool
        ensures { (lines : List Reading) → Says self.now lines → result ≡ is_complete lines }
    {
        self.floor.is_some()
            && self.ceiling.is_some()
            && (self.circle.is_some() || self.corners.len() >= LEAST_CORNERS)
    }

    /// The volume that a complete draft makes; `None` where it isn't complete.
    pub fn into_volume(self) -> Option<Volume>
        ensures none { (lines : List Reading) → Says self lines
            → IsNone result → IsTrue (not (is_complete lines)) }
        ensures some { (lines : List Reading) → Says self lines
            → IfSome result (λ volume. IsTrue (is_complete lines) × IsVolume lines volume) }
    {
        let floor = self.floor?;
        let ceiling = self.ceiling?;
        let shape = match self.circle {
            Some(circle) => Shape::Circle(circle),
            None if self.corners.len() >= LEAST_CORNERS => {
                Shape::Polygon(Polygon::new(self.corners))
            }
            None => return None,
        };
        Some(Volume {
            floor,
            ceiling,
            shape,
        })
    }
}
