ghost use Rattle.std.specs.Prelude.{◌≡◌, []};

use crate::polygon::Polygon;
use gl_sphere::Vec3;
use gl_text::Items;
use std::alloc::Global;

/// A circle on the sphere: the point of its centre, and its radius in centimetres.
#[derive(Clone, Copy, Debug, PartialEq, Eq)]
pub struct Circle {
    pub centre: Vec3,
    pub radius: u64,
}

/// The shape of a volume on the map.
#[derive(Debug, Drop)]
pub enum Shape {
    /// A polygon in the plane of longitude and latitude.
    Polygon(Polygon),
    /// A circle.
    Circle(Circle),
}

/// A volume of airspace: from its floor to its ceiling, both inside, in metres, over its shape.
#[derive(Debug, Drop)]
pub struct Volume {
    pub floor: i32,
    pub ceiling: i32,
    pub shape: Shape,
}

/// The volumes that flights may not enter, in the order of their text.
#[derive(Debug, Drop)]
pub struct Airspace {
    pub volumes: Items<Volume>,
}

/// Airspace without a volume. It takes no memory.
pub fn empty(alloc: Global) -> Airspace
    ensures { result.volumes ≡ [] }
{
    Airspace {
        volumes: Items::from_vec(Vec::new(alloc)),
    }
}
