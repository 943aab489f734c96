use gl_sphere::Grid;
use std::marker::Model;

/// Latitudes and longitudes that some places lie between, in 1/100,000 minute, both ends included.
#[derive(Clone, Copy, Debug)]
pub struct Bounds {
    pub south: i32,
    pub north: i32,
    pub west: i32,
    pub east: i32,
}

impl Bounds {
    ghost use Rattle.std.specs.Prelude.{◌≡◌, All};
    ghost use Rattle.gl_sphere.specs.declared.place.Grid.{Grid};
    ghost use Rattle.gl_airspace.specs.Bounds.{IsBounded};
    ghost use Rattle.gl_airspace.specs.Code.Bounds.{is_beside, is_between, is_within_latitudes};

    /// The same, widened to a place.
    fn with(self, place: Grid) -> Bounds
        ensures place { IsBounded result place }
        ensures wider { (other : Grid) → IsBounded self other → IsBounded result other }
    {
        Bounds {
            south: self.south.min(place.lat),
            north: self.north.max(place.lat),
            west: self.west.min(place.lon),
            east: self.east.max(place.lon),
        }
    }

    /// Bounds of some places.
    fn of(places: &[Grid]) -> Bounds
        ensures { All (IsBounded result) places.now }
    {
        let mut bounds = Bounds {
            south: i32::MAX,
            north: i32::MIN,
            west: i32::MAX,
            east: i32::MIN,
        };
        for &place in places {
            bounds = bounds.with(place);
        }
        bounds
    }

    /// Whether a place is on a level with the bounds: from the southern one on, and below the
    /// northern one.
    fn is_within_latitudes(self, place: Grid) -> bool
        ensures { result ≡ is_within_latitudes self place }
    {
        self.south <= place.lat && place.lat < self.north
    }

    /// Whether a place is between the western bound and the eastern one: from the former on, and
    /// west of the latter.
    fn is_between(self, place: Grid) -> bool
        ensures { result ≡ is_between self place }
    {
        self.west <= place.lon && place.lon < self.east
    }

    /// Whether a place isn't on a level with the bounds, or not between them.
    pub(crate) fn is_beside(self, place: Grid) -> bool
        ensures { result ≡ is_beside self place }
    {
        !(self.is_within_latitudes(place) && self.is_between(place))
    }
}

/// A polygon in the plane of longitude and latitude, which contracts see as its corners. The last
/// of them is joined to the first.
#[derive(Debug, Drop)]
pub struct Polygon {
    corners: Vec<Grid>,
    bounds: Bounds,
}

impl Model for Polygon {
    ghost use Rattle.std.specs.Prelude.{List, All};
    ghost use Rattle.gl_sphere.specs.declared.place.Grid.{Grid};
    ghost use Rattle.gl_airspace.specs.Bounds.{IsBounded};

    ghost Value = { List Grid };

    ghost view = { λ polygon. polygon.corners.items };

    ghost invariant = { λ polygon. All (IsBounded polygon.bounds) polygon.corners.items };
}

impl Polygon {
    ghost use Rattle.std.specs.Prelude.{◌≡◌, All};
    ghost use Rattle.gl_airspace.specs.Bounds.{IsBounded};

    /// The polygon with these corners. Takes no memory.
    pub fn new(corners: Vec<Grid>) -> Polygon
        ensures { result ≡ corners.items }
    {
        let bounds = Bounds::of(corners.as_slice());
        Polygon { corners, bounds }
    }

    /// The corners, in their order.
    pub fn corners(&self) -> &[Grid]
        ensures { result.now ≡ self.now }
    {
        self.corners.as_slice()
    }

    /// Bounds of the corners.
    pub(crate) fn bounds(&self) -> Bounds
        ensures { All (IsBounded result) self.now }
    {
        self.bounds
    }
}
