ghost use Rattle.gl_sphere.specs.Range.{IsWithin};
ghost use Rattle.gl_sphere.specs.Sphere.{half_turn, quarter_turn, radius};

/// A place on the sphere, in 1/100,000 minute. North and east are positive.
#[derive(Clone, Copy, Debug, PartialEq, Eq)]
pub struct Grid {
    /// From -540,000,000, the south pole, to 540,000,000.
    pub lat: i32,
    /// From -1,080,000,000 to 1,080,000,000.
    pub lon: i32,
    pub ghost lat_in_range: { IsWithin quarter_turn lat },
    pub ghost lon_in_range: { IsWithin half_turn lon },
}

/// A point in whole centimetres from the centre of the sphere, each component within the radius.
///
/// The x axis leads to latitude 0 and longitude 0, the y axis to 90 degrees east, the z axis to the
/// north pole.
#[derive(Clone, Copy, Debug, PartialEq, Eq)]
pub struct Vec3 {
    pub x: i32,
    pub y: i32,
    pub z: i32,
    pub ghost x_in_range: { IsWithin radius x },
    pub ghost y_in_range: { IsWithin radius y },
    pub ghost z_in_range: { IsWithin radius z },
}
