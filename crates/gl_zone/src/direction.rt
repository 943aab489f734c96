ghost use Rattle.std.specs.Prelude.{◌≡◌, ◌*ℤ◌, ◌*◌};
ghost use Rattle.gl_sphere.specs.Range.{IsWithin};
ghost use Rattle.gl_zone.specs.Product.{greatest_scalar_product};

/// A direction at a point, by its parts towards north and towards east.
#[derive(Clone, Copy)]
pub struct Direction {
    pub north: i64,
    pub east: i64,
    pub ghost north_in_range: { IsWithin greatest_scalar_product north },
    pub ghost east_in_range: { IsWithin greatest_scalar_product east },
}

/// The product of a part of one direction and a part of another.
fn crosswise(a: i64, b: i64) -> i128
    requires a_in_range { IsWithin greatest_scalar_product a }
    requires b_in_range { IsWithin greatest_scalar_product b }
    ensures value { result ≡ a *ℤ b }
    ensures bound { IsWithin (greatest_scalar_product * greatest_scalar_product) result }
{
    a as i128 * b as i128
}

impl Direction {
    ghost use Rattle.gl_zone.specs.Zones.{is_clockwise};

    /// Whether another direction lies up to 180 degrees clockwise of this one.
    pub fn is_clockwise(self, other: Direction) -> bool
        ensures { result ≡ is_clockwise (self.north, self.east) (other.north, other.east) }
    {
        crosswise(self.north, other.east) - crosswise(self.east, other.north) >= 0
    }
}
