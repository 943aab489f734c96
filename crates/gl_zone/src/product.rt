ghost use Rattle.std.specs.Prelude.{◌≡◌, ◌*◌, ◌*ℤ◌};
ghost use Rattle.gl_sphere.specs.Range.{IsWithin};
ghost use Rattle.gl_sphere.specs.Sphere.{radius};
ghost use Rattle.gl_zone.specs.Product.{scalar_product, greatest_product, greatest_scalar_product};

use gl_sphere::Vec3;

/// The product of two components.
fn product(a: i32, b: i32) -> i64
    requires a_in_range { IsWithin radius a }
    requires b_in_range { IsWithin radius b }
    ensures value { result ≡ a *ℤ b }
    ensures bound { IsWithin greatest_product result }
{
    a as i64 * b as i64
}

/// The product of a component and a scalar product.
pub(crate) fn wide_product(a: i32, b: i64) -> i128
    requires a_in_range { IsWithin radius a }
    requires b_in_range { IsWithin greatest_scalar_product b }
    ensures value { result ≡ a *ℤ b }
    ensures bound { IsWithin (radius * greatest_scalar_product) result }
{
    a as i128 * b as i128
}

/// The scalar product of two vectors.
pub fn scalar_product(a: Vec3, b: Vec3) -> i64
    ensures value { result ≡ scalar_product a b }
    ensures bound { IsWithin greatest_scalar_product result }
{
    product(a.x, b.x) + product(a.y, b.y) + product(a.z, b.z)
}
