ghost use Rattle.std.specs.Prelude.{◌≡◌};
ghost use Rattle.std.specs.Int.{int_min, int_max};

use gl_sphere::Vec3;

/// The lower value of each component.
pub(crate) fn lower(a: Vec3, b: Vec3) -> Vec3
    ensures x { result.x ≡ int_min a.x b.x }
    ensures y { result.y ≡ int_min a.y b.y }
    ensures z { result.z ≡ int_min a.z b.z }
{
    Vec3 {
        x: a.x.min(b.x),
        y: a.y.min(b.y),
        z: a.z.min(b.z),
    }
}

/// The higher value of each component.
pub(crate) fn higher(a: Vec3, b: Vec3) -> Vec3
    ensures x { result.x ≡ int_max a.x b.x }
    ensures y { result.y ≡ int_max a.y b.y }
    ensures z { result.z ≡ int_max a.z b.z }
{
    Vec3 {
        x: a.x.max(b.x),
        y: a.y.max(b.y),
        z: a.z.max(b.z),
    }
}
