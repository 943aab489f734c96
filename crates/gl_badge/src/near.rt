ghost use Rattle.std.specs.Prelude.{◌≡◌, ◌≤◌, length, nat_le, IfOk};
ghost use Rattle.gl_sphere.specs.Distance.{distance};
ghost use Rattle.gl_badge.specs.Course.{numbers_near};

use gl_igc::Fix;
use gl_sphere::{Vec3, dist, sq};
use std::alloc::{AllocError, Global};

/// How far a fix may be from a point that it reaches, in centimetres.
const NEAR: u64 = 50_000;

/// Whether a fix reaches a point.
#[inline]
fn is_near(fix: &Fix, point: Vec3) -> bool
    ensures { result ≡ nat_le (distance fix.now.at point) 50_000 }
{
    dist(sq(fix.at, point)) <= NEAR
}

/// The numbers of the fixes that reach a point. The only error is want of memory.
pub(crate) fn numbers_near(
    alloc: Global,
    fixes: &[Fix],
    point: Vec3,
) -> Result<Vec<u32>, AllocError>
    requires { length fixes.now ≤ 90_000 }
    ensures { IfOk result (λ numbers. numbers.items ≡ numbers_near fixes.now point) }
{
    let mut numbers = Vec::new(alloc);
    for (number, fix) in fixes.iter().enumerate() {
        if is_near(fix, point) {
            numbers.push(number as u32)?;
        }
    }
    Ok(numbers)
}
