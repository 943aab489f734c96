ghost use Rattle.std.specs.Prelude.{◌≡◌, ℕ, ◌+◌, ◌*◌, ◌≤◌, ◌*ℤ◌, ◌-ℤ◌, position, count_by};
ghost use Rattle.std.specs.List.{list_any};
ghost use Rattle.gl_airspace.specs.Inside.{counts, edges_from, fixes_before_airspace, is_in_circle, is_in_polygon, is_in_shape, is_inside, is_west_of};

use crate::polygon::Polygon;
use crate::volume::{Airspace, Circle, Shape, Volume};
use gl_igc::Fix;
use gl_sphere::{GREATEST_SQUARE, Grid, Vec3, dist, sq};

/// How far `east` lies east of a place, times how far `north` lies north of it.
fn rectangle(from: Grid, east: Grid, north: Grid) -> i64
    ensures { result ≡ (east.lon -ℤ from.lon) *ℤ (north.lat -ℤ from.lat) }
{
    let along = i64::from(east.lon) - i64::from(from.lon);
    let up = i64::from(north.lat) - i64::from(from.lat);
    along * up
}

/// Whether a place lies west of an edge on a level with it.
fn is_west_of(lower: Grid, upper: Grid, place: Grid) -> bool
    ensures { result ≡ is_west_of lower upper place }
{
    let along = rectangle(lower, place, upper);
    let across = rectangle(lower, upper, place);
    along < across
}

/// Whether an edge counts for a place. Most edges have both ends on one side of it.
fn counts(place: Grid, from: Grid, to: Grid) -> bool
    ensures { result ≡ counts place (from, to) }
{
    let is_from_above = place.lat < from.lat;
    let is_to_above = place.lat < to.lat;
    if is_from_above == is_to_above {
        false
    } else if is_to_above {
        is_west_of(from, to, place)
    } else {
        is_west_of(to, from, place)
    }
}

/// How many edges count for a place: from a corner to the first of some others, and from each of
/// them to the next.
fn count_edges(corner: Grid, corners: &[Grid], place: Grid) -> usize
    ensures { result ≡ count_by (counts place) (edges_from corner corners.now) }
{
    let mut count = 0;
    let mut from = corner;
    for &to in corners {
        if counts(place, from, to) {
            count += 1;
        }
        from = to;
    }
    count
}

/// Whether an odd number of edges of the polygon with these corners count for a place.
#[tactic(auto, unfolding(crate::specs::Inside::is_in_polygon))]
fn counts_odd(corners: &[Grid], place: Grid) -> bool
    ensures { result ≡ is_in_polygon corners.now place }
{
    match corners.last() {
        Some(&last) => count_edges(last, corners, place) % 2 == 1,
        None => false,
    }
}

/// Whether a place is in a polygon. Beside the bounds of all corners no edge counts, or on their
/// western side an even number.
#[tactic(auto, using(crate::proofs::Edges::beside_is_outside))]
fn is_in_polygon(polygon: &Polygon, place: Grid) -> bool
    ensures { result ≡ is_in_polygon polygon.now place }
{
    !polygon.bounds().is_beside(place) && counts_odd(polygon.corners(), place)
}

/// The square of one more than a radius, as far as there are numbers.
fn square_beyond(radius: u64) -> u64
    ensures { (q : ℕ) → q ≤ GREATEST_SQUARE → result ≤ q → (radius + 1) * (radius + 1) ≤ q }
{
    let beyond = radius.saturating_add(1);
    beyond.saturating_mul(beyond)
}

/// Whether a point is in a circle. The distance isn't less than the chord, so most points need
/// none.
fn is_in_circle(circle: &Circle, at: Vec3) -> bool
    ensures { result ≡ is_in_circle circle.now at }
{
    let q = sq(at, circle.centre);
    q < square_beyond(circle.radius) && dist(q) <= circle.radius
}

/// Whether a fix is in a shape on the map.
fn is_in_shape(shape: &Shape, fix: &Fix) -> bool
    ensures { result ≡ is_in_shape shape.now fix.now }
{
    match shape {
        Shape::Polygon(polygon) => is_in_polygon(polygon, fix.grid),
        Shape::Circle(circle) => is_in_circle(circle, fix.at),
    }
}

/// Whether a fix is inside a volume.
fn is_inside(volume: &Volume, fix: &Fix) -> bool
    ensures { result ≡ is_inside volume.now fix.now }
{
    volume.floor <= fix.alt && fix.alt <= volume.ceiling && is_in_shape(&volume.shape, fix)
}

/// The number of the first volume that holds the fix, from 0; `None` exactly where no volume does.
pub fn inside(air: &Airspace, fix: &Fix) -> Option<usize>
    ensures { result ≡ position (λ volume. is_inside volume fix.now) air.now.volumes }
{
    air.volumes
        .as_slice()
        .iter()
        .position(|volume| is_inside(volume, fix))
}

/// Whether a volume holds the fix.
fn is_forbidden(air: &Airspace, fix: &Fix) -> bool
    ensures { result ≡ list_any (λ volume. is_inside volume fix.now) air.now.volumes }
{
    air.volumes
        .as_slice()
        .iter()
        .any(|volume| is_inside(volume, fix))
}

/// The number of the first fix inside a volume.
fn first_inside(air: &Airspace, fixes: &[Fix]) -> Option<usize>
    ensures { result ≡ position
        (λ fix. list_any (λ volume. is_inside volume fix) air.now.volumes) fixes.now }
{
    fixes.iter().position(|fix| is_forbidden(air, fix))
}

/// How many fixes stand before the first one inside a volume, or all of them.
pub fn cut(air: &Airspace, fixes: &[Fix]) -> usize
    ensures { result ≡ fixes_before_airspace air.now.volumes fixes.now }
{
    first_inside(air, fixes).unwrap_or(fixes.len())
}
