//! Sines, points, directions and distances. Angles are in 1/100,000 minute, points in centimetres
//! from the centre.

ghost use Rattle.gl_sphere.specs.Range.{IsWithin};

use crate::numbers::{at_most, grid, numbers, point};
use anyhow::{Result, bail};
use gl_sphere::{
    GREATEST_SQUARE, HALF_TURN, Vec3, dist, east, north, root, sq, vector, wcos, wsin,
};
use std::alloc::{AllocError, Global};

/// An angle within half a turn.
fn within_half_turn(angle: i64) -> i64
    ensures { IsWithin HALF_TURN result }
{
    angle.clamp(-1_080_000_000, 1_080_000_000)
}

/// The components of a point.
fn told(alloc: Global, point: Vec3) -> Result<String, AllocError> {
    format!(in alloc; "{} {} {}", point.x, point.y, point.z)
}

/// `sine ANGLE`, `cosine ANGLE` and `distance SQUARE`, of which the square is that of a chord.
fn of_number(alloc: Global, verb: &str, number: i64) -> Result<String> {
    let text = match verb {
        "sine" => format!(in alloc; "{}", wsin(within_half_turn(number)))?,
        "cosine" => format!(in alloc; "{}", wcos(within_half_turn(number)))?,
        "distance" => format!(in alloc; "{}", dist(at_most(number, GREATEST_SQUARE)))?,
        _ => bail!("no verb of one number"),
    };
    Ok(text)
}

/// `point LATITUDE LONGITUDE`, `north ..` and `east ..`.
fn of_place(alloc: Global, verb: &str, lat: i64, lon: i64) -> Result<String> {
    let place = grid(lat, lon);
    match verb {
        "point" => Ok(told(alloc, vector(place))?),
        "north" => Ok(told(alloc, north(place))?),
        "east" => Ok(told(alloc, east(place))?),
        _ => bail!("no verb of a place"),
    }
}

/// `square POINT POINT`: that of the chord between two points.
fn square(alloc: Global, values: &[i64]) -> Result<String> {
    let &[a, b, c, d, e, f] = values else {
        bail!("a point has three numbers");
    };
    Ok(format!(in alloc; "{}", sq(point(a, b, c), point(d, e, f)))?)
}

/// The answer to a row of the sphere; `root NUMBER` is the root rounded down.
pub fn answer(alloc: Global, verb: &str, input: &str) -> Result<String> {
    if verb == "root" {
        return Ok(format!(in alloc; "{}", root(input.parse::<u64>()?))?);
    }
    let values = numbers(alloc, input)?;
    match (verb, values.as_slice()) {
        ("square", values) => square(alloc, values),
        (_, &[number]) => of_number(alloc, verb, number),
        (_, &[lat, lon]) => of_place(alloc, verb, lat, lon),
        _ => bail!("one number or two"),
    }
}
