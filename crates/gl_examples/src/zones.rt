//! Lines, crossings and zones. Places are in 1/100,000 minute, lengths in centimetres, radials in
//! thousandths of a degree.

use crate::numbers::{at_most, fix, grid, numbers};
use anyhow::{Context, Result, bail};
use gl_igc::Fix;
use gl_sphere::{Grid, east, north, vector};
use gl_text::Items;
use gl_zone::{Cylinder, Line, MOST_PARTS, Part, Sector, Zone, crossing, holds, side};
use std::alloc::Global;

/// The line of its centre, of the place that it is crossed towards, and of half its length.
fn line_of(alloc: Global, text: &str) -> Result<Line> {
    let values = numbers(alloc, text)?;
    match values.as_slice() {
        &[lat, lon, to_lat, to_lon, half] => Ok(Line {
            centre: vector(grid(lat, lon)),
            towards: vector(grid(to_lat, to_lon)),
            half: at_most(half, 50_000_000),
        }),
        _ => bail!("a line has five numbers"),
    }
}

/// The fix of a second and a place.
fn timed(alloc: Global, text: &str) -> Result<Fix> {
    let values = numbers(alloc, text)?;
    match values.as_slice() {
        &[second, lat, lon] => Ok(fix(second, grid(lat, lon), 1_000)),
        _ => bail!("a fix has three numbers"),
    }
}

/// `crossing LINE; FIX; FIX`: the second in which the way between the fixes crosses the line.
fn crossed(alloc: Global, input: &str) -> Result<String> {
    let (line, fixes) = input.split_once("; ").context("no fixes")?;
    let (before, behind) = fixes.split_once("; ").context("no second fix")?;
    let line = line_of(alloc, line)?;
    let before = timed(alloc, before)?;
    let behind = timed(alloc, behind)?;
    if before.second >= behind.second {
        bail!("the second fix isn't later");
    }
    match crossing(&line, &before, &behind) {
        Some(second) => Ok(format!(in alloc; "{second}")?),
        None => Ok(String::from_str(alloc, "none")?),
    }
}

/// `side LINE; FIX`: on which side of the line a fix is, and how far.
fn side_of(alloc: Global, input: &str) -> Result<String> {
    let (line, fix) = input.split_once("; ").context("no fix")?;
    let line = line_of(alloc, line)?;
    Ok(format!(in alloc; "{}", side(&line, timed(alloc, fix)?.at))?)
}

/// `INNER OUTER FROM TO`, a sector about a place, or `RADIUS`, a cylinder.
fn part_of(alloc: Global, place: Grid, text: &str) -> Result<Part> {
    let values = numbers(alloc, text)?;
    match values.as_slice() {
        &[radius] => Ok(Part::Cylinder(Cylinder {
            centre: vector(place),
            radius: at_most(radius, 50_000_000).max(100),
        })),
        &[inner, outer, from, to] => {
            let outer = at_most(outer, 50_000_000).max(100);
            Ok(Part::Sector(Sector {
                centre: vector(place),
                north: north(place),
                east: east(place),
                inner: at_most(inner, outer),
                outer,
                from: at_most(from, 359_999) as u32,
                to: at_most(to, 359_999) as u32,
            }))
        }
        _ => bail!("a part has one number or four"),
    }
}

/// The zone of these parts about a place.
fn zone_of(alloc: Global, place: Grid, text: &str) -> Result<Zone> {
    let mut parts = Vec::new(alloc);
    for part in text.split(", ") {
        parts.push(part_of(alloc, place, part)?)?;
    }
    if parts.is_empty() || parts.len() > MOST_PARTS {
        bail!("a zone has one part to four");
    }
    Ok(Zone {
        centre: vector(place),
        parts: Items::from_vec(parts),
    })
}

/// How many steps to the north and to the east: the north, the north-east and so on round to the
/// north-west, and the centre.
const AROUND: [(i64, i64); 9] = [
    (1, 0),
    (1, 1),
    (0, 1),
    (-1, 1),
    (-1, 0),
    (-1, -1),
    (0, -1),
    (1, -1),
    (0, 0),
];

/// Whether a zone holds the places a step from another, and that one: `Y` or `n` for each.
fn held_around(alloc: Global, zone: &Zone, lat: i64, lon: i64, step: i64) -> Result<String> {
    let mut told = String::new(alloc);
    for (to_north, to_east) in AROUND {
        let place = grid(
            lat.saturating_add(step.saturating_mul(to_north)),
            lon.saturating_add(step.saturating_mul(to_east)),
        );
        told.push(if holds(zone, vector(place)) { 'Y' } else { 'n' })?;
    }
    Ok(told)
}

/// `held LATITUDE LONGITUDE STEP; PART, PART`: which of the nine places the zone holds.
fn held(alloc: Global, input: &str) -> Result<String> {
    let (place, parts) = input.split_once("; ").context("no parts")?;
    let values = numbers(alloc, place)?;
    match values.as_slice() {
        &[lat, lon, step] => {
            let zone = zone_of(alloc, grid(lat, lon), parts)?;
            held_around(alloc, &zone, lat, lon, step)
        }
        _ => bail!("a zone has a place and a step"),
    }
}

/// The answer to a row of zones.
pub fn answer(alloc: Global, verb: &str, input: &str) -> Result<String> {
    match verb {
        "crossing" => crossed(alloc, input),
        "side" => side_of(alloc, input),
        "held" => held(alloc, input),
        _ => bail!("no verb of zones"),
    }
}
