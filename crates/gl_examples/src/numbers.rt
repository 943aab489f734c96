ghost use Rattle.std.specs.Prelude.{◌≡◌, ◌<◌, ◌≤◌, length, IfSome, IsSome};

use anyhow::{Result, bail};
use gl_igc::Fix;
use gl_sphere::{Grid, Vec3, vector};
use std::alloc::Global;

/// The whole numbers of a text, parted by blanks.
pub fn numbers(alloc: Global, text: &str) -> Result<Vec<i64>> {
    let mut numbers = Vec::new(alloc);
    for word in text.split_whitespace() {
        numbers.push(word.parse::<i64>()?)?;
    }
    Ok(numbers)
}

/// The number, or the nearest one that a `u64` with this limit can be.
pub fn at_most(number: i64, most: u64) -> u64
    ensures { result ≤ most }
{
    u64::try_from(number).unwrap_or(0).min(most)
}

/// The place in 1/100,000 minute, or the nearest one on the grid.
pub fn grid(lat: i64, lon: i64) -> Grid {
    Grid {
        lat: lat.clamp(-540_000_000, 540_000_000) as i32,
        lon: lon.clamp(-1_080_000_000, 1_080_000_000) as i32,
    }
}

/// The point with these components in centimetres, or the nearest one within the radius.
pub fn point(x: i64, y: i64, z: i64) -> Vec3 {
    Vec3 {
        x: x.clamp(-637_100_000, 637_100_000) as i32,
        y: y.clamp(-637_100_000, 637_100_000) as i32,
        z: z.clamp(-637_100_000, 637_100_000) as i32,
    }
}

/// A fix at a second, over a place, at an altitude in metres.
pub fn fix(second: i64, grid: Grid, alt: i64) -> Fix {
    Fix {
        second: second.clamp(-1_000_000, 1_000_000) as i32,
        grid,
        at: vector(grid),
        alt: alt.clamp(-9_999, 32_767) as i32,
        enl: None,
    }
}

/// The fix of a latitude, a longitude and an altitude, which is 1,000 m if it is left out.
fn fix_of(alloc: Global, text: &str) -> Result<Fix> {
    let values = numbers(alloc, text)?;
    match values.as_slice() {
        &[lat, lon] => Ok(fix(36_000, grid(lat, lon), 1_000)),
        &[lat, lon, alt] => Ok(fix(36_000, grid(lat, lon), alt)),
        _ => bail!("a fix is a place and perhaps an altitude"),
    }
}

/// The fixes of a flight, parted by commas.
pub fn fixes(alloc: Global, text: &str) -> Result<Vec<Fix>> {
    let mut fixes = Vec::new(alloc);
    for part in text.split(", ") {
        fixes.push(fix_of(alloc, part)?)?;
    }
    Ok(fixes)
}

/// The number of the last fix, if a goal can be made of so many.
pub fn last_of(fixes: &[Fix]) -> Option<u32>
    ensures within { IfSome result (λ last. last < length fixes.now) }
    ensures most { IsSome result → length fixes.now ≤ 90_000 }
{
    if fixes.is_empty() || fixes.len() > 90_000 {
        return None;
    }
    Some(fixes.len() as u32 - 1)
}

/// The text with its part in braces, a number and a text behind a blank, in place of which the text
/// stands so many times.
pub fn repeated(alloc: Global, text: &str) -> Result<String> {
    let Some((before, rest)) = text.split_once('{') else {
        return Ok(String::from_str(alloc, text)?);
    };
    let (group, behind) = rest.split_once('}').unwrap_or((rest, ""));
    let (count, part) = group.split_once(' ').unwrap_or((group, ""));
    let mut all = String::from_str(alloc, before)?;
    for _ in 0..count.parse::<u32>()? {
        all.push_str(part)?;
    }
    all.push_str(behind)?;
    Ok(all)
}

/// The bytes of a text, each of whose letters up to U+00FF stands for the byte of its number.
pub fn bytes(alloc: Global, text: &str) -> Result<Vec<u8>> {
    let mut bytes = Vec::new(alloc);
    for letter in text.chars() {
        bytes.push(u8::try_from(u32::from(letter))?)?;
    }
    Ok(bytes)
}
