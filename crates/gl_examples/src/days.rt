//! Points of a day, and the files of a generated day.
ghost use Rattle.std.specs.Prelude.{◌≤◌, length};
ghost use Rattle.gl_points.specs.Limits.{performance_limit};

use crate::numbers::{at_most, numbers};
use anyhow::{Context, Result, bail};
use gl_demo::generated_day;
use gl_points::{Performance, day, score};
use std::alloc::{AllocError, Global};

/// One who finished.
fn finisher(metres: i64, seconds: i64, handicap: i64) -> Performance {
    Performance {
        launched: true,
        finished: true,
        metres: at_most(metres, 2_000_000) as u32,
        seconds: at_most(seconds, 100_000).max(1) as u32,
        handicap: at_most(handicap, 2_000).max(1) as u32,
    }
}

/// One who didn't finish, and perhaps wasn't launched.
fn outlanding(launched: bool, metres: i64, handicap: i64) -> Performance {
    Performance {
        launched,
        finished: false,
        metres: at_most(metres, 2_000_000) as u32,
        seconds: 0,
        handicap: at_most(handicap, 2_000).max(1) as u32,
    }
}

/// What counts of an entrant: metres, seconds and handicap of one who finished, metres and handicap
/// of one who didn't, or the handicap of one who wasn't launched.
fn performance(alloc: Global, text: &str) -> Result<Performance> {
    let values = numbers(alloc, text)?;
    match values.as_slice() {
        &[metres, seconds, handicap] => Ok(finisher(metres, seconds, handicap)),
        &[metres, handicap] => Ok(outlanding(true, metres, handicap)),
        &[handicap] => Ok(outlanding(false, 0, handicap)),
        _ => bail!("one number to three"),
    }
}

/// The performances of a day, parted by commas; one that begins `N of` stands so many times.
fn performances(alloc: Global, input: &str) -> Result<Vec<Performance>> {
    let mut list = Vec::new(alloc);
    for part in input.split(", ") {
        let (count, part) = part.split_once(" of ").unwrap_or(("1", part));
        let performance = performance(alloc, part)?;
        for _ in 0..count.parse::<u32>()? {
            list.push(performance)?;
        }
    }
    Ok(list)
}

/// How many launched, flew far and were fast, the shortest time among the fastest, and the points of
/// each performance.
fn push_points(told: &mut String, list: &[Performance]) -> Result<(), AllocError>
    requires { length list.now ≤ performance_limit }
{
    let figures = day(list);
    write!(told, "{} {} ", figures.launched, figures.far)?;
    write!(told, "{} {:?}:", figures.fast, figures.time)?;
    for performance in list {
        write!(told, " {}", score(&figures, performance))?;
    }
    Ok(())
}

/// `points PERFORMANCE, PERFORMANCE`: the figures of a day, and the points of each.
fn points(alloc: Global, input: &str) -> Result<String> {
    let list = performances(alloc, input)?;
    if list.len() > 256 {
        bail!("more than 256 performances");
    }
    let mut told = String::new(alloc);
    push_points(&mut told, &list)?;
    Ok(told)
}

/// The name of a file, how many lines it has, its fourth line and its last one.
fn described(alloc: Global, name: &str, text: &[u8]) -> Result<String> {
    let text = str::from_utf8(text)?;
    let count = text.lines().count();
    let fourth = text.lines().nth(3).context("no fourth line")?;
    let last = text.lines().last().context("no line")?;
    Ok(format!(in alloc; "{name} {count} {fourth} {last}")?)
}

/// `generated NUMBER FILE`: what the file of this number in the generated day has.
fn generated(alloc: Global, input: &str) -> Result<String> {
    let (number, file) = input.split_once(' ').context("no file")?;
    let number = number.parse::<u32>()?.clamp(1, 1_000_000);
    let files = generated_day(alloc, number)?;
    let (name, text) = files.get(file.parse::<usize>()?).context("no such file")?;
    described(alloc, name.as_str(), text)
}

/// The answer to a row of days.
pub fn answer(alloc: Global, verb: &str, input: &str) -> Result<String> {
    match verb {
        "points" => points(alloc, input),
        "generated" => generated(alloc, input),
        _ => bail!("no verb of days"),
    }
}
