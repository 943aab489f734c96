//! Airspace texts, whether a volume holds a fix, and where a flight is cut.

use crate::numbers::{bytes, fixes, repeated};
use crate::tasks::joined;
use anyhow::{Context, Result, bail};
use gl_airspace::{AirError, Airspace, cut, inside, read_openair};
use std::alloc::Global;

/// `openair TEXT`, with `|` for LF and `^` for CR: how many volumes the text has, or why it is refused
/// and at which line.
fn openair(alloc: Global, input: &str) -> Result<String> {
    let text = repeated(alloc, input)?;
    let text = text.as_str().replace(alloc, "|", "\n")?;
    let text = text.as_str().replace(alloc, "^", "\r")?;
    match read_openair(alloc, &bytes(alloc, text.as_str())?) {
        Ok(air) => Ok(format!(in alloc; "{} volumes", air.volumes.len())?),
        Err(AirError::Line(line)) => Ok(format!(in alloc; "line {line}")?),
        Err(AirError::TooMany(line)) => Ok(format!(in alloc; "too many {line}")?),
        Err(AirError::Memory) => bail!("no memory"),
    }
}

/// The airspace of the files of `data/` with these names.
pub fn airspace_of(rt: &HostRuntime, names: &str) -> Result<Airspace> {
    let text = joined(rt, names)?;
    match read_openair(rt.alloc(), text.as_bytes()) {
        Ok(air) => Ok(air),
        Err(_) => bail!("no airspace"),
    }
}

/// `inside FILES: FIX`: the number of the first volume that holds the fix, from 0.
fn held_by(rt: &HostRuntime, input: &str) -> Result<String> {
    let (names, place) = input.split_once(": ").context("no fix")?;
    let air = airspace_of(rt, names)?;
    let fixes = fixes(rt.alloc(), place)?;
    let fix = fixes.first().context("no fix")?;
    match inside(&air, fix) {
        Some(number) => Ok(format!(in rt.alloc(); "in {number}")?),
        None => Ok(String::from_str(rt.alloc(), "out")?),
    }
}

/// `cut FILES: FIX, FIX`: how many fixes there are before the first one inside.
fn cut_of(rt: &HostRuntime, input: &str) -> Result<String> {
    let (names, flight) = input.split_once(": ").context("no flight")?;
    let air = airspace_of(rt, names)?;
    let fixes = fixes(rt.alloc(), flight)?;
    Ok(format!(in rt.alloc(); "{}", cut(&air, &fixes))?)
}

/// The answer to a row of airspace.
pub fn answer(rt: &HostRuntime, verb: &str, input: &str) -> Result<String> {
    match verb {
        "openair" => openair(rt.alloc(), input),
        "inside" => held_by(rt, input),
        "cut" => cut_of(rt, input),
        _ => bail!("no verb of airspace"),
    }
}
