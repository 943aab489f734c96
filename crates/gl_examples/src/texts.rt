//! Lines, numbers with a point, and places as texts.

use crate::numbers::bytes;
use anyhow::{Result, bail};
use gl_sphere::read_place;
use gl_text::{next_line, push_fixed};
use std::alloc::{AllocError, Global};

/// Writes where each line of a text begins and ends, and where the next one begins.
fn push_lines(told: &mut String, text: &[u8]) -> Result<(), AllocError> {
    let mut at = 0;
    'lines: for _ in 0..=text.len() {
        let Some(line) = next_line(text, at) else {
            break 'lines;
        };
        write!(told, "{} {} {}, ", line.from, line.to, line.next)?;
        at = line.next;
    }
    Ok(())
}

/// `lines TEXT`, with `\n` and `\r` for the ends of lines: where each line begins and ends, and where
/// the next one begins.
fn lines(alloc: Global, input: &str) -> Result<String> {
    let text = input.replace(alloc, "\\n", "\n")?;
    let text = text.as_str().replace(alloc, "\\r", "\r")?;
    let text = bytes(alloc, text.as_str())?;
    let mut told = String::new(alloc);
    push_lines(&mut told, &text)?;
    Ok(told)
}

/// `fixed NUMBER PLACES`: the number with a point before so many digits, from 1 to 9.
fn fixed(alloc: Global, input: &str) -> Result<String> {
    let Some((number, places)) = input.split_once(' ') else {
        bail!("a number and a number of places");
    };
    let mut text = Vec::new(alloc);
    let places = places.parse::<u32>()?;
    if places < 1 || places > 9 {
        bail!("from 1 to 9 places");
    }
    push_fixed(&mut text, number.parse::<u64>()?, places)?;
    Ok(String::from_str(alloc, str::from_utf8(&text)?)?)
}

/// `place TEXT`: its latitude and longitude in 1/100,000 minute.
fn place(alloc: Global, input: &str) -> Result<String> {
    match read_place(input.as_bytes()) {
        Some(grid) => Ok(format!(in alloc; "{} {}", grid.lat, grid.lon)?),
        None => Ok(String::from_str(alloc, "none")?),
    }
}

/// The answer to a row of texts.
pub fn answer(alloc: Global, verb: &str, input: &str) -> Result<String> {
    match verb {
        "lines" => lines(alloc, input),
        "fixed" => fixed(alloc, input),
        "place" => place(alloc, input),
        _ => bail!("no verb of texts"),
    }
}
