//! What is read of a recording, by what of it is told.

use anyhow::{Context, Result, bail};
use gl_igc::{Fix, IgcError, Recording, read_igc};
use std::alloc::{AllocError, Global};

/// The lines that begin a recording of 2024-07-01, day 19,905.
const HEAD: &str = "AXXXABC\nHFDTE010724\n";

/// What follows the time of a B line: the place on the equator at longitude 0, at 1,000 m.
const COLUMNS: &str = "0000000N00000000EA0100001000";

/// The heading of a declaration of one turn point.
const HEADING: &str = "C010724090000010724000101";

/// A place of a declaration, on the equator at longitude 0.
const PLACE: &str = "C0000000N00000000E";

/// The bytes that letters mean: `#` is `HEAD`, `~` is `COLUMNS`, `$` is `HEADING`, `*` is `PLACE`, `^`
/// is CR, `|` is LF, and any other letter is the byte of its number.
fn text_of(alloc: Global, letters: &str) -> Result<Vec<u8>> {
    let mut text = Vec::new(alloc);
    for letter in letters.chars() {
        match letter {
            '#' => text.extend_from_slice(HEAD.as_bytes())?,
            '~' => text.extend_from_slice(COLUMNS.as_bytes())?,
            '$' => text.extend_from_slice(HEADING.as_bytes())?,
            '*' => text.extend_from_slice(PLACE.as_bytes())?,
            '^' => text.push(b'\r')?,
            '|' => text.push(b'\n')?,
            _ => text.push(u8::try_from(u32::from(letter))?)?,
        }
    }
    Ok(text)
}

/// `seconds`: the day, the seconds of the fixes and of the events, and how many B lines gave no fix.
fn push_seconds(text: &mut String, recording: &Recording) -> Result<(), AllocError> {
    write!(text, "{}", recording.date)?;
    for fix in recording.fixes.as_slice() {
        write!(text, ", fix {}", fix.second)?;
    }
    for second in recording.events.as_slice() {
        write!(text, ", event {second}")?;
    }
    write!(text, ", {} skipped", recording.skipped)
}

/// A fix: second, latitude, longitude, altitude, and the noise where there is one.
fn push_fix(text: &mut String, fix: &Fix) -> Result<(), AllocError> {
    write!(text, "{} {} ", fix.second, fix.grid.lat)?;
    write!(text, "{} {}", fix.grid.lon, fix.alt)?;
    match fix.enl {
        Some(noise) => write!(text, " {noise}, "),
        None => text.push_str(", "),
    }
}

/// `fixes`: each fix, and how many B lines gave none.
fn push_fixes(text: &mut String, recording: &Recording) -> Result<(), AllocError> {
    for fix in recording.fixes.as_slice() {
        push_fix(text, fix)?;
    }
    write!(text, "{} skipped", recording.skipped)
}

/// `counts`: how many fixes there are, and how many B lines gave none.
fn push_counts(text: &mut String, recording: &Recording) -> Result<(), AllocError> {
    let (fixes, skipped) = (recording.fixes.len(), recording.skipped);
    write!(text, "{fixes} fixes, {skipped} skipped")
}

/// `places`: the declared places as latitude and longitude, if the declaration is whole.
fn push_places(text: &mut String, recording: &Recording) -> Result<(), AllocError> {
    let Some(declared) = &recording.declared else {
        return text.push_str("no declaration");
    };
    write!(text, "{} places", declared.points.len())?;
    for point in declared.points.as_slice() {
        write!(text, " {}/{}", point.lat, point.lon)?;
    }
    Ok(())
}

/// Why a recording was refused.
fn push_refusal(text: &mut String, e: &IgcError) -> Result<(), AllocError> {
    match e {
        IgcError::NotIgc => text.push_str("not IGC"),
        IgcError::NoDate => text.push_str("no date"),
        IgcError::WrongDay { day } => write!(text, "wrong day {day}"),
        IgcError::TooManyFixes { line } => write!(text, "too many fixes {line}"),
        IgcError::NoFix => text.push_str("no fix"),
        IgcError::Memory => Err(AllocError),
    }
}

/// What a verb tells of the recording of these letters, on a day of a task if there is one.
fn told(alloc: Global, verb: &str, task_day: Option<i32>, letters: &str) -> Result<String> {
    let mut text = String::new(alloc);
    match read_igc(alloc, &text_of(alloc, letters)?, task_day) {
        Ok(recording) => match verb {
            "seconds" => push_seconds(&mut text, &recording)?,
            "fixes" => push_fixes(&mut text, &recording)?,
            "counts" => push_counts(&mut text, &recording)?,
            _ => push_places(&mut text, &recording)?,
        },
        Err(e) => push_refusal(&mut text, &e)?,
    }
    Ok(text)
}

/// The text with an `x` in the place of the letter with this number.
fn with_x(alloc: Global, text: &str, number: usize) -> Result<String, AllocError> {
    let mut changed = String::new(alloc);
    for (at, letter) in text.chars().enumerate() {
        changed.push(if at == number { 'x' } else { letter })?;
    }
    Ok(changed)
}

/// What a verb tells where a part of the letters has an `x` in each of its columns but the first, in
/// turn: the one answer, or the first other one and its column.
fn told_each(alloc: Global, verb: &str, before: &str, part: &str, behind: &str) -> Result<String> {
    if part.len() < 2 {
        bail!("a part of one column");
    }
    let mut answer = String::new(alloc);
    for column in 1..part.len() {
        let part = with_x(alloc, part, column)?;
        let letters = format!(in alloc; "{before}{part}{behind}")?;
        let told = told(alloc, verb, None, letters.as_str())?;
        if column > 1 && told.as_str() != answer.as_str() {
            return Ok(format!(in alloc; "{told} in column {column}")?);
        }
        answer = told;
    }
    Ok(answer)
}

/// The answer to a row of recordings. The letters may begin with `on DAY`, the day of the task from
/// 1970-01-01, and may have a part in `<` and `>`, which is damaged in each column in turn.
pub fn answer(alloc: Global, verb: &str, input: &str) -> Result<String> {
    if !matches!(verb, "seconds" | "fixes" | "counts" | "places") {
        bail!("no verb of recordings");
    }
    if let Some(rest) = input.strip_prefix("on ") {
        let (day, letters) = rest.split_once(' ').context("no letters")?;
        return told(alloc, verb, Some(day.parse::<i32>()?), letters);
    }
    let Some((before, rest)) = input.split_once('<') else {
        return told(alloc, verb, None, input);
    };
    let (part, behind) = rest.split_once('>').context("no end of a part")?;
    told_each(alloc, verb, before, part, behind)
}
