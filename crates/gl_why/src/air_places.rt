use std::alloc::{AllocError, Global};

/// Where a volume begins in its file, and its name there.
#[derive(Debug, Drop)]
pub struct AirPlace {
    /// The number of the line, from 1.
    pub line: usize,
    /// Empty if it has none.
    pub name: String,
}

/// A text with a question mark in place of each control character.
fn shown(alloc: Global, text: &str) -> Result<String, AllocError> {
    let mut shown = String::new(alloc);
    for letter in text.chars() {
        shown.push(if letter.is_control() { '?' } else { letter })?;
    }
    Ok(shown)
}

/// Takes a line of an airspace file, by its number.
fn take_line(
    alloc: Global,
    places: &mut Vec<AirPlace>,
    line: usize,
    text: &str,
) -> Result<(), AllocError> {
    if text.starts_with("AC ") {
        let name = String::new(alloc);
        places.push(AirPlace { line, name })?;
    }
    if let Some(name) = text.strip_prefix("AN ") {
        let name = shown(alloc, name.trim())?;
        if let Some(place) = places.last_mut() {
            place.name = name;
        }
    }
    Ok(())
}

/// Where the volumes of an airspace file begin, and their names there, by a plain scan of its text.
pub fn air_places(alloc: Global, text: &[u8]) -> Result<Vec<AirPlace>, AllocError> {
    let text = String::from_utf8_lossy(alloc, text)?;
    let mut places = Vec::new(alloc);
    for (number, line) in text.as_str().lines().enumerate() {
        take_line(alloc, &mut places, number.saturating_add(1), line.trim())?;
    }
    Ok(places)
}
