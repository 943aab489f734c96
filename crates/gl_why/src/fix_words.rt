use crate::names::like;
use crate::place_words::{day_words, place_words, time_words};
use crate::spot::Spot;
use gl_desk::Name;
use gl_igc::IgcError;
use std::alloc::{AllocError, Global};

/// The time, the place and the height of a fix.
pub fn words_of_spot(alloc: Global, spot: &Spot) -> Result<String, AllocError> {
    let time = time_words(alloc, i64::from(spot.fix.second))?;
    let time = time.as_str();
    let place = place_words(alloc, spot.fix.grid)?;
    let place = place.as_str();
    let height = spot.fix.alt;
    format!(in alloc; ": {time}, {place}, {height} m")
}

/// What is said of a recording without a fix of some number.
pub fn words_of_no_fix(alloc: Global, number: u32, count: usize) -> Result<String, AllocError> {
    let last = count.saturating_sub(1);
    format!(in alloc; " has no fix {number}. Its fixes count from 0, and the last is fix {last}")
}

/// What is said of a file that isn't in the folder.
pub fn words_of_absent(alloc: Global, names: &[Name], file: &Name) -> Result<String, AllocError> {
    match like(names, file.as_str()) {
        Some(other) => {
            let other = other.as_str();
            format!(in alloc;
                " isn't in the folder, which has {other}. Write the name as it is there"
            )
        }
        None => String::from_str(
            alloc,
            " isn't in the folder. Go to the folder of the day, and write its name as it is there",
        ),
    }
}

/// What is said of a file with more bytes than are read.
pub fn words_of_large(alloc: Global) -> Result<String, AllocError> {
    String::from_str(
        alloc,
        " has more than 16777216 bytes, which is too much for one flight",
    )
}

/// What is said of a file that isn't a recording.
pub fn words_of_error(alloc: Global, error: &IgcError) -> Result<String, AllocError> {
    match error {
        IgcError::NotIgc => String::from_str(
            alloc,
            " is no recording: its first line doesn't begin with A, as a recorder writes it",
        ),
        IgcError::NoDate => String::from_str(
            alloc,
            " is no recording that can be used: it has no line HFDTE with a date",
        ),
        IgcError::WrongDay { day } => {
            let day = day_words(alloc, *day)?;
            let day = day.as_str();
            format!(in alloc; " is a recording of another day, {day}")
        }
        IgcError::TooManyFixes { line } => format!(in alloc;
            " has more than 90000 fixes, up to line {line}, which is too much for one flight"
        ),
        IgcError::NoFix => String::from_str(alloc, " has no fix that can be used"),
        IgcError::Memory => String::from_str(alloc, " doesn't read"),
    }
}
