use crate::fact::Extent;
use crate::fix_words::words_of_error;
use crate::place_words::time_words;
use gl_igc::{IgcError, Recording};
use gl_sheet::Outcome;
use gl_task::Entrant;
use std::alloc::{AllocError, Global};

/// The name of an entrant, and what became of him.
pub fn words_of_outcome(
    alloc: Global,
    entrant: &Entrant,
    outcome: Outcome,
) -> Result<String, AllocError> {
    let name = entrant.name.as_str();
    let file = entrant.file.as_str();
    match outcome {
        Outcome::Finished => format!(in alloc; ", {name}: FINISHED"),
        Outcome::Outlanded => format!(in alloc; ", {name}: OUTLANDED"),
        Outcome::NoStart => format!(in alloc; ", {name}: NOSTART"),
        Outcome::NotLaunched => {
            format!(in alloc; ", {name}: NOTLAUNCHED, since {file} isn't in the folder")
        }
        Outcome::Refused(number) => {
            format!(in alloc;
                ", {name}: REFUSED {number}, since {file} has more than 16777216 bytes"
            )
        }
    }
}

/// The name of an entrant, and why his recording is refused; nothing if it isn't.
pub fn words_of_read(
    alloc: Global,
    entrant: &Entrant,
    read: &Result<Recording, IgcError>,
) -> Result<String, AllocError> {
    let error = match read {
        Ok(_) => return Ok(String::new(alloc)),
        Err(error) => error,
    };
    let name = entrant.name.as_str();
    let file = entrant.file.as_str();
    let number = error.number().unwrap_or(0);
    let why = words_of_error(alloc, error)?;
    let why = why.as_str();
    format!(in alloc; ", {name}: REFUSED {number}, since {file}{why}")
}

/// What was read of a recording, from when and to when.
pub fn words_of_extent(
    alloc: Global,
    entrant: &Entrant,
    extent: &Extent,
) -> Result<String, AllocError> {
    let file = entrant.file.as_str();
    let first = time_words(alloc, i64::from(extent.first.fix.second))?;
    let first = first.as_str();
    let last = time_words(alloc, i64::from(extent.last.fix.second))?;
    let last = last.as_str();
    format!(in alloc; " fixes in {file}, from {first} to {last}")
}
