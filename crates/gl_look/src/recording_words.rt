use crate::closing_words::words_of_closed;
use crate::crossing_words::words_of_crossed;
use crate::folder_words::words_of_missing;
use crate::told::Slip;
use gl_desk::Name;
use gl_igc::{IgcError, Recording};
use gl_task::{Entrant, Task};
use jiff_core::civil::Date;
use std::alloc::{AllocError, Global};

/// What was read of a recording, when it crosses the start line, when it comes within the finish too
/// late, and the line of the task file that says when the task closes.
#[derive(Clone, Copy, Debug)]
pub struct Flown<'a> {
    pub read: &'a Result<Recording, IgcError>,
    pub crossed: &'a [Option<i32>],
    pub late: Option<i32>,
    pub line: Option<usize>,
}

/// What is known of a recording for the words.
#[derive(Clone, Copy, Debug)]
pub enum Found<'a> {
    /// The names of the folder.
    Names(&'a [Name]),
    /// What was read of it.
    Read(Flown<'a>),
}

/// A day, as `2024-07-01`.
pub fn day_words(alloc: Global, number: i32) -> Result<String, AllocError> {
    let Ok(date) = Date::from_unix_epoch_day(i64::from(number)) else {
        return String::from_str(alloc, "another day");
    };
    let year = date.year;
    let month = date.month;
    let day = date.day;
    format!(in alloc; "{year:04}-{month:02}-{day:02}")
}

/// Why a recording doesn't read, and what to do.
fn words_of_refusal(
    alloc: Global,
    task: &Task,
    file: &str,
    error: &IgcError,
) -> Result<String, AllocError> {
    match error {
        IgcError::NotIgc => format!(in alloc;
            ": his recording {file} is refused (REFUSED 1): its first line, line 1, doesn't begin with A, as a recorder writes it. Ask him for the recorder's own file"
        ),
        IgcError::NoDate => format!(in alloc;
            ": his recording {file} is refused (REFUSED 2): it has no line HFDTE with a date. Ask him for the recorder's own file"
        ),
        IgcError::WrongDay { day } => {
            let flown = day_words(alloc, *day)?;
            let flown = flown.as_str();
            let wanted = day_words(alloc, task.date)?;
            let wanted = wanted.as_str();
            format!(in alloc;
                ": his recording {file} is refused (REFUSED 3): it is of {flown}, the task of {wanted}. Put the recording of that day there, or correct the date"
            )
        }
        IgcError::TooManyFixes { line } => format!(in alloc;
            ": his recording {file} is refused (REFUSED 4): it has more than 90000 fixes, up to line {line}. Ask him for a recording of this flight alone"
        ),
        IgcError::NoFix => format!(in alloc;
            ": his recording {file} is refused (REFUSED 5): it has no fix that can be used. Ask him for the recording of another recorder"
        ),
        IgcError::Memory => format!(in alloc; ": his recording {file} doesn't read"),
    }
}

/// What is wrong with a recording without a fix in the task's hours, and what to do.
fn words_of_hours(
    alloc: Global,
    task: &Task,
    file: &str,
    recording: &Recording,
) -> Result<String, AllocError> {
    let flown = day_words(alloc, recording.date)?;
    let flown = flown.as_str();
    let wanted = day_words(alloc, task.date)?;
    let wanted = wanted.as_str();
    format!(in alloc;
        ": his recording {file}, of {flown}, has no fix in the hours of the task, of {wanted}. Look at its day, at `date` and at `closes`"
    )
}

/// What is wrong with a recording as it was read, and what to do.
fn words_of_read(
    alloc: Global,
    task: &Task,
    file: &str,
    read: &Result<Recording, IgcError>,
) -> Result<String, AllocError> {
    match read {
        Ok(recording) => words_of_hours(alloc, task, file, recording),
        Err(error) => words_of_refusal(alloc, task, file, error),
    }
}

/// What is wrong with an entrant's recording, and what to do.
pub fn words_of_recording(
    alloc: Global,
    task: &Task,
    entrant: &Entrant,
    slip: Option<Slip>,
    found: Found<'_>,
) -> Result<String, AllocError> {
    let file = entrant.file.as_str();
    match (slip, found) {
        (None, _) => Ok(String::new(alloc)),
        (Some(Slip::NoFile), Found::Names(names)) => words_of_missing(alloc, names, &entrant.file),
        (Some(Slip::Mark), _) => format!(in alloc;
            ": his recording {file} begins with a byte-order mark, which none can have. Save it without one, or ask him for the recorder's own file"
        ),
        (Some(Slip::NoStart), Found::Read(flown)) => {
            words_of_crossed(alloc, task, flown.crossed)
        }
        (Some(Slip::Closed), Found::Read(flown)) => {
            words_of_closed(alloc, task, flown.late, flown.line)
        }
        (_, Found::Read(flown)) => words_of_read(alloc, task, file, flown.read),
        _ => format!(in alloc;
            ": his recording {file} is refused (REFUSED 7): it has more than 16777216 bytes. Ask him for a recording of this flight alone"
        ),
    }
}
