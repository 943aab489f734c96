use crate::key_words::words_of_section;
use crate::rows::{KeyName, hint_of, key_of_row};
use crate::scan::Scan;
use crate::told::{Place, Section};
use gl_task::Key;
use gl_task_file::TaskError;
use std::alloc::{AllocError, Global};

/// The table in which a key stands.
fn place_of(key: Key, name: KeyName) -> Place {
    Place {
        section: name.section,
        item: key.item as usize,
        part: key.part as usize,
    }
}

/// Who or what an item is: an entrant by number and name, a zone by its number, or nothing.
fn item_words(alloc: Global, scan: Scan<'_>, place: Place) -> Result<String, AllocError> {
    let item = place.item;
    let part = place.part;
    match place.section {
        Section::Entrant => {
            let number = scan.value_of(place, "number").unwrap_or("");
            let name = scan.value_of(place, "name").unwrap_or("");
            format!(in alloc; " of entrant {number} ({name}), the {item}. in the file,")
        }
        Section::Zone => format!(in alloc; " of zone {item}"),
        Section::Part => format!(in alloc; " of part {part} of zone {item}"),
        _ => Ok(String::new(alloc)),
    }
}

/// The line of a key, as far as the text shows it.
fn line_of(scan: Scan<'_>, place: Place, name: KeyName) -> Option<usize> {
    scan.line_of_key(place, name.key)
}

/// What is wrong with a key of the task file, and what to do.
fn words_of(
    alloc: Global,
    scan: Scan<'_>,
    key: Key,
    name: KeyName,
    error: &TaskError,
) -> Result<String, AllocError> {
    let place = place_of(key, name);
    let item = item_words(alloc, scan, place)?;
    let item = item.as_str();
    let there = words_of_section(place.section);
    let name = name.key;
    let hint = hint_of(key.row);
    match error {
        TaskError::Missing(_) => {
            format!(in alloc; "`{name}`{item} is missing. Write it {there}: {hint}")
        }
        TaskError::Twice(_) => {
            format!(in alloc;
                "`{name}`{item} is that of an earlier entrant. Give one of the two another number"
            )
        }
        TaskError::TooMany(_) => {
            format!(in alloc; "`{name}`{item} has too many items. Take some out: {hint}")
        }
        _ => format!(in alloc; "`{name}`{item} has a value that it can't have. It is {hint}"),
    }
}

/// The key that a refusal names.
fn key_of(error: &TaskError) -> Option<Key> {
    match error {
        TaskError::Missing(key)
        | TaskError::Value(key)
        | TaskError::Twice(key)
        | TaskError::TooMany(key) => Some(*key),
        TaskError::Toml | TaskError::Memory => None,
    }
}

/// The line and the words for a file that says no task.
pub fn refusal(
    alloc: Global,
    scan: Scan<'_>,
    error: &TaskError,
) -> Result<(Option<usize>, String), AllocError> {
    let Some(key) = key_of(error) else {
        let words = String::from_str(alloc, "the file isn't a task file")?;
        return Ok((None, words));
    };
    let name = key_of_row(key.row);
    let words = words_of(alloc, scan, key, name, error)?;
    Ok((line_of(scan, place_of(key, name), name), words))
}
