use gl_airspace::AirError;
use gl_desk::Name;
use std::alloc::{AllocError, Global};

/// What is said of an airspace file that doesn't read.
pub fn words_of_no_air(alloc: Global, error: &AirError) -> Result<String, AllocError> {
    match error {
        AirError::Line(line) => format!(in alloc;
            ", the airspace file, doesn't read, at line {line}. docs/airspace.md has what does"
        ),
        AirError::TooMany(line) => format!(in alloc;
            ", the airspace file, has too much at line {line}. It may have 256 volumes and 4096 corners"
        ),
        AirError::Memory => String::from_str(alloc, ", the airspace file, doesn't read"),
    }
}

/// What is said of a file that says no task.
pub fn words_of_no_task(alloc: Global, file: &Name) -> Result<String, AllocError> {
    let file = file.as_str();
    format!(in alloc; " says no task. `look-over {file}` says what is wrong, and where")
}

/// What is said of a task without the entrant who is asked for.
pub fn words_of_no_entrant(alloc: Global, choice: Option<&Name>) -> Result<String, AllocError> {
    match choice {
        Some(number) => {
            let number = number.as_str();
            format!(in alloc; " has no entrant {number}. Write the number as it is there")
        }
        None => String::from_str(alloc, " has no entrant"),
    }
}
