use crate::folder_words::like;
use gl_desk::Name;
use std::alloc::{AllocError, Global};
use toml::de::Error;

/// The line on which a text stops being TOML.
pub fn line_of_error(text: &[u8], error: &Error) -> Option<usize> {
    let span = error.span()?;
    let mut line: usize = 1;
    for byte in text.iter().take(span.start) {
        if *byte == b'\n' {
            line = line.saturating_add(1);
        }
    }
    Some(line)
}

/// Why a text isn't TOML, and what to do.
pub fn words_of_error(alloc: Global, error: &Error) -> Result<String, AllocError> {
    let message = error.message();
    format!(in alloc;
        "this isn't TOML: {message}. Look here and on the line before for a quote, a bracket or a value that is missing"
    )
}

/// What is wrong with a task file that isn't there, and what to do.
pub fn words_of_absent(alloc: Global, names: &[Name], file: &Name) -> Result<String, AllocError> {
    match like(names, file.as_str()) {
        Some(other) => {
            let other = other.as_str();
            format!(in alloc;
                "there is no such file in the folder, which has {other}. Write the name as it is there"
            )
        }
        None => String::from_str(
            alloc,
            "there is no such file in the folder. Go to the folder of the day, and write its name as it is there",
        ),
    }
}

/// What is wrong with a task file that is too large.
pub fn words_of_large(alloc: Global) -> Result<String, AllocError> {
    String::from_str(
        alloc,
        "the file has more than 16777216 bytes, which no task file has",
    )
}
