use crate::crossing_words::clock;
use crate::scan::Scan;
use crate::told::{Place, Section};
use gl_task::Task;
use std::alloc::{AllocError, Global};

/// The line of the task file that says when the task closes.
pub fn line_of_closes(scan: Scan<'_>) -> Option<usize> {
    let top = Place {
        section: Section::Day,
        item: 0,
        part: 0,
    };
    scan.line_of_key(top, "closes")
}

/// What is wrong with a flight that comes within the finish after its task closed, and what to do.
pub fn words_of_closed(
    alloc: Global,
    task: &Task,
    late: Option<i32>,
    line: Option<usize>,
) -> Result<String, AllocError> {
    let home = clock(alloc, late.unwrap_or(task.closes))?;
    let home = home.as_str();
    let closes = clock(alloc, task.closes)?;
    let closes = closes.as_str();
    let line = line.unwrap_or(1);
    format!(in alloc;
        ": he didn't finish. He came within the finish at {home} UTC, after all zones, but the task closes at {closes}. Look at `closes`, line {line}"
    )
}
