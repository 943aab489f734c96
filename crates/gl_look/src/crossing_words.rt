use gl_task::Task;
use std::alloc::{AllocError, Global};

/// A time of day, as `10:00:05`.
pub fn clock(alloc: Global, second: i32) -> Result<String, AllocError> {
    let second = second.unsigned_abs();
    let hours = second / 3600;
    let minutes = second / 60 % 60;
    let seconds = second % 60;
    format!(in alloc; "{hours:02}:{minutes:02}:{seconds:02}")
}

/// Some times, with commas between them.
fn clocks(alloc: Global, crossed: &[Option<i32>]) -> Result<String, AllocError> {
    let mut text = String::new(alloc);
    for time in crossed {
        if let Some(second) = time {
            if !text.is_empty() {
                text.push_str(", ")?;
            }
            text.push_str(clock(alloc, *second)?.as_str())?;
        }
    }
    Ok(text)
}

/// What is wrong with a flight that crosses the start line outside its times alone, and what to do.
pub fn words_of_crossed(
    alloc: Global,
    task: &Task,
    crossed: &[Option<i32>],
) -> Result<String, AllocError> {
    let times = clocks(alloc, crossed)?;
    let times = times.as_str();
    let opens = clock(alloc, task.start.opens)?;
    let opens = opens.as_str();
    let close = clock(alloc, task.start.close)?;
    let close = close.as_str();
    format!(in alloc;
        ": he has no start. He crossed the line at {times} UTC, and it is open from {opens} to {close}. Look at `open` and `close`"
    )
}
