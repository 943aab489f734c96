ghost use Rattle.std.specs.Prelude.{◌≡◌, [], IfOk, OnOk};

use crate::course::greatest_rounding;
use crate::entrant::are_of_several_days;
use crate::lines::Lines;
use crate::plain::plain_text;
use crate::recording::Recording;
use gl_cup::{CupTask, PassedKey};
use gl_desk::Name;
use std::alloc::{AllocError, Global};

/// Where the file comes from.
fn source_remark(alloc: Global, file: &Name, task: &CupTask) -> Result<String, AllocError> {
    let file = file.as_str();
    let title = plain_text(alloc, task.title.as_slice())?;
    if title.is_empty() {
        format!(in alloc; "Made by new-day from {file}")
    } else {
        format!(in alloc; "Made by new-day from {file}: {title}")
    }
}

/// How far places are moved when they are rounded.
fn rounding_remark(alloc: Global, task: &CupTask) -> Result<String, AllocError> {
    let centimetres = greatest_rounding(task);
    let metres = centimetres / 100;
    let rest = centimetres % 100;
    format!(in alloc;
        "Places are rounded to a thousandth of a minute, by at most {metres}.{rest:02} m."
    )
}

/// A key that is passed over.
fn passed_remark(alloc: Global, passed: &PassedKey) -> Result<String, AllocError> {
    let line = passed.line;
    let key = plain_text(alloc, passed.key.as_slice())?;
    format!(in alloc; "Line {line} of the SeeYou file: {key} is passed over.")
}

/// Appends the keys that are passed over.
fn note_passed(lines: &mut Lines, passed: &[PassedKey]) -> Result<(), AllocError>
    ensures { OnOk result (lines.new ≡ lines.old) }
{
    'passed: for key in passed {
        let remark = passed_remark(lines.alloc(), key)?;
        lines.remark(remark)?;
    }
    Ok(())
}

/// Appends what is to be known of the day and its recordings.
fn note_recordings(
    lines: &mut Lines,
    recordings: &[Recording],
    left_out: bool,
) -> Result<(), AllocError>
    ensures { OnOk result (lines.new ≡ lines.old) }
{
    if are_of_several_days(recordings) {
        lines.note("The recordings are of several days: take out what isn't of this one.")?;
    }
    if left_out {
        lines.note("Some recordings are left out, since their names can't be written here.")?;
    }
    lines.note("Everybody has the handicap 1000: change it if there are handicaps.")
}

/// The remarks at the head of the file.
pub fn remarks(
    alloc: Global,
    file: &Name,
    task: &CupTask,
    recordings: &[Recording],
    left_out: bool,
) -> Result<Lines, AllocError>
    ensures { IfOk result (λ lines. lines ≡ []) }
{
    let mut lines = Lines::new(alloc);
    lines.remark(source_remark(alloc, file, task)?)?;
    lines.note("Fill in each line that says FILL IN; score refuses the file until then.")?;
    lines.remark(rounding_remark(alloc, task)?)?;
    note_passed(&mut lines, task.passed.as_slice())?;
    note_recordings(&mut lines, recordings, left_out)?;
    Ok(lines)
}
