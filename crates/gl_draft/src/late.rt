ghost use Rattle.std.specs.Prelude.{◌≡◌, ◌++◌, ◌≤◌, IfOk, OnOk, drop, filter, length, map};
ghost use Rattle.std.specs.List.{list_any};
ghost use Rattle.gl_draft.specs.Draft.{entrants_lines};
ghost use Rattle.gl_draft.specs.Late.{IsLateText, is_late, is_named, known_entrant};

use crate::entrant::{Entrant, are_of_day, entrants_behind};
use crate::entrant_line::{Seen, say_entrants};
use crate::line::{Filling, text_with};
use crate::lines::Lines;
use crate::recording::Recording;
use gl_desk::Name;
use gl_task::{Entrant as TaskEntrant, Task};
use std::alloc::{AllocError, Global};

/// An entrant of a task file.
fn known_entrant(alloc: Global, entrant: &TaskEntrant) -> Result<Entrant, AllocError>
    ensures { IfOk result (λ known. known ≡ known_entrant entrant.now) }
{
    Ok(Entrant {
        number: Some(Name::from_text(alloc, entrant.number.as_str())?),
        name: Name::from_text(alloc, entrant.name.as_str())?,
        file: Name::from_text(alloc, entrant.file.as_str())?,
    })
}

/// The entrants of a task file.
fn known_entrants(alloc: Global, entrants: &[TaskEntrant]) -> Result<Vec<Entrant>, AllocError>
    ensures { IfOk result (λ known. known.items ≡ map known_entrant entrants.now) }
{
    let mut known = Vec::new(alloc);
    'entrants: for entrant in entrants {
        known.push(known_entrant(alloc, entrant)?)?;
    }
    Ok(known)
}

/// Whether an entrant of a task file names a recording.
fn is_named(recording: &Recording, entrant: &TaskEntrant) -> bool
    ensures { result ≡ is_named recording.now entrant.now }
{
    entrant.file == recording.file
}

/// Whether an entrant among those of a task file names a recording.
fn is_known(entrants: &[TaskEntrant], recording: &Recording) -> bool
    ensures { result ≡ list_any (is_named recording.now) entrants.now }
{
    entrants.iter().any(|entrant| is_named(recording, entrant))
}

/// Whether no entrant of a task file names a recording.
fn is_late(entrants: &[TaskEntrant], recording: &Recording) -> bool
    ensures { result ≡ is_late entrants.now recording.now }
{
    !is_known(entrants, recording)
}

/// Those of some recordings that no entrant of a task file names.
fn late_among(
    alloc: Global,
    entrants: &[TaskEntrant],
    recordings: Vec<Recording>,
) -> Result<Vec<Recording>, AllocError>
    ensures { IfOk result (λ late. late.items ≡ filter (is_late entrants.now) recordings.items) }
{
    recordings
        .into_iter()
        .filter(|recording| is_late(entrants, recording))
        .collect(alloc)
}

/// The remarks above the tables of late recordings.
fn note_late(lines: &mut Lines, file: &Name, late: &[Recording]) -> Result<(), AllocError>
    ensures { OnOk result (lines.new ≡ lines.old) }
{
    let alloc = lines.alloc();
    let file = file.as_str();
    if late.is_empty() {
        let text = format!(in alloc; "Every recording of the folder has an entrant in {file}.")?;
        return lines.remark(text);
    }
    let text = format!(in alloc; "Copy these tables to the end of {file}.")?;
    lines.remark(text)?;
    lines.note("Everybody here has the handicap 1000: change it if there are handicaps.")
}

/// Says the tables of late recordings, the entrants behind those of a task file.
fn say_late(
    lines: &mut Lines,
    task: &Task,
    late: &[Recording],
    all: &[Entrant],
) -> Result<(), AllocError>
    requires { length task.now.entrants ≤ length all.now }
    ensures { OnOk result (lines.new
        ≡ lines.old ++ entrants_lines 0 (drop (length task.now.entrants) all.now)) }
{
    let seen = Seen {
        entrants: all,
        recordings: late,
        is_of_several_days: !are_of_day(task.date, late),
    };
    say_entrants(lines, &seen, &all[task.entrants.len()..])
}

/// The tables of late recordings.
fn tables_of(
    alloc: Global,
    file: &Name,
    task: &Task,
    late: &[Recording],
) -> Result<Vec<u8>, AllocError>
    ensures { IfOk result (λ text. IsLateText task.now.entrants late.now text.items) }
{
    let known = known_entrants(alloc, task.entrants.as_slice())?;
    let all = entrants_behind(alloc, known, late)?;
    let mut lines = Lines::new(alloc);
    note_late(&mut lines, file, late)?;
    say_late(&mut lines, task, late, &all)?;
    text_with(alloc, Filling::Mark, lines.as_slice())
}

/// The tables of those recordings that no entrant of a task names.
pub fn late_text(
    alloc: Global,
    file: &Name,
    task: &Task,
    recordings: Vec<Recording>,
) -> Result<Vec<u8>, AllocError>
    ensures { IfOk result (λ text. IsLateText task.now.entrants
        (filter (is_late task.now.entrants) recordings.items) text.items) }
{
    let late = late_among(alloc, task.entrants.as_slice(), recordings)?;
    tables_of(alloc, file, task, &late)
}
