ghost use Rattle.std.specs.Prelude.{◌≡◌, ◌++◌, Some, IfOk, OnOk};
ghost use Rattle.std.specs.List.{list_any};
ghost use Rattle.gl_desk.specs.Answers.{OnlyReads, stop_of};
ghost use Rattle.gl_desk.specs.Desk.{ListsNames};
ghost use Rattle.gl_look.specs.Code.Readings.{IsKnown};
ghost use Rattle.gl_look.specs.Flights.{AddsTold, AreCrossedIn, AreTold, IsFileTold, IsLateIn, IsSlipOf, IsTextSlip, has_mark, is_in_hours, or_closed, slip_of_read, unless_marked};
ghost use Rattle.gl_look.specs.Keys.{told_if};
ghost use Rattle.gl_look.specs.declared.told.Subject.TheVariants as subject;

use crate::closing::late_finish;
use crate::closing_words::line_of_closes;
use crate::crossing::{crossed_in, slip_of_start};
use crate::folder::about;
use crate::recording_words::{Flown, Found, words_of_recording};
use crate::remarks::Remarks;
use crate::scan::Scan;
use crate::sight::{Sight, see};
use crate::told::{Slip, Told};
use gl_desk::{Desk, DeskError, Name};
use gl_igc::{Fix, IgcError, Recording, read_igc};
use gl_task::{Entrant, Task};
use std::alloc::{AllocError, Global};

/// Whether a text begins with the byte-order mark of UTF-8.
#[tactic(auto, unfolding(crate::specs::Flights::has_mark))]
pub fn has_mark(text: &[u8]) -> bool
    ensures { result ≡ has_mark text.now }
{
    text.starts_with(b"\xef\xbb\xbf")
}

/// Whether a fix lies in the hours of a task.
fn is_in_hours(closes: i32, fix: &Fix) -> bool
    ensures { result ≡ is_in_hours closes fix.now }
{
    0 <= fix.second && fix.second <= closes
}

/// Whether one of some fixes lies in the hours of a task.
fn has_hours(closes: i32, fixes: &[Fix]) -> bool
    ensures { result ≡ list_any (is_in_hours closes) fixes.now }
{
    fixes.iter().any(|fix| is_in_hours(closes, fix))
}

/// What is wrong, or else that the task closes before the flight comes within the finish.
fn or_closed(other: Option<Slip>, late: Option<i32>) -> Option<Slip>
    ensures { result ≡ or_closed other late }
{
    match (other, late) {
        (Some(slip), _) => Some(slip),
        (None, Some(_)) => Some(Slip::Closed),
        (None, None) => None,
    }
}

/// What is wrong with a recording, as it was read.
fn slip_of_read(
    task: &Task,
    read: &Result<Recording, IgcError>,
    crossed: &[Option<i32>],
    late: Option<i32>,
) -> Option<Slip>
    ensures { result ≡ slip_of_read task.now read.now crossed.now late }
{
    match read {
        Ok(recording) => {
            if has_hours(task.closes, recording.fixes.as_slice()) {
                or_closed(slip_of_start(&task.start, crossed), late)
            } else {
                Some(Slip::OutOfHours)
            }
        }
        Err(_) => Some(Slip::NotRead),
    }
}

/// What is wrong with a text that has a byte-order mark, or something else.
pub fn unless_marked(text: &[u8], other: Option<Slip>) -> Option<Slip>
    ensures { result ≡ unless_marked text.now other }
{
    if has_mark(text) {
        Some(Slip::Mark)
    } else {
        other
    }
}

/// What is read of a recording, by the day of the task; want of memory apart.
fn read_text(
    alloc: Global,
    task: &Task,
    text: &[u8],
) -> Result<Result<Recording, IgcError>, AllocError>
    ensures { IfOk result (IsKnown text.now (Some task.now.date)) }
{
    match read_igc(alloc, text, Some(task.date)) {
        Ok(recording) => Ok(Ok(recording)),
        Err(IgcError::Memory) => Err(AllocError),
        Err(error) => Ok(Err(error)),
    }
}

/// When a recording, as it was read, crosses the start line.
fn crossed_of(
    alloc: Global,
    task: &Task,
    read: &Result<Recording, IgcError>,
) -> Result<Vec<Option<i32>>, AllocError>
    ensures { IfOk result (λ crossed. AreCrossedIn task.now.start.line read.now crossed.items) }
{
    match read {
        Ok(recording) => crossed_in(alloc, &task.start.line, recording.fixes.as_slice()),
        Err(_) => Ok(Vec::new(alloc)),
    }
}

/// When a recording, as it was read, comes within the finish too late.
fn late_of(alloc: Global, task: &Task, read: &Result<Recording, IgcError>) -> Option<i32>
    ensures { IsLateIn task.now read.now result }
{
    match read {
        Ok(recording) => late_finish(alloc, task, recording),
        Err(_) => None,
    }
}

/// What is wrong with the bytes of a recording, and the words for it.
fn look_at_bytes(
    alloc: Global,
    scan: Scan<'_>,
    task: &Task,
    entrant: &Entrant,
    text: &[u8],
) -> Result<(Option<Slip>, String), AllocError>
    ensures { IfOk result (λ found. IsTextSlip task.now text.now found.0) }
{
    let read = read_text(alloc, task, text)?;
    let crossed = crossed_of(alloc, task, &read)?;
    let late = late_of(alloc, task, &read);
    let slip = unless_marked(text, slip_of_read(task, &read, &crossed, late));
    let found = Found::Read(Flown {
        read: &read,
        crossed: &crossed,
        late,
        line: line_of_closes(scan),
    });
    let words = words_of_recording(alloc, task, entrant, slip, found)?;
    Ok((slip, words))
}

/// What is wrong with a recording of which this is seen, and the words for it.
fn look_at_sight(
    alloc: Global,
    scan: Scan<'_>,
    task: &Task,
    names: &[Name],
    entrant: &Entrant,
    sight: &Sight,
) -> Result<(Option<Slip>, String), AllocError>
    ensures { IfOk result (λ found. IsSlipOf task.now sight.now found.0) }
{
    match sight {
        Sight::Absent => {
            let slip = Some(Slip::NoFile);
            let words = words_of_recording(alloc, task, entrant, slip, Found::Names(names))?;
            Ok((slip, words))
        }
        Sight::TooLarge => {
            let slip = Some(Slip::TooLarge);
            let words = words_of_recording(alloc, task, entrant, slip, Found::Names(names))?;
            Ok((slip, words))
        }
        Sight::Bytes(text) => look_at_bytes(alloc, scan, task, entrant, text),
    }
}

/// Remarks what is wrong with the recording of an entrant, if something is.
fn push_found(
    alloc: Global,
    remarks: &mut Remarks,
    scan: Scan<'_>,
    entrant: &Entrant,
    slip: Option<Slip>,
    words: String,
) -> Result<(), AllocError>
    ensures { OnOk result
        (remarks.new ≡ remarks.old ++ told_if (subject.Entrant entrant.now.number) slip) }
{
    match slip {
        Some(slip) => {
            let subject = about(alloc, entrant)?;
            let head = scan.head(alloc, scan.line_of_number(entrant.number.as_str()))?;
            remarks.push(Told { subject, slip }, head, words)
        }
        None => Ok(()),
    }
}

/// Remarks what is wrong with the recording of an entrant.
fn look_at_recording<D: Desk>(
    alloc: Global,
    desk: &mut D,
    remarks: &mut Remarks,
    scan: Scan<'_>,
    names: &[Name],
    task: &Task,
    entrant: &Entrant,
) -> Result<(), DeskError>
    requires { ListsNames (D.told desk.old).folder names.now }
    ensures told { OnOk result (AddsTold
        (IsFileTold (D.told desk.old).folder names.now task.now entrant.now) remarks.old remarks.new) }
    ensures reads { OnlyReads (stop_of result) (D.told desk.old) (D.told desk.new) }
{
    let sight = see(alloc, desk, names, &entrant.file)?;
    let (slip, words) = look_at_sight(alloc, scan, task, names, entrant, &sight)?;
    push_found(alloc, remarks, scan, entrant, slip, words)?;
    Ok(())
}

/// Remarks what is wrong with the recordings of a task.
pub fn look_at_recordings<D: Desk>(
    alloc: Global,
    desk: &mut D,
    remarks: &mut Remarks,
    scan: Scan<'_>,
    names: &[Name],
    task: &Task,
) -> Result<(), DeskError>
    requires { ListsNames (D.told desk.old).folder names.now }
    ensures told { OnOk result (AddsTold
        (AreTold (IsFileTold (D.told desk.old).folder names.now task.now) task.now.entrants) remarks.old remarks.new) }
    ensures reads { OnlyReads (stop_of result) (D.told desk.old) (D.told desk.new) }
{
    let entrants = task.entrants.as_slice();
    'entrants: for entrant in entrants {
        look_at_recording(alloc, desk, remarks, scan, names, task, entrant)?;
    }
    Ok(())
}
