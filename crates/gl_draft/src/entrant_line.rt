ghost use Rattle.std.specs.Prelude.{◌≡◌, ◌++◌, ◌∷◌, [], OnOk};
ghost use Rattle.gl_draft.specs.Draft.{entrant_lines, entrants_lines, number_line};

use crate::entrant::{Entrant, has_number, number_of};
use crate::lines::Lines;
use crate::recording::Recording;
use crate::word::{Key, Section};
use gl_desk::Name;
use jiff_core::civil::Date;
use std::alloc::{AllocError, Global};

/// What the remarks at an entrant come from.
#[derive(Clone, Copy, Debug)]
pub struct Seen<'a> {
    pub entrants: &'a [Entrant],
    pub recordings: &'a [Recording],
    /// Whether the recordings are of several days.
    pub is_of_several_days: bool,
}

/// The recording of the n-th entrant.
fn recording_at<'a>(seen: &Seen<'a>, n: u64) -> Option<&'a Recording> {
    let n = usize::try_from(n).ok()?;
    seen.recordings.get(n)
}

/// Why a number that a recording has is left to fill in: it is that of another.
fn taken_remark(
    alloc: Global,
    entrants: &[Entrant],
    number: &Name,
) -> Result<Option<String>, AllocError> {
    let Some(entrant) = entrants
        .iter()
        .find(|entrant| has_number(number, &entrant.number))
    else {
        return Ok(None);
    };
    let number = number.as_str();
    let name = entrant.name.as_str();
    let file = entrant.file.as_str();
    Ok(Some(format!(in alloc; "the number {number} is that of {name} in {file}")?))
}

/// Appends where the number of an entrant comes from, if the recording doesn't say it, or why it is
/// left to fill in.
fn note_number(
    lines: &mut Lines,
    seen: &Seen<'_>,
    entrant: &Entrant,
    recording: &Recording,
) -> Result<(), AllocError>
    ensures { OnOk result (lines.new ≡ lines.old) }
{
    if entrant.number.is_none() {
        let Some(number) = number_of(lines.alloc(), recording)? else {
            return lines.note("neither the recording nor its file's name has a number");
        };
        let remark = taken_remark(lines.alloc(), seen.entrants, &number)?;
        return lines.note_if(remark);
    }
    if recording.number.is_none() {
        return lines.note("the recording has no number: this one is from the file's name");
    }
    Ok(())
}

/// Appends where the name of an entrant comes from, or how it is read.
fn note_pilot(lines: &mut Lines, recording: &Recording) -> Result<(), AllocError>
    ensures { OnOk result (lines.new ≡ lines.old) }
{
    let Some(spelling) = recording.spelling else {
        return lines.note("the recording has no pilot: this name is from the file's name");
    };
    if spelling.is_latin {
        lines.note("the recording's line isn't UTF-8: this name is read as Latin-1")?;
    }
    if spelling.has_controls {
        lines.note("the recording's line has control characters, which are dropped")?;
    }
    Ok(())
}

/// What the number of a refusal means.
fn meaning_of(refusal: u32) -> &'static str {
    match refusal {
        1 => "it doesn't begin with an A line",
        2 => "it has no valid date",
        4 => "it has more than 90,000 fixes",
        5 => "it has no fix that can be used",
        _ => "it has more than 16,777,216 bytes",
    }
}

/// Why a recording may not count: it doesn't read, or it is of one of several days.
fn recording_remark(
    alloc: Global,
    seen: &Seen<'_>,
    recording: &Recording,
) -> Result<Option<String>, AllocError> {
    if let Some(refusal) = recording.refusal {
        let meaning = meaning_of(refusal);
        let text = format!(in alloc; "the recording doesn't read: REFUSED {refusal}, {meaning}")?;
        return Ok(Some(text));
    }
    let Some(day) = recording.day else {
        return Ok(None);
    };
    let Ok(date) = Date::from_unix_epoch_day(i64::from(day)) else {
        return Ok(None);
    };
    if !seen.is_of_several_days {
        return Ok(None);
    }
    let year = date.year;
    let month = date.month;
    let day = date.day;
    let day = format!(in alloc; "{year:04}-{month:02}-{day:02}")?;
    let text = format!(in alloc;
        "the recording is of {day}: REFUSED 3 if that is more than a day from the date"
    )?;
    Ok(Some(text))
}

/// Appends the number of an entrant, the n-th.
fn say_number(lines: &mut Lines, number: &Option<Name>, n: u64) -> Result<(), AllocError>
    ensures { OnOk result (lines.new ≡ lines.old ++ number_line n number.now ∷ []) }
{
    match number {
        Some(number) => lines.text(Key::Number, number),
        None => lines.ask(Key::Number, n),
    }
}

/// Appends an entrant, the n-th.
fn say_entrant(
    lines: &mut Lines,
    seen: &Seen<'_>,
    entrant: &Entrant,
    n: u64,
) -> Result<(), AllocError>
    ensures { OnOk result (lines.new ≡ lines.old ++ entrant_lines n entrant.now) }
{
    lines.gap()?;
    lines.head(Section::Entrant)?;
    let recording = recording_at(seen, n);
    if let Some(recording) = recording {
        note_number(lines, seen, entrant, recording)?;
    }
    say_number(lines, &entrant.number, n)?;
    if let Some(recording) = recording {
        note_pilot(lines, recording)?;
    }
    lines.text(Key::Name, &entrant.name)?;
    lines.amount(Key::Handicap, 1_000)?;
    if let Some(recording) = recording {
        let remark = recording_remark(lines.alloc(), seen, recording)?;
        lines.note_if(remark)?;
    }
    lines.text(Key::File, &entrant.file)
}

/// Appends entrants, who stand beside their recordings.
pub fn say_entrants(
    lines: &mut Lines,
    seen: &Seen<'_>,
    entrants: &[Entrant],
) -> Result<(), AllocError>
    ensures { OnOk result (lines.new ≡ lines.old ++ entrants_lines 0 entrants.now) }
{
    let mut n: u64 = 0;
    let mut left = entrants;
    'entrants: while let Some((entrant, rest)) = left.split_first() {
        say_entrant(lines, seen, entrant, n)?;
        n += 1;
        left = rest;
    }
    Ok(())
}
