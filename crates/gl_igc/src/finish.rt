ghost use Rattle.std.specs.Prelude.{◌≡◌, ℕ, List, Ok, Err, MatchResult, slice_get};
ghost use Rattle.gl_sphere.specs.Range.{IsWithin};
ghost use Rattle.gl_igc.specs.Columns.{day};
ghost use Rattle.gl_igc.specs.Progress.{StandsFor};
ghost use Rattle.gl_igc.specs.Reading.{most_fixes, reading_of_fixes, recording_of_lines};
ghost use Rattle.gl_igc.specs.Recording.{reading_of};
ghost use Rattle.gl_igc.specs.UsedFixes.{used_fixes};
ghost use Rattle.gl_igc.specs.declared.error.IgcError.TheVariants.{WrongDay};

use crate::declaration_steps::declared;
use crate::error::IgcError;
use crate::progress::Progress;
use crate::recording::Recording;
use crate::shift::{day_shift, shift_events, shift_fixes};
use gl_text::Items;

/// The recording of the lines, where its day and the shift of its seconds are known.
fn finish_fixes(progress: Progress, date: i32, shift: i32) -> Result<Recording, IgcError>
    requires { IsWithin day shift }
    ensures { (lines : List (List ℕ)) → StandsFor lines progress
        → MatchResult result
        (λ recording. reading_of_fixes (slice_get (used_fixes lines) most_fixes) date shift lines
        ≡ Ok (reading_of recording))
        (λ e. reading_of_fixes (slice_get (used_fixes lines) most_fixes) date shift lines ≡ Err e) }
{
    let Progress {
        track,
        events,
        declaration,
        ..
    } = progress;
    if let Some(line) = track.excess {
        return Err(IgcError::TooManyFixes { line });
    }
    if track.fixes.is_empty() {
        return Err(IgcError::NoFix);
    }
    let skipped = track.skipped;
    let mut fixes = track.fixes;
    shift_fixes(&mut fixes, shift);
    let mut seconds = events.seconds;
    shift_events(&mut seconds, shift);
    Ok(Recording {
        date,
        fixes: Items::from_vec(fixes),
        events: Items::from_vec(seconds),
        declared: declared(declaration),
        skipped,
    })
}

/// The refusal of a recording of this day.
fn wrong_day(day: i32) -> IgcError
    ensures { result ≡ WrongDay day }
{
    IgcError::WrongDay { day }
}

/// The recording of the lines, or its refusal.
pub fn finish(progress: Progress, task_day: Option<i32>) -> Result<Recording, IgcError>
    ensures { (lines : List (List ℕ)) → StandsFor lines progress
        → MatchResult result
        (λ recording. recording_of_lines lines task_day ≡ Ok (reading_of recording))
        (λ e. recording_of_lines lines task_day ≡ Err e) }
{
    if !progress.opening.unwrap_or(false) {
        return Err(IgcError::NotIgc);
    }
    let Some(date) = progress.date else {
        return Err(IgcError::NoDate);
    };
    let Some(shift) = day_shift(date, task_day) else {
        return Err(wrong_day(date));
    };
    finish_fixes(progress, date, shift)
}
