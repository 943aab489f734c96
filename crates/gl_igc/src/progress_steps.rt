ghost use Rattle.std.specs.Prelude.{◌≡◌, ℕ, List, [], ◌∷◌, ◌++◌, OnOk, option_map};
ghost use Rattle.std.specs.Option.{option_or};
ghost use Rattle.gl_igc.specs.Dates.{date_of_line};
ghost use Rattle.gl_igc.specs.Extension.{extension_of_line};
ghost use Rattle.gl_igc.specs.Parts.{extension_view};
ghost use Rattle.gl_igc.specs.Progress.{StandsFor};
ghost use Rattle.gl_igc.specs.Reading.{opening_of_line};

use crate::date::date_of_line;
use crate::declaration::{Declaration, Heading};
use crate::declaration_steps::take_declared;
use crate::event_steps::take_event;
use crate::events::Events;
use crate::extension::Fields;
use crate::groups::read_fields;
use crate::progress::Progress;
use crate::track::Track;
use crate::track_steps::take_fix;
use std::alloc::{AllocError, Global};

/// Whether a line begins with `A`; an empty line doesn't say.
#[inline]
#[tactic(auto, unfolding(crate::specs::Reading::opening_of_line))]
fn opening_of_line(line: &[u8]) -> Option<bool>
    ensures { result ≡ opening_of_line line.now }
{
    let letter = line.first()?;
    Some(*letter == b'A')
}

/// The day of the first date line, where that of a line may be the first.
#[inline]
fn first_date(first: Option<i32>, line: &[u8]) -> Option<i32>
    ensures { result ≡ option_or first (date_of_line line.now) }
{
    match first {
        Some(date) => Some(date),
        None => date_of_line(line),
    }
}

/// The fields of the first undamaged I line, where a line may be the first.
#[inline]
fn first_fields(first: Option<Fields>, line: &[u8]) -> Option<Fields>
    ensures { option_map extension_view result
        ≡ option_or (option_map extension_view first) (extension_of_line line.now) }
{
    match first {
        Some(fields) => Some(fields),
        None => read_fields(line),
    }
}

/// Before any line.
pub fn no_lines(alloc: Global) -> Progress
    ensures { StandsFor [] result }
{
    Progress {
        lines: 0,
        opening: None,
        date: None,
        fields: None,
        track: Track {
            fixes: Vec::new(alloc),
            last: None,
            skipped: 0,
            excess: None,
        },
        events: Events {
            seconds: Vec::new(alloc),
        },
        declaration: Declaration {
            heading: Heading::Awaited,
            points: Vec::new(alloc),
        },
    }
}

/// Takes the next line: what stood for some lines then stands for these and the next one.
pub fn take_line(progress: &mut Progress, line: &[u8]) -> Result<(), AllocError>
    ensures { OnOk result ((lines : List (List ℕ)) → StandsFor lines progress.old
        → StandsFor (lines ++ line.now ∷ []) progress.new) }
{
    progress.lines = progress.lines.saturating_add(1);
    progress.opening = progress.opening.or(opening_of_line(line));
    progress.date = first_date(progress.date, line);
    take_event(&mut progress.events, &progress.track, line)?;
    take_fix(&mut progress.track, progress.fields, progress.lines, line)?;
    take_declared(&mut progress.declaration, line)?;
    progress.fields = first_fields(progress.fields, line);
    Ok(())
}
