ghost use Rattle.std.specs.Prelude.{◌≡◌, ◌+◌, ◌<◌, ℕ, List, Some, None, OnOk, if◌then◌else◌};
ghost use Rattle.gl_igc.specs.FixLine.{is_fix_line, observation_of};
ghost use Rattle.gl_igc.specs.Parts.{IsTrackOf, sighting_at_own};
ghost use Rattle.gl_igc.specs.Code.Parts.{extension_held, observation_view};
ghost use Rattle.gl_igc.specs.Reading.{capped};
ghost use Rattle.gl_igc.specs.Recording.{sighting_of};
ghost use Rattle.gl_igc.specs.UsedFixes.{UsedFix, with_line};

use crate::extension::Fields;
use crate::fix::Fix;
use crate::fix_line::read_fix_line;
use crate::observation::Observed;
use crate::own_second::{may_follow, own_second, signed};
use crate::track::Track;
use gl_sphere::vector;
use std::alloc::AllocError;

/// The most fixes of a recording.
const MOST_FIXES: usize = 90_000;

/// The fields where no I line stands above.
const NO_FIELDS: Fields = Fields {
    lad: None,
    lod: None,
    enl: None,
};

/// The fix of a B line, with its own second.
#[inline]
fn fix_at(own: u32, seen: Observed) -> Fix
    requires { own < 500_000 }
    ensures { sighting_of result ≡ sighting_at_own own (observation_view seen) }
{
    Fix {
        second: signed(own),
        grid: seen.grid,
        at: vector(seen.grid),
        alt: seen.alt,
        enl: seen.enl,
    }
}

/// Counts a B line that gives no fix.
fn skip(track: &mut Track)
    requires { track.old.excess ≡ None }
    ensures { (used : List UsedFix) (lines : ℕ) → IsTrackOf used lines track.old
        → IsTrackOf used (lines + 1) track.new }
{
    track.skipped = track.skipped.saturating_add(1);
}

/// Takes what a B line says.
fn take_seen(track: &mut Track, number: u32, seen: Observed) -> Result<(), AllocError>
    requires { track.old.excess ≡ None }
    ensures { OnOk result ((used : List UsedFix) (lines line : ℕ) → number ≡ capped line
        → IsTrackOf used lines track.old
        → IsTrackOf (with_line line (Some (observation_view seen)) used) (lines + 1) track.new) }
{
    let own = own_second(track.last, seen.time);
    if !may_follow(track.last, own) {
        skip(track);
        return Ok(());
    }
    if track.fixes.len() >= MOST_FIXES {
        track.excess = Some(number);
        return Ok(());
    }
    track.fixes.push(fix_at(own, seen))?;
    track.last = Some(own);
    Ok(())
}

/// Takes a line, where the fields that hold below the lines above it are given.
pub fn take_fix(
    track: &mut Track,
    fields: Option<Fields>,
    number: u32,
    line: &[u8],
) -> Result<(), AllocError>
    ensures { OnOk result ((used : List UsedFix) (lines n : ℕ) → number ≡ capped n
        → IsTrackOf used lines track.old
        → IsTrackOf (with_line n (observation_of (extension_held fields) line.now) used)
        (lines + (if is_fix_line line.now then 1 else 0)) track.new) }
{
    if track.excess.is_some() || line.is_empty() || line[0] != b'B' {
        return Ok(());
    }
    match read_fix_line(fields.unwrap_or(NO_FIELDS), line) {
        Some(seen) => take_seen(track, number, seen),
        None => {
            skip(track);
            Ok(())
        }
    }
}
