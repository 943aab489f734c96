ghost use Rattle.std.specs.Prelude.{◌≡◌, ◌≤◌, ◌<◌, ◌∷◌, [], ℤ, length, IfNone, IfOk, IfSome, OnOk};
ghost use Rattle.gl_judge.specs.Crossings.{Crosses};
ghost use Rattle.gl_why.specs.Crossings.{AreCrossingsTold, IsCrossing, IsCrossingTold, IsLegality};
ghost use Rattle.gl_why.specs.Facts.{AddsFacts};

use crate::fact::{Crossing, Fact, Legality};
use crate::flight_words::{head_of_crossing, words_of_crossing};
use crate::lines::Lines;
use crate::spot::Spot;
use gl_igc::Recording;
use gl_judge::{Stretch, crossing_at, is_announced};
use gl_task::Start;
use std::alloc::{AllocError, Global};

/// Whether a crossing at a time is a legal start, or why it isn't.
fn legality_of(start: &Start, rec: &Recording, judged: Stretch, b: usize, time: i32) -> Legality
    requires { Crosses start.now.line rec.now.fixes judged b time }
    ensures { IsLegality start.now rec.now judged b time result }
{
    if time < start.opens {
        return Legality::TooEarly;
    }
    if start.close < time {
        return Legality::TooLate;
    }
    if is_announced(start.pilot, rec.events.as_slice(), time) {
        Legality::Legal
    } else {
        Legality::Unannounced
    }
}

/// The crossing with the fix of a number, at a time.
fn crossing_of(start: &Start, rec: &Recording, judged: Stretch, b: usize, second: i32) -> Crossing
    requires in_list { b < length rec.now.fixes }
    requires crossed { Crosses start.now.line rec.now.fixes judged b second }
    ensures { IsCrossing start.now rec.now judged b result }
{
    let at = Spot {
        number: b as u32,
        fix: rec.fixes.as_slice()[b],
    };
    Crossing {
        at,
        second,
        legality: legality_of(start, rec, judged, b, second),
    }
}

/// Tells whether the start line is crossed with the fix of a number.
fn tell_crossing(
    alloc: Global,
    lines: &mut Lines,
    start: &Start,
    rec: &Recording,
    judged: Stretch,
    b: usize,
) -> Result<(), AllocError>
    requires to_in_list { judged.to ≤ length rec.now.fixes }
    requires in_range { b < judged.to }
    ensures { OnOk result (AddsFacts (IsCrossingTold start.now rec.now judged b)
        lines.old lines.new) }
{
    match crossing_at(&start.line, rec, judged, b) {
        Some(second) => {
            let crossing = crossing_of(start, rec, judged, b, second);
            let head = head_of_crossing(alloc, &crossing)?;
            let words = words_of_crossing(alloc, start, &crossing)?;
            lines.push(Fact::Crossed(crossing), head, words)
        }
        None => Ok(()),
    }
}

/// Tells where the start line is crossed.
pub fn tell_crossings(
    alloc: Global,
    lines: &mut Lines,
    start: &Start,
    rec: &Recording,
    judged: Stretch,
) -> Result<(), AllocError>
    requires ordered { judged.from ≤ judged.to }
    requires to_in_list { judged.to ≤ length rec.now.fixes }
    ensures { OnOk result (AddsFacts (AreCrossingsTold start.now rec.now judged)
        lines.old lines.new) }
{
    'fixes: for b in judged.from..judged.to {
        tell_crossing(alloc, lines, start, rec, judged, b)?;
    }
    Ok(())
}
