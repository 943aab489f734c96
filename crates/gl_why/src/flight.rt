ghost use Rattle.std.specs.Prelude.{◌≡◌, ◌≤◌, ◌<◌, ◌+ℤ◌, pos, length, take, IfOk, OnOk};
ghost use Rattle.gl_judge.specs.Greatest.{IsGreatest, IsLeast};
ghost use Rattle.gl_judge.specs.JudgedFixes.{IsInRange, IsJudgedRange, first_of_day};
ghost use Rattle.gl_judge.specs.Outcome.{IsFinished, IsJudged, IsOutcome, IsOutlanded};
ghost use Rattle.gl_judge.specs.Visits.{HasVisit, VisitsFirst};
ghost use Rattle.gl_why.specs.Facts.{AddsFacts};
ghost use Rattle.gl_why.specs.Flights.{AreFinishedTold, AreFlightTold, AreOutlandedTold, AreWindowTold, IsCourseTold, IsPassing};

use crate::air_places::AirPlace;
use crate::crossing::tell_crossings;
use crate::cut::tell_cut;
use crate::fact::{Fact, Passing};
use crate::flight_words::{head_of_finish, head_of_start, words_of_no_start};
use crate::lines::Lines;
use crate::miss::tell_miss;
use crate::spot::Spot;
use crate::visits::tell_visits;
use gl_airspace::Airspace;
use gl_igc::Recording;
use gl_judge::{Judged, Stretch, Visited, Window, judged_range};
use gl_task::Task;
use std::alloc::{AllocError, Global};

/// The start of a window.
fn start_of(rec: &Recording, window: Window) -> Passing
    requires { window.first < length rec.now.fixes }
    ensures { IsPassing rec.now window.first window.start result }
{
    let at = Spot {
        number: window.first,
        fix: rec.fixes.as_slice()[window.first as usize],
    };
    Passing {
        at,
        second: i64::from(window.start),
    }
}

/// So many seconds after a time.
fn second_after(time: i32, seconds: u32) -> i64
    ensures { result ≡ time +ℤ pos seconds }
{
    time as i64 + seconds as i64
}

/// The finish of a window, so many seconds after its start.
fn finish_of(rec: &Recording, window: Window, seconds: u32) -> Passing
    requires { window.last < length rec.now.fixes }
    ensures { IsPassing rec.now window.last (window.start +ℤ pos seconds) result }
{
    let at = Spot {
        number: window.last,
        fix: rec.fixes.as_slice()[window.last as usize],
    };
    Passing {
        at,
        second: second_after(window.start, seconds),
    }
}

/// Tells the start of a window and the visits from it on, and answers how far they come.
fn tell_window(
    alloc: Global,
    lines: &mut Lines,
    task: &Task,
    rec: &Recording,
    judged: Stretch,
    window: Window,
) -> Result<Visited, AllocError>
    requires to_in_list { judged.to ≤ length rec.now.fixes }
    requires first_judged { IsInRange judged window.first }
    ensures judged { IfOk result (λ visited. IsInRange judged visited.last) }
    ensures few { IfOk result (λ visited. visited.count ≤ length task.now.zones) }
    ensures told { IfOk result (λ visited. AddsFacts
        (AreWindowTold task.now rec.now judged window visited.count visited.last)
        lines.old lines.new) }
{
    let start = start_of(rec, window);
    let head = head_of_start(alloc, &start)?;
    lines.push(Fact::Started(start), head, String::new(alloc))?;
    let zones = task.zones.as_slice();
    let fixes = rec.fixes.as_slice();
    let visited = tell_visits(alloc, lines, zones, fixes, judged, window.first as usize)?;
    Ok(visited)
}

/// Tells the course of a flight that finished.
fn tell_finished(
    alloc: Global,
    lines: &mut Lines,
    task: &Task,
    rec: &Recording,
    judged: Stretch,
    window: Window,
    seconds: u32,
) -> Result<(), AllocError>
    requires to_in_list { judged.to ≤ length rec.now.fixes }
    requires finished { IsFinished task.now rec.now judged window seconds }
    ensures { OnOk result (AddsFacts (AreFinishedTold task.now rec.now judged window seconds)
        lines.old lines.new) }
{
    tell_window(alloc, lines, task, rec, judged, window)?;
    let finish = finish_of(rec, window, seconds);
    let head = head_of_finish(alloc, &finish)?;
    lines.push(Fact::Finished(finish), head, String::new(alloc))
}

/// Tells the course of a flight that landed out.
fn tell_outlanded(
    alloc: Global,
    lines: &mut Lines,
    task: &Task,
    rec: &Recording,
    judged: Stretch,
    window: Window,
) -> Result<(), AllocError>
    requires to_in_list { judged.to ≤ length rec.now.fixes }
    requires first_judged { IsInRange judged window.first }
    ensures { OnOk result (AddsFacts (AreOutlandedTold task.now rec.now judged window)
        lines.old lines.new) }
{
    let visited = tell_window(alloc, lines, task, rec, judged, window)?;
    tell_miss(
        alloc,
        lines,
        task,
        rec,
        judged,
        visited.last,
        visited.count + 1,
    )
}

/// Tells the course of a flight with this outcome.
fn tell_course(
    alloc: Global,
    lines: &mut Lines,
    task: &Task,
    rec: &Recording,
    judged: Stretch,
    outcome: &Judged,
) -> Result<(), AllocError>
    requires to_in_list { judged.to ≤ length rec.now.fixes }
    requires outcome { IsOutcome task.now rec.now judged outcome.now }
    ensures { OnOk result (AddsFacts (IsCourseTold task.now rec.now judged outcome.now)
        lines.old lines.new) }
{
    match outcome {
        Judged::Finished { window, seconds } => {
            tell_finished(alloc, lines, task, rec, judged, *window, *seconds)
        }
        Judged::Outlanded { window, .. } => {
            tell_outlanded(alloc, lines, task, rec, judged, *window)
        }
        Judged::NoStart => {
            lines.push(Fact::NoStart, String::new(alloc), words_of_no_start(alloc)?)
        }
    }
}

/// Tells what is found of a flight with these judged fixes and this outcome.
fn tell_judged(
    alloc: Global,
    lines: &mut Lines,
    task: &Task,
    air: &Airspace,
    rec: &Recording,
    judged: Stretch,
    outcome: &Judged,
    places: &[AirPlace],
) -> Result<(), AllocError>
    requires range { IsJudgedRange task.now.closes air.now.volumes rec.now.fixes judged }
    requires begins { judged.from ≡ first_of_day rec.now.fixes }
    requires outcome { IsOutcome task.now rec.now judged outcome.now }
    ensures { OnOk result (AddsFacts (AreFlightTold task.now air.now rec.now outcome.now)
        lines.old lines.new) }
{
    tell_crossings(alloc, lines, &task.start, rec, judged)?;
    tell_course(alloc, lines, task, rec, judged, outcome)?;
    tell_cut(
        alloc,
        lines,
        task,
        air,
        rec.fixes.as_slice(),
        judged,
        places,
    )
}

/// Tells what is found of a flight with this outcome, by its recording and the task alone.
pub fn tell_flight(
    alloc: Global,
    lines: &mut Lines,
    task: &Task,
    air: &Airspace,
    rec: &Recording,
    outcome: &Judged,
    places: &[AirPlace],
) -> Result<(), AllocError>
    requires { IsJudged task.now air.now rec.now outcome.now }
    ensures { OnOk result (AddsFacts (AreFlightTold task.now air.now rec.now outcome.now)
        lines.old lines.new) }
{
    let judged = judged_range(task, air, rec);
    tell_judged(alloc, lines, task, air, rec, judged, outcome, places)
}
