//! How flights are judged, what counts of them, and which claims are expected of them.
//!
//! Tasks and airspace are files of `data/`, whose names are written with blanks between. A flight is
//! its day, DDMMYY, and for each fix its time and the letter of its place, and for each event its
//! time and its code: `010724 095500-PEV 100000-W`. A flight in letters alone has a fix every ten
//! minutes from 09:50 on. `ROUND.TXT` has the places of the letters for `judged` and `range`,
//! `AREAS.TXT` those for `claims`.
ghost use Rattle.std.specs.Prelude.{◌≤◌, IsSome, IsTrue};
ghost use Rattle.gl_judge.specs.Marking.{is_chosen};
ghost use Rattle.gl_judge.specs.Outcome.{OnFinished};

use crate::airspace::airspace_of;
use crate::tasks::task_of;
use anyhow::{Context, Result, bail};
use gl_airspace::empty;
use gl_goal::AnyGoal;
use gl_igc::{Recording, read_igc};
use gl_judge::{ClaimKind, Judged, Window, claims, judge, judged_range, mark};
use gl_plain::search_one;
use gl_task::{Kind, Task};
use std::alloc::{AllocError, Global};
use std::fs;

/// The day of all tasks, 2024-07-01.
const DAY: i32 = 19_905;

/// The times of flights with a fix every ten minutes.
const TIMES: [&str; 9] = [
    "095000", "100000", "101000", "102000", "103000", "104000", "105000", "110000", "111000",
];

/// The place of a letter among rows of a letter and a place.
fn place<'a>(places: &'a str, letter: &str) -> Result<&'a str> {
    for row in places.lines() {
        if let Some((name, at)) = row.split_once(' ')
            && name == letter
        {
            return Ok(at);
        }
    }
    bail!("a letter without a place")
}

/// The flight with a fix every ten minutes over the places of these letters, written in full.
fn in_full(alloc: Global, letters: &str) -> Result<String> {
    if letters.len() > TIMES.len() {
        bail!("more letters than times");
    }
    let mut flight = String::from_str(alloc, "010724")?;
    for (time, letter) in TIMES.iter().zip(letters.chars()) {
        write!(flight, " {time}-{letter}")?;
    }
    Ok(flight)
}

/// A line of a recording: an E line for a code of three letters, else the fix at the place of a
/// letter.
fn line(alloc: Global, places: &str, time: &str, letter: &str) -> Result<String> {
    if letter.len() == 3 {
        return Ok(format!(in alloc; "E{time}{letter}\n")?);
    }
    let at = place(places, letter)?;
    Ok(format!(in alloc; "B{time}{at}A0100001000\n")?)
}

/// The recording of a flight that is written in full.
fn recording_of(alloc: Global, places: &str, flight: &str) -> Result<Recording> {
    let (day, fixes) = flight.split_once(' ').context("no day")?;
    let mut text = format!(in alloc; "AXXXABC\nHFDTE{day}\n")?;
    for fix in fixes.split_whitespace() {
        let (time, letter) = fix.split_once('-').context("no place")?;
        text.push_str(line(alloc, places, time, letter)?.as_str())?;
    }
    Ok(read_igc(alloc, text.as_bytes(), Some(DAY))?)
}

/// The recording of a flight over the places of a file of `data/`.
fn recording(rt: &HostRuntime, file: &str, flight: &str) -> Result<Recording> {
    let places = fs::read_to_string(rt, file)?;
    if flight.contains(' ') {
        return recording_of(rt.alloc(), places.as_str(), flight);
    }
    let flight = in_full(rt.alloc(), flight)?;
    recording_of(rt.alloc(), places.as_str(), flight.as_str())
}

/// How a flight is judged: the first fix, the last fix and the start of its window, and its seconds
/// or its zones.
fn told(alloc: Global, judged: Judged) -> Result<String, AllocError> {
    match judged {
        Judged::Finished { window, seconds } => format!(in alloc;
            "finished {} {} {} {seconds}",
            window.first, window.last, window.start
        ),
        Judged::Outlanded { window, zones } => format!(in alloc;
            "outlanded {} {} {} {zones}",
            window.first, window.last, window.start
        ),
        Judged::NoStart => format!(in alloc; "no start"),
    }
}

/// `judged TASK; AIRSPACE; FLIGHT`: how the flight is judged. `range ..`: the number of its first
/// judged fix, and that behind its last one.
fn judged(rt: &HostRuntime, verb: &str, input: &str) -> Result<String> {
    let (task, rest) = input.split_once("; ").context("no airspace")?;
    let (air, flight) = rest.split_once("; ").context("no flight")?;
    let task = task_of(rt, task)?;
    let air = airspace_of(rt, air)?;
    let rec = recording(rt, "ROUND.TXT", flight)?;
    if verb == "range" {
        let range = judged_range(&task, &air, &rec);
        return Ok(format!(in rt.alloc(); "{} {}", range.from, range.to)?);
    }
    Ok(told(rt.alloc(), judge(&task, &air, &rec))?)
}

/// Whether it can be told what counts of a flight, with this best distance.
fn can_mark(task: &Task, judged: &Judged, best: Option<u64>) -> bool
    ensures seconds { IsTrue result → OnFinished judged.now (λ window seconds. seconds ≤ 100_000) }
    ensures best { IsTrue result → IsTrue (is_chosen task.now.kind judged.now) → IsSome best }
{
    match (judged, task.kind) {
        (Judged::Finished { seconds, .. }, Kind::Racing) => *seconds <= 100_000,
        (Judged::Finished { seconds, .. }, Kind::Area { .. }) => {
            *seconds <= 100_000 && best.is_some()
        }
        (Judged::Outlanded { .. }, _) => best.is_some(),
        (Judged::NoStart, _) => true,
    }
}

/// What counts of a flight: its metres and its seconds.
fn marked(alloc: Global, task: &Task, judged: &Judged, best: Option<u64>) -> Result<String> {
    if !can_mark(task, judged, best) {
        bail!("no best distance, or too long");
    }
    let performance = mark(task, 1_000, judged, best);
    let (metres, seconds) = (performance.metres, performance.seconds);
    Ok(format!(in alloc; "{metres} m in {seconds} s")?)
}

/// How a flight was judged, by a word and the seconds of one that finished.
fn judged_as(word: &str, seconds: u32) -> Result<Judged> {
    let window = Window {
        first: 1,
        last: 4,
        start: 36_005,
    };
    match word {
        "finished" => Ok(Judged::Finished { window, seconds }),
        "outlanded" => Ok(Judged::Outlanded { window, zones: 1 }),
        "nostart" => Ok(Judged::NoStart),
        _ => bail!("no word for a flight"),
    }
}

/// `marked TASK; WORD SECONDS BEST`: what counts of a flight that `finished` after so many seconds,
/// `outlanded` or has `nostart`, with this best distance in centimetres, or `-` for none.
fn marked_as(rt: &HostRuntime, input: &str) -> Result<String> {
    let (task, flight) = input.split_once("; ").context("no flight")?;
    let (word, rest) = flight.split_once(' ').context("no seconds")?;
    let (seconds, best) = rest.split_once(' ').context("no best distance")?;
    let judged = judged_as(word, seconds.parse::<u32>()?)?;
    let best = if best == "-" {
        None
    } else {
        Some(best.parse::<u64>()?)
    };
    marked(rt.alloc(), &task_of(rt, task)?, &judged, best)
}

/// The word for a kind of claim.
fn word_of(kind: ClaimKind) -> &'static str {
    match kind {
        ClaimKind::Area => "area",
        ClaimKind::Out => "out",
        ClaimKind::Free => "free",
        ClaimKind::Triangle => "triangle",
    }
}

/// The greatest total of a goal, if a choice is legal.
fn total_of(alloc: Global, goal: &AnyGoal) -> Result<Option<u64>, AllocError> {
    Ok(search_one(alloc, goal)?.best.map(|best| best.total))
}

/// Writes each claim with its total, and answers the total of the one for the distance.
fn push_claims(
    alloc: Global,
    text: &mut String,
    claims: &[(ClaimKind, AnyGoal)],
) -> Result<Option<u64>> {
    let mut chosen = None;
    for (kind, goal) in claims {
        let total = total_of(alloc, goal)?.context("no choice is legal")?;
        write!(text, "{} {total}, ", word_of(*kind))?;
        if *kind != ClaimKind::Free {
            chosen = Some(total);
        }
    }
    Ok(chosen)
}

/// `claims TASK; FLIGHT`: the claims that are expected of the flight with their greatest totals in
/// centimetres, and what counts of it.
fn claimed(rt: &HostRuntime, input: &str) -> Result<String> {
    let alloc = rt.alloc();
    let (task, flight) = input.split_once("; ").context("no flight")?;
    let task = task_of(rt, task)?;
    let rec = recording(rt, "AREAS.TXT", flight)?;
    let air = empty(alloc);
    let list = claims(alloc, &task, &air, &rec)?;
    let mut text = String::new(alloc);
    let chosen = push_claims(alloc, &mut text, list.as_slice())?;
    let judged = judge(&task, &air, &rec);
    text.push_str(marked(alloc, &task, &judged, chosen)?.as_str())?;
    Ok(text)
}

/// The answer to a row of flights.
pub fn answer(rt: &HostRuntime, verb: &str, input: &str) -> Result<String> {
    match verb {
        "judged" | "range" => judged(rt, verb, input),
        "marked" => marked_as(rt, input),
        "claims" => claimed(rt, input),
        _ => bail!("no verb of flights"),
    }
}
