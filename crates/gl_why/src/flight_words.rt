use crate::air_places::AirPlace;
use crate::fact::{Credit, Crossing, Cut, Fine, Legality, Miss, Passing, Visit};
use crate::place_words::{length_words, place_words, time_words};
use gl_task::{Finish, Start, Task};
use gl_zone::{Part, Zone};
use std::alloc::{AllocError, Global};

/// When the start line is crossed.
pub fn head_of_crossing(alloc: Global, crossing: &Crossing) -> Result<String, AllocError> {
    let time = time_words(alloc, i64::from(crossing.second))?;
    let time = time.as_str();
    format!(in alloc; "start line crossed at {time}, before ")
}

/// Whether a crossing is a legal start, or why it isn't.
pub fn words_of_crossing(
    alloc: Global,
    start: &Start,
    crossing: &Crossing,
) -> Result<String, AllocError> {
    match crossing.legality {
        Legality::Legal => String::from_str(alloc, ": a legal start"),
        Legality::TooEarly => {
            let opens = time_words(alloc, i64::from(start.opens))?;
            let opens = opens.as_str();
            format!(in alloc; ": no start, since the line opens at {opens}")
        }
        Legality::TooLate => {
            let close = time_words(alloc, i64::from(start.close))?;
            let close = close.as_str();
            format!(in alloc; ": no start, since the line closes at {close}")
        }
        Legality::Unannounced => String::from_str(
            alloc,
            ": no start, since it isn't in the window of one of the pilot's first three events",
        ),
    }
}

/// When the flight starts, as far as it counts.
pub fn head_of_start(alloc: Global, start: &Passing) -> Result<String, AllocError> {
    let time = time_words(alloc, start.second)?;
    let time = time.as_str();
    format!(in alloc; "the start that counts is at {time}, before ")
}

/// When a flight finishes.
pub fn head_of_finish(alloc: Global, finish: &Passing) -> Result<String, AllocError> {
    let time = time_words(alloc, finish.second)?;
    let time = time.as_str();
    format!(in alloc; "finish at {time}, with ")
}

/// What is said of a flight without a start.
pub fn words_of_no_start(alloc: Global) -> Result<String, AllocError> {
    String::from_str(alloc, ": no crossing of the start line is a legal start")
}

/// When a zone is visited.
pub fn words_of_visit(alloc: Global, visit: &Visit) -> Result<String, AllocError> {
    let time = time_words(alloc, i64::from(visit.at.fix.second))?;
    let time = time.as_str();
    format!(in alloc; " at {time}")
}

/// The greatest distance from its centre of a part of a zone.
fn reach_of_part(part: &Part) -> u64 {
    match part {
        Part::Cylinder(cylinder) => cylinder.radius,
        Part::Sector(sector) => sector.outer,
    }
}

/// The greatest distance from its centre of a zone.
fn reach_of_zone(zone: &Zone) -> u64 {
    let mut reach = 0;
    for part in zone.parts.as_slice() {
        reach = reach.max(reach_of_part(part));
    }
    reach
}

/// How far a zone reaches from its centre, or a finish from its point.
fn reach_words(alloc: Global, task: &Task, point: usize) -> Result<String, AllocError> {
    if let Some(zone) = task.zones.as_slice().get(point.saturating_sub(1)) {
        let reach = length_words(alloc, reach_of_zone(zone))?;
        let reach = reach.as_str();
        return format!(in alloc; "its radius is {reach}");
    }
    match &task.finish {
        Finish::Ring { radius, .. } => {
            let reach = length_words(alloc, *radius)?;
            let reach = reach.as_str();
            format!(in alloc; "its radius is {reach}")
        }
        Finish::Gate(line) => {
            let half = length_words(alloc, line.half)?;
            let half = half.as_str();
            format!(in alloc; "its half width is {half}")
        }
    }
}

/// What isn't reached.
pub fn head_of_miss(alloc: Global, task: &Task, miss: &Miss) -> Result<String, AllocError> {
    let point = miss.point;
    if task.zones.as_slice().get(point.saturating_sub(1)).is_some() {
        format!(in alloc; "zone {point} isn't reached: the nearest is ")
    } else {
        String::from_str(alloc, "the finish isn't reached: the nearest is ")
    }
}

/// How near it was, and when and where.
pub fn words_of_miss(alloc: Global, task: &Task, miss: &Miss) -> Result<String, AllocError> {
    let time = time_words(alloc, i64::from(miss.at.fix.second))?;
    let time = time.as_str();
    let place = place_words(alloc, miss.at.fix.grid)?;
    let place = place.as_str();
    let distance = length_words(alloc, miss.distance)?;
    let distance = distance.as_str();
    let reach = reach_words(alloc, task, miss.point)?;
    let reach = reach.as_str();
    format!(in alloc; " at {time}, {place}, {distance} from its centre; {reach}")
}

/// The name of a volume, and the line at which it begins.
fn volume_words(alloc: Global, place: Option<&AirPlace>) -> Result<String, AllocError> {
    match place {
        Some(place) => {
            let line = place.line;
            let name = place.name.as_str();
            if name.is_empty() {
                format!(in alloc; "; it begins at line {line} of the airspace file")
            } else {
                format!(in alloc; "; it is {name}, at line {line} of the airspace file")
            }
        }
        None => Ok(String::new(alloc)),
    }
}

/// When and where a volume is entered, and which it is.
pub fn words_of_cut(alloc: Global, cut: &Cut, places: &[AirPlace]) -> Result<String, AllocError> {
    let time = time_words(alloc, i64::from(cut.at.fix.second))?;
    let time = time.as_str();
    let place = place_words(alloc, cut.at.fix.grid)?;
    let place = place.as_str();
    let height = cut.at.fix.alt;
    let volume = volume_words(alloc, places.get(cut.volume))?;
    let volume = volume.as_str();
    format!(in alloc; " at {time}, {place}, {height} m{volume}. Nothing from there on counts")
}

/// In which zone a fix is credited, or that it is the landing.
pub fn head_of_credit(
    alloc: Global,
    credit: &Credit,
    is_landing: bool,
) -> Result<String, AllocError> {
    let zone = credit.place;
    if is_landing {
        String::from_str(alloc, "credited as the landing: ")
    } else {
        format!(in alloc; "credited in zone {zone}: ")
    }
}

/// When and where a credited fix is.
pub fn words_of_credit(alloc: Global, credit: &Credit) -> Result<String, AllocError> {
    let time = time_words(alloc, i64::from(credit.at.fix.second))?;
    let time = time.as_str();
    let place = place_words(alloc, credit.at.fix.grid)?;
    let place = place.as_str();
    format!(in alloc; " at {time}, {place}")
}

/// When the points of a rule are first owed, and how high that is.
pub fn words_of_fine(alloc: Global, fine: &Fine) -> Result<String, AllocError> {
    let time = time_words(alloc, i64::from(fine.at.fix.second))?;
    let time = time.as_str();
    let height = fine.at.fix.alt;
    format!(in alloc; " at {time}, {height} m")
}
