use crate::fact::{Earning, Most};
use crate::fraction_words::{fraction_words, share_words};
use gl_points::{Performance, Summary};
use gl_sheet::Row;
use std::alloc::{AllocError, Global};

/// The greatest speed and the time of the fastest, if somebody finished.
fn speed_words(alloc: Global, day: &Summary) -> Result<String, AllocError> {
    let Some(time) = day.time else {
        return String::from_str(alloc, "nobody finished");
    };
    let speed = fraction_words(alloc, &day.speed)?;
    let speed = speed.as_str();
    format!(in alloc; "the greatest speed {speed} m/s, the time of the fastest {time} s")
}

/// The figures of a day.
pub fn words_of_day(alloc: Global, day: &Summary) -> Result<String, AllocError> {
    let launched = day.launched;
    let far = day.far;
    let fast = day.fast;
    let handicap = day.handicap;
    let distance = fraction_words(alloc, &day.distance)?;
    let distance = distance.as_str();
    let speed = speed_words(alloc, day)?;
    let speed = speed.as_str();
    let most = fraction_words(alloc, &day.most)?;
    let most = most.as_str();
    format!(in alloc;
        ": {launched} launched, {far} flew 100 km or more, {fast} fast; the least handicap is {handicap}, the greatest distance {distance} m, {speed}; it gives at most {most} points"
    )
}

/// The most points of a day, and how much they count.
pub fn words_of_most(alloc: Global, most: &Most) -> Result<String, AllocError> {
    let distance = fraction_words(alloc, &most.for_distance)?;
    let distance = distance.as_str();
    let speed = fraction_words(alloc, &most.for_speed)?;
    let speed = speed.as_str();
    let far = fraction_words(alloc, &most.by_far)?;
    let far = far.as_str();
    let fast = fraction_words(alloc, &most.by_fast)?;
    let fast = fast.as_str();
    format!(in alloc;
        " are {distance} for distance and {speed} for speed, times {far} for those who flew far and {fast} for the fast"
    )
}

/// What a flight has of the day's points.
pub fn words_of_earning(
    alloc: Global,
    most: &Most,
    performance: &Performance,
    earning: &Earning,
) -> Result<String, AllocError> {
    let distance = fraction_words(alloc, &most.for_distance)?;
    let distance = distance.as_str();
    let speed = fraction_words(alloc, &most.for_speed)?;
    let speed = speed.as_str();
    let far = fraction_words(alloc, &most.by_far)?;
    let far = far.as_str();
    let fast = fraction_words(alloc, &most.by_fast)?;
    let fast = fast.as_str();
    let share = share_words(alloc, &earning.share)?;
    let share = share.as_str();
    let exact = fraction_words(alloc, &earning.exact)?;
    let exact = exact.as_str();
    if performance.finished {
        format!(in alloc;
            ": all of {distance} for distance and {share} of {speed} for speed, times {far} and {fast}: {exact}"
        )
    } else {
        format!(in alloc; ": {share} of {distance} for distance, times {far} and {fast}: {exact}")
    }
}

/// What comes after the points of a line of the sheet.
pub fn words_of_row(alloc: Global, row: &Row) -> Result<String, AllocError> {
    let penalty = row.penalty;
    if penalty == 0 {
        String::from_str(alloc, " points")
    } else {
        format!(in alloc; " points after a penalty of {penalty}")
    }
}
