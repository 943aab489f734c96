use gl_sphere::Grid;
use jiff_core::civil::Date;
use std::alloc::{AllocError, Global};

/// The seconds of a day.
const DAY: u64 = 86_400;

/// A time of day, as `10:00:05`.
fn clock(alloc: Global, second: u64) -> Result<String, AllocError> {
    let hours = second / 3600 % 24;
    let minutes = second / 60 % 60;
    let seconds = second % 60;
    format!(in alloc; "{hours:02}:{minutes:02}:{seconds:02}")
}

/// A time, by the seconds from the beginning of a day, as `10:00:05 UTC`.
pub fn time_words(alloc: Global, second: i64) -> Result<String, AllocError> {
    let size = second.unsigned_abs();
    if second < 0 {
        let time = clock(alloc, DAY - size % DAY)?;
        let time = time.as_str();
        return format!(in alloc; "{time} UTC on the day before");
    }
    let time = clock(alloc, size)?;
    let time = time.as_str();
    if size < DAY {
        format!(in alloc; "{time} UTC")
    } else {
        format!(in alloc; "{time} UTC on the day after")
    }
}

/// A day, by the number of days from 1970-01-01, as `2024-07-01`.
pub fn day_words(alloc: Global, number: i32) -> Result<String, AllocError> {
    let Ok(date) = Date::from_unix_epoch_day(i64::from(number)) else {
        return String::from_str(alloc, "another day");
    };
    let year = date.year;
    let month = date.month;
    let day = date.day;
    format!(in alloc; "{year:04}-{month:02}-{day:02}")
}

/// A length in centimetres, as `1000.00 m`.
pub fn length_words(alloc: Global, length: u64) -> Result<String, AllocError> {
    let metres = length / 100;
    let rest = length % 100;
    format!(in alloc; "{metres}.{rest:02} m")
}

/// Minutes with three decimals, or with five if the last two aren't zeros; `angle` is in 1/100,000
/// minute.
fn minutes(alloc: Global, angle: u32) -> Result<String, AllocError> {
    let whole = angle / 100_000 % 60;
    let decimals = angle % 100_000;
    if decimals % 100 == 0 {
        let thousandths = decimals / 100;
        format!(in alloc; "{whole:02}.{thousandths:03}")
    } else {
        format!(in alloc; "{whole:02}.{decimals:05}")
    }
}

/// A place, as `45 12.345N 007 00.123E`: degrees, and minutes with their decimals.
pub fn place_words(alloc: Global, place: Grid) -> Result<String, AllocError> {
    let north = place.lat.unsigned_abs();
    let east = place.lon.unsigned_abs();
    let north_minutes = minutes(alloc, north)?;
    let north_minutes = north_minutes.as_str();
    let east_minutes = minutes(alloc, east)?;
    let east_minutes = east_minutes.as_str();
    let north_degrees = north / 6_000_000;
    let east_degrees = east / 6_000_000;
    let north_letter = if place.lat < 0 { "S" } else { "N" };
    let east_letter = if place.lon < 0 { "W" } else { "E" };
    format!(in alloc;
        "{north_degrees:02} {north_minutes}{north_letter} {east_degrees:03} {east_minutes}{east_letter}"
    )
}
