ghost use Rattle.std.specs.Prelude.{◌≡◌, Some, None, IfSome, if◌then◌else◌, map, pos, ◌<ℤ◌, ◌≤ℤ◌, ◌≤◌, ◌+ℤ◌, ◌-ℤ◌, ◌*ℤ◌, unsigned_abs};
ghost use Rattle.gl_sphere.specs.Range.{IsWithin};
ghost use Rattle.gl_igc.specs.Columns.{day};
ghost use Rattle.gl_igc.specs.Code.Parts.{shifted};
ghost use Rattle.gl_igc.specs.Reading.{is_wrong_day, shift_of};
ghost use Rattle.gl_igc.specs.Recording.{sighting_of};
ghost use Rattle.gl_igc.specs.Code.Seconds.{AreBelow};
ghost use Rattle.gl_igc.specs.UsedFixes.{seconds_limit};

use crate::fix::Fix;

/// The seconds of a day.
const DAY: i32 = 86_400;

/// The days from one day to another.
fn days_after(day: i32, other: i32) -> i64
    ensures { result ≡ day -ℤ other }
{
    i64::from(day) - i64::from(other)
}

/// The seconds of a day before, a day after or none.
fn seconds_of(days: i64) -> i32
    requires { unsigned_abs days ≤ 1 }
    ensures value { result ≡ pos day *ℤ days }
    ensures bound { IsWithin day result }
{
    if days == 0 {
        0
    } else if days == 1 {
        DAY
    } else {
        -DAY
    }
}

/// A second, moved.
#[inline]
fn moved(second: i32, shift: i32) -> i32
    requires least { pos 0 ≤ℤ second }
    requires most { second <ℤ pos 500_000 }
    requires shift { IsWithin day shift }
    ensures { result ≡ second +ℤ shift }
{
    second + shift
}

/// The seconds from the beginning of the task day, or of the recording's own day, to that of the
/// recording's day; `None` where that is more than one day.
#[tactic(auto, unfolding(crate::specs::Reading::is_wrong_day, crate::specs::Reading::shift_of))]
pub fn day_shift(date: i32, task_day: Option<i32>) -> Option<i32>
    ensures value { result
        ≡ (if is_wrong_day date task_day then None else Some (shift_of date task_day)) }
    ensures bound { IfSome result (IsWithin day) }
{
    let Some(task_day) = task_day else {
        return Some(0);
    };
    let days = days_after(date, task_day);
    if days.unsigned_abs() > 1 {
        return None;
    }
    Some(seconds_of(days))
}

/// Moves the seconds of fixes.
pub fn shift_fixes(fixes: &mut Vec<Fix>, shift: i32)
    requires shift { IsWithin day shift }
    requires below { AreBelow seconds_limit (map (λ fix. fix.second) fixes.old.items) }
    ensures { map sighting_of fixes.new.items
        ≡ map (shifted shift) (map sighting_of fixes.old.items) }
{
    for fix in fixes.iter_mut() {
        fix.second = moved(fix.second, shift);
    }
}

/// Moves the seconds of events.
pub fn shift_events(seconds: &mut Vec<i32>, shift: i32)
    requires shift { IsWithin day shift }
    requires below { AreBelow 500_000 seconds.old.items }
    ensures { seconds.new.items ≡ map (λ second. second +ℤ shift) seconds.old.items }
{
    for second in seconds.iter_mut() {
        *second = moved(*second, shift);
    }
}
