ghost use Rattle.std.specs.Prelude.{◌≡◌, ◌<◌, pos};
ghost use Rattle.std.specs.Option.{ForSome};
ghost use Rattle.gl_igc.specs.Columns.{day};
ghost use Rattle.gl_igc.specs.UsedFixes.{may_follow, own_second, seconds_limit};

/// The seconds of a day.
pub const DAY: u32 = 86_400;

/// The seconds of half a day.
const HALF_DAY: u32 = 43_200;

/// Own seconds are below this.
const SECONDS_LIMIT: u32 = 300_000;

/// The own second of a time of day, where that of the last used fix is given: on the same day, or
/// on the next one where the time is more than half a day earlier.
#[inline]
#[tactic(auto, unfolding(crate::specs::UsedFixes::own_second))]
pub fn own_second(last: Option<u32>, time: u32) -> u32
    requires last { ForSome last (λ own. own < seconds_limit) }
    requires time { time < day }
    ensures value { result ≡ own_second last time }
    ensures bound { result < 500_000 }
{
    let Some(last) = last else {
        return time;
    };
    let same_day = DAY * (last / DAY) + time;
    if last % DAY > time + HALF_DAY {
        same_day + DAY
    } else {
        same_day
    }
}

/// An own second as a number with a sign.
#[inline]
pub fn signed(own: u32) -> i32
    requires { own < 500_000 }
    ensures { result ≡ pos own }
{
    own as i32
}

/// Whether a fix with an own second is used after the last used fix.
#[inline]
#[tactic(auto, unfolding(crate::specs::UsedFixes::may_follow))]
pub fn may_follow(last: Option<u32>, own: u32) -> bool
    ensures { result ≡ may_follow last own }
{
    match last {
        None => true,
        Some(last) => last < own && own < SECONDS_LIMIT,
    }
}
