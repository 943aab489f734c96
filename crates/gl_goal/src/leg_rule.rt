ghost use Rattle.std.specs.Prelude.{◌≡◌, ◌<◌, ◌^◌, ◌*◌, ◌/◌, min, [], ◌∷◌};
ghost use Rattle.gl_goal.specs.Fair.{is_fair, is_none_fair, most_of_fair};
ghost use Rattle.gl_goal.specs.Code.Round.{legs_of};

use crate::round::Round;

/// How much of all three legs each leg of a triangle has to be at least, in percent.
const LEAST_LEG: u64 = 28;

/// From this length on a triangle is large, in centimetres: 750 km.
const LARGE: u64 = 75_000_000;

/// How much of all three legs each leg of a large triangle has to be at least, in percent.
const LEAST_LARGE_LEG: u64 = 25;

/// How much of them it may be at most, in percent.
const GREATEST_LARGE_LEG: u64 = 45;

/// Whether three legs are those of a triangle. Together they have a length, and one of two rules
/// allows them: none is shorter than 28 percent of it; or it is 750 km or more, and none is shorter
/// than 25 percent of it or longer than 45 percent. The rule of 28 percent is that of the FAI
/// Sporting Code, section 3. The rule of 25 to 45 percent is this project's own.
pub fn fair(a: u64, b: u64, c: u64) -> bool
    requires first { a < 2 ^ 40 }
    requires second { b < 2 ^ 40 }
    requires third { c < 2 ^ 40 }
    ensures { result ≡ is_fair (a ∷ b ∷ c ∷ []) }
{
    are_fair(&Round {
        first: a,
        second: b,
        third: c,
    })
}

/// Whether the legs of a way round are those of a triangle.
#[tactic(auto, unfolding(crate::specs::Fair::is_fair))]
pub(crate) fn are_fair(legs: &Round) -> bool
    ensures { result ≡ is_fair (legs_of legs.now) }
{
    let length = legs.length();
    0 < length
        && (legs.none_below(LEAST_LEG * length)
            || (LARGE <= length
                && legs.none_below(LEAST_LARGE_LEG * length)
                && legs.none_above(GREATEST_LARGE_LEG * length)))
}

/// Whether no legs between the least and the greatest ones are those of a triangle: the greatest
/// have no length, or they rule out both rules. The rule of 28 percent is ruled out if one of the
/// greatest is shorter than 28 percent of the least ones together; that of 25 to 45 percent if the
/// greatest together are shorter than 750 km, or one of them is shorter than 25 percent of the
/// least
/// ones together, or one of the least is longer than 45 percent of the greatest ones together.
#[tactic(auto, unfolding(crate::specs::Fair::is_none_fair))]
#[inline]
pub(crate) fn are_none_fair(least: &Round, greatest: &Round) -> bool
    ensures { result ≡ is_none_fair (legs_of least.now) (legs_of greatest.now) }
{
    let at_least = least.length();
    let at_most = greatest.length();
    at_most == 0
        || (greatest.some_below(LEAST_LEG * at_least)
            && (at_most < LARGE
                || greatest.some_below(LEAST_LARGE_LEG * at_least)
                || least.some_above(GREATEST_LARGE_LEG * at_most)))
}

/// The most that the legs of a triangle are together where they are at most these: no more than
/// these, and no more than that the shortest of these is so many percent of it. That are 28 percent
/// if no large triangle has legs from 25 percent on that are at most these, else 25.
#[tactic(auto, unfolding(crate::specs::Fair::most_of_fair))]
#[inline]
pub(crate) fn most_of_fair(greatest: &Round) -> u64
    ensures { result ≡ most_of_fair (legs_of greatest.now) }
{
    let length = greatest.length();
    let shortest = greatest.first.min(greatest.second).min(greatest.third);
    let most = length.min(100 * shortest / LEAST_LARGE_LEG);
    if most < LARGE {
        length.min(100 * shortest / LEAST_LEG)
    } else {
        most
    }
}
