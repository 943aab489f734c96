ghost use Rattle.std.specs.Prelude.{◌≡◌, ◌+◌, ◌%◌, ◌<◌, IfSome};
ghost use Rattle.gl_draft.specs.Bearing.{angle_between, are_opposite, outside_of, thousandths_of, whole_turn};

use crate::angle::WHOLE_TURN;

/// Half a turn, in 1/100,000 minute.
const HALF_TURN: u32 = 1_080_000_000;

/// A thousandth of a degree, in 1/100,000 minute.
const THOUSANDTH: u32 = 6_000;

/// A hundredth of a degree, in 1/100,000 minute: a turn by less is none.
const STRAIGHT: u32 = 60_000;

/// The thousandths of a degree in a whole turn.
const THOUSANDTHS_OF_TURN: u32 = 360_000;

/// The sum of two angles without whole turns.
fn sum(a: u32, b: u32) -> u32
    requires a { a < whole_turn }
    requires b { b < whole_turn }
    ensures value { result ≡ (a + b) % whole_turn }
    ensures below { result < whole_turn }
{
    ((u64::from(a) + u64::from(b)) % u64::from(WHOLE_TURN)) as u32
}

/// The angle from one direction clockwise to another.
fn angle_between(a: u32, b: u32) -> u32
    requires a { a < whole_turn }
    requires b { b < whole_turn }
    ensures value { result ≡ angle_between a b }
    ensures below { result < whole_turn }
{
    ((u64::from(b) + u64::from(WHOLE_TURN) - u64::from(a)) % u64::from(WHOLE_TURN)) as u32
}

/// Whether two directions are opposite, to less than a hundredth of a degree: then whole
/// centimetres could decide on which side of a point the outside is.
fn are_opposite(a: u32, b: u32) -> bool
    requires a { a < whole_turn }
    requires b { b < whole_turn }
    ensures { result ≡ are_opposite a b }
{
    let between = angle_between(a, b);
    between.saturating_sub(HALF_TURN) + HALF_TURN.saturating_sub(between) < STRAIGHT
}

/// The direction half way between two others, in the greater of the two angles between them, in
/// 1/100,000 minute; none where the two are opposite.
#[tactic(auto, unfolding(crate::specs::Bearing::outside_of))]
pub(crate) fn outside(a: u32, b: u32) -> Option<u32>
    requires a { a < whole_turn }
    requires b { b < whole_turn }
    ensures value { result ≡ outside_of a b }
    ensures below { IfSome result (λ n. n < whole_turn) }
{
    if are_opposite(a, b) {
        return None;
    }
    let between = angle_between(a, b);
    let half_way = sum(a, between / 2);
    if between > HALF_TURN {
        Some(half_way)
    } else {
        Some(sum(half_way, HALF_TURN))
    }
}

/// The thousandths of a degree nearest to a direction in 1/100,000 minute, below 360,000.
pub(crate) fn thousandths(angle: u32) -> u32
    requires { angle < whole_turn }
    ensures value { result ≡ thousandths_of angle }
    ensures below { result < 360_000 }
{
    (angle + THOUSANDTH / 2) / THOUSANDTH % THOUSANDTHS_OF_TURN
}
