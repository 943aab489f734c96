ghost use Rattle.std.specs.Prelude.{◌≡◌, ◌+◌, ◌*◌, ◌<◌, ◌≤◌, IsTrue, length};
ghost use Rattle.gl_box.specs.Cell.{ends};
ghost use Rattle.gl_free.specs.Code.Farthest.{IsFarthest, IsNode, IsReachedBy};
ghost use Rattle.gl_free.specs.Code.Places.{chord};
ghost use Rattle.gl_free.specs.Code.Reach.{IsReach, Raises};

use crate::ends::Ends;
use crate::node::{Node, halves};
use gl_box::Span;
use gl_goal::{Hulls, max_sq};
use gl_sphere::{GREATEST_SQUARE, dist};

/// A place, and one more than how far it is, by a distance or by a squared chord: 0 where there is
/// none.
#[derive(Clone, Copy)]
pub(crate) struct Far {
    pub value: u64,
    pub place: u32,
}

/// One more than the greatest squared chord from an allowed end in a span to a node, 0 where no end
/// there is allowed.
#[inline]
fn reach(hulls: &Hulls, allowed: &Ends, span: Span, of: &Node) -> u64
    requires node { IsNode hulls.now of.now }
    requires inside { span.hi < length hulls.now }
    ensures reach { IsReach hulls.now allowed.now (ends span) (ends of.now.span) result }
    ensures bound { result ≤ GREATEST_SQUARE + 1 }
{
    if allowed.side.is_out(span, of.span) {
        return 0;
    }
    let hull = hulls.hull(span);
    if !allowed.meets(&hull) {
        return 0;
    }
    max_sq(&hull, &of.hull) + 1
}

/// Whether a span is looked at as a whole: it is no wider than the node, each place of it may stand
/// on the side of some place there, and each altitude is allowed.
#[inline]
fn is_whole(hulls: &Hulls, allowed: &Ends, span: Span, of: &Node) -> bool
    requires { span.hi < length hulls.now }
    ensures { IsTrue result → span.hi + of.now.span.lo ≤ of.now.span.hi + span.lo }
{
    span.width() <= of.span.width()
        && allowed.side.is_inside(span, of.span)
        && allowed.holds(&hulls.hull(span))
}

/// Raises `found` to the greatest reach of an allowed end in a span, whose own reach is given. The
/// half with the greater reach comes first, and what can't raise it is passed over.
fn search(hulls: &Hulls, allowed: &Ends, span: Span, of: &Node, most: u64, found: &mut Far)
    requires node { IsNode hulls.now of.now }
    requires inside { span.hi < length hulls.now }
    requires reach { IsReach hulls.now allowed.now (ends span) (ends of.now.span) most }
    requires bound { most ≤ GREATEST_SQUARE + 1 }
    requires limited { found.old.value ≤ GREATEST_SQUARE + 1 }
    requires reached { IsReachedBy (chord hulls.now) hulls.now allowed.now (ends of.now.span)
        found.old }
    ensures raises { Raises hulls.now allowed.now (ends span) (ends of.now.span) found.old
        found.new }
    ensures limited { found.new.value ≤ GREATEST_SQUARE + 1 }
{
    if most <= found.value {
        return;
    }
    if span.lo == span.hi || is_whole(hulls, allowed, span, of) {
        *found = Far {
            value: most,
            place: span.lo,
        };
        return;
    }
    let (lower, upper) = halves(span);
    let low = reach(hulls, allowed, lower, of);
    let high = reach(hulls, allowed, upper, of);
    if low < high {
        search(hulls, allowed, upper, of, high, found);
        search(hulls, allowed, lower, of, low, found);
    } else {
        search(hulls, allowed, lower, of, low, found);
        search(hulls, allowed, upper, of, high, found);
    }
}

/// The guess with its reach, where it is an allowed end of the node.
#[inline]
fn guessed(hulls: &Hulls, allowed: &Ends, of: &Node, guess: u32) -> Far
    requires { IsNode hulls.now of.now }
    ensures reached { IsReachedBy (chord hulls.now) hulls.now allowed.now (ends of.now.span)
        result }
    ensures bound { result.value ≤ GREATEST_SQUARE + 1 }
{
    if guess >= hulls.len() {
        return Far { value: 0, place: 0 };
    }
    let span = Span::point(guess);
    Far {
        value: reach(hulls, allowed, span, of),
        place: guess,
    }
}

/// One more than the greatest distance from an allowed end to a span, and such an end. `guess` is a
/// place that may be it.
pub(crate) fn farthest(hulls: &Hulls, allowed: &Ends, span: Span, guess: u32) -> Far
    requires few { length hulls.now ≤ 90_000 }
    requires inside { span.hi < length hulls.now }
    ensures { IsFarthest hulls.now allowed.now (ends span) result }
{
    let of = Node::new(hulls, span);
    let whole = Span {
        lo: 0,
        hi: hulls.len() - 1,
    };
    let mut found = guessed(hulls, allowed, &of, guess);
    let most = reach(hulls, allowed, whole, &of);
    search(hulls, allowed, whole, &of, most, &mut found);
    if found.value == 0 {
        return found;
    }
    Far {
        value: dist(found.value - 1) + 1,
        place: found.place,
    }
}
