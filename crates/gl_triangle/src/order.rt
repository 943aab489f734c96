ghost use Rattle.std.specs.Prelude.{◌≡◌, ◌<◌, length};
ghost use Rattle.gl_triangle.specs.Code.Node.{fixes_of};
ghost use Rattle.gl_triangle.specs.Code.Order.{AreNumbers, IsOrder, in_time, number_at, ordered_fixes};
ghost use Rattle.gl_triangle.specs.Code.Places.{AreAmong, places_in};

use crate::places::Places;
use gl_box::Span;
use gl_goal::{Hulls, TriangleGoal};
use gl_places::ByPlace;

/// An order of the fixes of a flight, whose spans a search halves.
#[derive(Drop)]
pub(crate) enum Order {
    InTime,
    ByPlace(ByPlace),
}

impl Order {
    /// The hulls over the fixes in this order.
    #[inline]
    pub fn hulls<'a>(&'a self, goal: &'a TriangleGoal) -> &'a Hulls
        ensures { result.now ≡ ordered_fixes (fixes_of goal.now) self.now }
    {
        match self {
            Order::InTime => goal.hulls(),
            Order::ByPlace(by_place) => &by_place.hulls,
        }
    }

    /// The least and the greatest number of the fixes in a span.
    #[inline]
    pub fn numbers(&self, goal: &TriangleGoal, span: Span) -> Span
        requires order { IsOrder (fixes_of goal.now) self.now }
        requires inside { span.hi < length (fixes_of goal.now) }
        ensures numbers { AreNumbers self.now span result }
        ensures inside { result.hi < length (fixes_of goal.now) }
    {
        match self {
            Order::InTime => span,
            Order::ByPlace(by_place) => by_place.numbers_in(span),
        }
    }

    /// The number of the fix at a place.
    #[inline]
    fn number(&self, goal: &TriangleGoal, place: u32) -> u32
        requires order { IsOrder (fixes_of goal.now) self.now }
        requires place { place < length (fixes_of goal.now) }
        ensures number { result ≡ number_at self.now place }
        ensures below { result < length (fixes_of goal.now) }
    {
        match self {
            Order::InTime => place,
            Order::ByPlace(by_place) => by_place.numbers[place as usize],
        }
    }

    /// The fixes at three places, by their numbers and in time order.
    pub fn in_time(&self, goal: &TriangleGoal, places: Places) -> Places
        requires order { IsOrder (fixes_of goal.now) self.now }
        requires among { AreAmong (fixes_of goal.now) places }
        ensures in_time { places_in result ≡ in_time self.now (places_in places) }
        ensures among { AreAmong (fixes_of goal.now) result }
    {
        let first = self.number(goal, places.first);
        let second = self.number(goal, places.second);
        let third = self.number(goal, places.third);
        let (least, other) = (first.min(second), first.max(second));
        let (middle, greatest) = (other.min(third), other.max(third));
        Places {
            first: least.min(middle),
            second: least.max(middle),
            third: greatest,
        }
    }
}
