use crate::leg::Leg;
use crate::spans::{Corner, Spans};
use gl_goal::Hulls;

/// How much of all three legs each leg of a triangle has to be at least, in percent.
const LEAST_SHARE: u64 = 28;

/// How much of them a leg can be at most, since each of the two others is at least 28 percent.
const GREATEST_SHARE: u64 = 100 - 2 * LEAST_SHARE;

/// From this length on a triangle is large, in centimetres: 750 km.
const LARGE: u64 = 75_000_000;

/// How much of all three legs each leg of a large triangle has to be at least, in percent.
const LEAST_LARGE_SHARE: u64 = 25;

/// How much of them it may be at most, in percent.
const GREATEST_LARGE_SHARE: u64 = 45;

/// How long the legs of a triangle are at least and at most: from the first corner to the second,
/// from there to the third, and back to the first.
#[derive(Clone, Copy)]
pub(crate) struct Legs {
    pub first: Leg,
    pub second: Leg,
    pub third: Leg,
}

impl Legs {
    ghost use Rattle.std.specs.Prelude.{◌≡◌, ◌+◌, ◌<◌, ◌≤◌, max, min, MatchOption};
    ghost use Rattle.gl_goal.specs.Fair.{by_25_to_45_percent, by_28_percent};
    ghost use Rattle.gl_triangle.specs.Code.Legs.{AreAtMost, AreAtMostBy, AreLegs, IsAcross};
    ghost use Rattle.gl_triangle.specs.Code.Spans.{AreWithin};

    /// The legs between fixes of three spans.
    pub fn between(hulls: &Hulls, spans: &Spans) -> Legs
        requires { AreWithin hulls.now spans.now }
        ensures { AreLegs hulls.now spans.now result }
    {
        let first = hulls.hull(spans.first);
        let second = hulls.hull(spans.second);
        let third = hulls.hull(spans.third);
        Legs {
            first: Leg::between(&first, &second),
            second: Leg::between(&second, &third),
            third: Leg::between(&third, &first),
        }
    }

    /// The legs after the span of a corner became another: only the two legs there are measured.
    #[inline]
    pub fn remeasured(&self, hulls: &Hulls, spans: &Spans, corner: Corner) -> Legs
        requires within { AreWithin hulls.now spans.now }
        requires across { IsAcross hulls.now spans.now self.now corner }
        ensures { AreLegs hulls.now spans.now result }
    {
        let first = hulls.hull(spans.first);
        let second = hulls.hull(spans.second);
        let third = hulls.hull(spans.third);
        match corner {
            Corner::First => Legs {
                first: Leg::between(&first, &second),
                second: self.second,
                third: Leg::between(&third, &first),
            },
            Corner::Second => Legs {
                first: Leg::between(&first, &second),
                second: Leg::between(&second, &third),
                third: self.third,
            },
            Corner::Third => Legs {
                first: self.first,
                second: Leg::between(&second, &third),
                third: Leg::between(&third, &first),
            },
        }
    }

    /// All three legs together, each at its greatest.
    #[inline]
    fn at_most(&self) -> u64
        ensures { result ≡ self.now.first.most + self.now.second.most + self.now.third.most }
    {
        self.first.most + self.second.most + self.third.most
    }

    /// All three legs together, each at its least.
    #[inline]
    fn at_least(&self) -> u64
        ensures { result ≡ self.now.first.least + self.now.second.least + self.now.third.least }
    {
        self.first.least + self.second.least + self.third.least
    }

    /// The most that the shortest leg can be.
    #[inline]
    fn shortest(&self) -> u64
        ensures { result ≡ min (min self.now.first.most self.now.second.most) self.now.third.most }
    {
        self.first.most.min(self.second.most).min(self.third.most)
    }

    /// The least that the longest leg can be.
    #[inline]
    fn longest(&self) -> u64
        ensures { result
            ≡ max (max self.now.first.least self.now.second.least) self.now.third.least }
    {
        self.first
            .least
            .max(self.second.least)
            .max(self.third.least)
    }

    /// How long legs between these are together at most by the rule of 28 percent; `known` where
    /// none are longer than that.
    #[inline]
    fn most_by_28_percent(&self, known: u64) -> u64
        ensures more { known ≤ result }
        ensures at_most { AreAtMostBy by_28_percent self.now result }
    {
        let shortest = self.shortest();
        let bound = self.at_most().min(100 * shortest / LEAST_SHARE);
        if bound <= known
            || 100 * self.longest() > GREATEST_SHARE * bound
            || 100 * shortest < LEAST_SHARE * self.at_least()
        {
            return known;
        }
        bound
    }

    /// The same by the rule of large triangles.
    #[inline]
    fn most_by_25_to_45_percent(&self, known: u64) -> u64
        ensures more { known ≤ result }
        ensures at_most { AreAtMostBy by_25_to_45_percent self.now result }
    {
        let most = self.at_most();
        if most < LARGE {
            return known;
        }
        let shortest = self.shortest();
        let bound = most.min(100 * shortest / LEAST_LARGE_SHARE);
        if bound < LARGE
            || bound <= known
            || 100 * self.longest() > GREATEST_LARGE_SHARE * bound
            || 100 * shortest < LEAST_LARGE_SHARE * self.at_least()
        {
            return known;
        }
        bound
    }

    /// How long fair legs between these are together at most, if that is more than `known`. `None`
    /// where none are longer.
    #[inline]
    pub fn promise(&self, known: u64) -> Option<u64>
        ensures { MatchOption result
            (AreAtMost self.now known)
            (λ bound. (known < bound) × AreAtMost self.now bound) }
    {
        let by_28_percent = self.most_by_28_percent(known);
        let bound = self.most_by_25_to_45_percent(known).max(by_28_percent);
        if bound <= known {
            return None;
        }
        Some(bound)
    }
}
