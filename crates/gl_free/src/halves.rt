ghost use Rattle.std.specs.Prelude.{◌≡◌, ◌-◌, ◌<◌, ◌≤◌, ◌^◌, IfOk, MatchOption, OnOk, length};
ghost use Rattle.gl_goal.specs.FreeGoal.{rule_of};
ghost use Rattle.gl_places.specs.ByPlace.{IsByPlace};
ghost use Rattle.gl_free.specs.Code.Halves.{AreAmong, AreHalves, AreLongest};
ghost use Rattle.gl_free.specs.Code.Search.{AreSides, IsBetter, IsOver, IsValid};

use crate::arm::{Arm, Arms};
use crate::choice::choose;
use crate::ends::Sides;
use crate::half::Half;
use crate::pair::Pair;
use gl_goal::{Best, FreeGoal, Hulls};
use gl_places::ByPlace;
use std::alloc::{AllocError, Global};

/// Both sides of the middle fix.
#[derive(Drop)]
pub(crate) struct Halves {
    pub before: Half,
    pub after: Half,
}

impl Halves {
    /// Both sides, with the ends that are allowed there. The only error is want of memory.
    fn new(
        alloc: Global,
        hulls: &Hulls,
        by_place: &ByPlace,
        sides: &Sides,
    ) -> Result<Halves, AllocError>
        requires some { 0 < length hulls.now }
        requires few { length hulls.now ≤ 90_000 }
        requires order { IsByPlace hulls.now by_place.now }
        ensures { IfOk result (AreHalves hulls.now by_place.now sides.now) }
    {
        Ok(Halves {
            before: Half::new(alloc, hulls, by_place, &sides.before)?,
            after: Half::new(alloc, hulls, by_place, &sides.after)?,
        })
    }

    /// The longest arms to a middle fix, if they may be worth more together than what was found.
    fn arms(
        &self,
        hulls: &Hulls,
        by_place: &ByPlace,
        sides: &Sides,
        middle: u32,
        best: u64,
        guess: Arms,
    ) -> Option<Arms>
        requires halves { AreHalves hulls.now by_place.now sides.now self.now }
        requires middle { middle < length hulls.now }
        requires limited { best < 2 ^ 63 }
        requires guess { AreAmong hulls.now guess }
        ensures longest { MatchOption result
            (¬ IsBetter hulls.now sides.now (middle, middle) best)
            (AreLongest hulls.now sides.now middle best) }
    {
        let most = self.after.bound(hulls, by_place, middle);
        let floor = (best + 2).saturating_sub(most);
        let guessed = guess.before.inner;
        let before = self.before.arm(hulls, by_place, middle, floor, guessed);
        if before.most <= floor {
            return None;
        }
        let floor = (best + 2).saturating_sub(before.most);
        let guessed = guess.after.inner;
        let after = self.after.arm(hulls, by_place, middle, floor, guessed);
        if after.most <= floor {
            return None;
        }
        Some(Arms { before, after })
    }

    /// Chooses the longest arms to a middle fix, if that is better than what was found. Answers
    /// ends
    /// of which the last is too low.
    fn choose_at(
        &self,
        goal: &FreeGoal,
        by_place: &ByPlace,
        sides: &Sides,
        middle: u32,
        best: &mut Best,
        guess: &mut Arms,
    ) -> Option<Pair>
        requires sides { AreSides sides.now }
        requires halves { AreHalves goal.now.hulls by_place.now sides.now self.now }
        requires middle { middle < length goal.now.hulls }
        requires valid { IsValid (rule_of goal.now) best.old }
        requires guess { AreAmong goal.now.hulls guess.old }
        ensures valid { IsValid (rule_of goal.now) best.new }
        ensures raised { best.old.total ≤ best.new.total }
        ensures guess { AreAmong goal.now.hulls guess.new }
        ensures over { IsOver goal.now.hulls sides.now (middle, middle) goal.now.loss
            best.new.total result }
    {
        let hulls = goal.hulls();
        let Some(arms) = self.arms(hulls, by_place, sides, middle, best.total, *guess) else {
            return None;
        };
        let low = choose(goal, best, middle, arms);
        *guess = arms;
        low
    }

    /// Looks for better choices by the longest arms to each middle fix. Stops at ends of which the
    /// last is too low, and answers them.
    fn middles(
        &self,
        goal: &FreeGoal,
        by_place: &ByPlace,
        sides: &Sides,
        best: &mut Best,
    ) -> Option<Pair>
        requires some { 0 < length goal.now.hulls }
        requires few { length goal.now.hulls ≤ 90_000 }
        requires sides { AreSides sides.now }
        requires halves { AreHalves goal.now.hulls by_place.now sides.now self.now }
        requires valid { IsValid (rule_of goal.now) best.old }
        ensures valid { IsValid (rule_of goal.now) best.new }
        ensures raised { best.old.total ≤ best.new.total }
        ensures over { IsOver goal.now.hulls sides.now (0, length goal.now.hulls - 1)
            goal.now.loss best.new.total result }
    {
        let nothing = Arm {
            most: 0,
            inner: 0,
            end: 0,
        };
        let mut guess = Arms {
            before: nothing,
            after: nothing,
        };
        for middle in 0..goal.hulls().len() {
            let low = self.choose_at(goal, by_place, sides, middle, best, &mut guess);
            if let Some(pair) = low {
                return Some(pair);
            }
        }
        None
    }
}

/// Looks for better choices with the fixes by place. Stops at ends of which the last is too low,
/// and answers them. The only error is want of memory.
pub(crate) fn search_by_place(
    alloc: Global,
    goal: &FreeGoal,
    sides: &Sides,
    best: &mut Best,
) -> Result<Option<Pair>, AllocError>
    requires some { 0 < length goal.now.hulls }
    requires few { length goal.now.hulls ≤ 90_000 }
    requires sides { AreSides sides.now }
    requires valid { IsValid (rule_of goal.now) best.old }
    ensures valid { OnOk result (IsValid (rule_of goal.now) best.new) }
    ensures raised { OnOk result (best.old.total ≤ best.new.total) }
    ensures over { IfOk result (IsOver goal.now.hulls sides.now
        (0, length goal.now.hulls - 1) goal.now.loss best.new.total) }
{
    let hulls = goal.hulls();
    let by_place = ByPlace::new(alloc, hulls)?;
    let halves = Halves::new(alloc, hulls, &by_place, sides)?;
    Ok(halves.middles(goal, &by_place, sides, best))
}
