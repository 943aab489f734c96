ghost use Rattle.std.specs.Prelude.{◌≡◌, ℕ, ◌+◌, ◌<◌, ◌≤◌, ◌≤ℤ◌, ◌^◌, All, IfOk, length};
ghost use Rattle.gl_places.specs.ByPlace.{IsByPlace};
ghost use Rattle.gl_free.specs.Code.Arms.{IsArm, arm_length};
ghost use Rattle.gl_free.specs.Code.Halves.{AreEnds, AreFarthest, AreWaysBy, IsHalf, IsLongestArm};
ghost use Rattle.gl_free.specs.Code.Ways.{IsTarget, IsTree};

use crate::arm::Arm;
use crate::ends::Ends;
use crate::far::Far;
use crate::side::Side;
use crate::tree::Tree;
use crate::way::Target;
use gl_goal::Hulls;
use gl_igc::Fix;
use gl_places::ByPlace;
use std::alloc::{AllocError, Global};

/// One side of the middle fix: the farthest allowed end from each fix, and the ways from there.
#[derive(Drop)]
pub(crate) struct Half {
    pub allowed: Ends,
    pub ends: Vec<Far>,
    pub tree: Tree,
}

/// A fix to which ways go on, with the fixes before it on them on a side of it.
#[inline]
fn target_at(hulls: &Hulls, number: u32, side: Side) -> Target
    requires { number < length hulls.now }
    ensures target { IsTarget hulls.now result }
    ensures number { result.number ≡ number }
    ensures side { result.side ≡ side }
{
    Target {
        number,
        side,
        at: hulls.fix(number).at,
    }
}

/// The way without legs to a fix, with one more, if it is an end that is allowed.
#[inline]
fn way_of_end(allowed: &Ends, fix: &Fix) -> u64
    ensures at_most { result ≤ 1 }
    ensures allowed { 0 < result
        → (allowed.now.lowest ≤ℤ fix.now.alt) × (fix.now.alt ≤ℤ allowed.now.highest) }
    ensures all { allowed.now.lowest ≤ℤ fix.now.alt → fix.now.alt ≤ℤ allowed.now.highest
        → result ≡ 1 }
{
    if allowed.lowest <= fix.alt && fix.alt <= allowed.highest {
        1
    } else {
        0
    }
}

/// The ways without legs, from the ends that are allowed. The only error is want of memory.
fn ways_of_ends(alloc: Global, hulls: &Hulls, allowed: &Ends) -> Result<Vec<u64>, AllocError>
    requires { length hulls.now ≤ 90_000 }
    ensures long { IfOk result (λ ways. length ways.items ≡ length hulls.now) }
    ensures ends { IfOk result (λ ways. AreEnds hulls.now allowed.now ways.items) }
{
    let mut ways = Vec::with_capacity(alloc, hulls.len() as usize)?;
    for number in 0..hulls.len() {
        ways.push(way_of_end(allowed, hulls.fix(number)))?;
    }
    Ok(ways)
}

/// The farthest end from each fix. The only error is want of memory.
fn farthest_ends(
    alloc: Global,
    hulls: &Hulls,
    by_place: &ByPlace,
    allowed: &Ends,
    tree: &Tree,
) -> Result<Vec<Far>, AllocError>
    requires tree { IsTree hulls.now by_place.now tree.now }
    requires ends { AreEnds hulls.now allowed.now tree.now.ways.items }
    ensures long { IfOk result (λ ends. length ends.items ≡ length hulls.now) }
    ensures farthest { IfOk result (λ ends. AreFarthest hulls.now allowed.now ends.items) }
{
    let mut ends = Vec::with_capacity(alloc, hulls.len() as usize)?;
    let mut guess = 0;
    for number in 0..hulls.len() {
        let target = target_at(hulls, number, allowed.side);
        let found = tree.longest(hulls, by_place, &target, 0, guess);
        guess = found.from;
        ends.push(Far {
            value: found.length,
            place: found.from,
        })?;
    }
    Ok(ends)
}

/// The farthest end from each fix, by a tree over the ends that are allowed. The only error is want
/// of memory.
fn farthest_allowed(
    alloc: Global,
    hulls: &Hulls,
    by_place: &ByPlace,
    allowed: &Ends,
) -> Result<Vec<Far>, AllocError>
    requires some { 0 < length hulls.now }
    requires few { length hulls.now ≤ 90_000 }
    requires order { IsByPlace hulls.now by_place.now }
    ensures long { IfOk result (λ ends. length ends.items ≡ length hulls.now) }
    ensures farthest { IfOk result (λ ends. AreFarthest hulls.now allowed.now ends.items) }
{
    let starts = ways_of_ends(alloc, hulls, allowed)?;
    let tree = Tree::new(alloc, hulls, by_place, starts)?;
    farthest_ends(alloc, hulls, by_place, allowed, &tree)
}

/// The ways of one leg. The only error is want of memory.
fn ways_by(alloc: Global, ends: &Vec<Far>) -> Result<Vec<u64>, AllocError>
    requires { length ends.now.items ≤ 90_000 }
    ensures long { IfOk result (λ ways. length ways.items ≡ length ends.now.items) }
    ensures ways { IfOk result (λ ways. AreWaysBy ends.now.items ways.items) }
{
    let mut ways = Vec::with_capacity(alloc, ends.len())?;
    for number in 0..ends.len() {
        ways.push(ends[number].value)?;
    }
    Ok(ways)
}

impl Half {
    /// The side on which these ends are allowed. The only error is want of memory.
    pub(crate) fn new(
        alloc: Global,
        hulls: &Hulls,
        by_place: &ByPlace,
        allowed: &Ends,
    ) -> Result<Half, AllocError>
        requires some { 0 < length hulls.now }
        requires few { length hulls.now ≤ 90_000 }
        requires order { IsByPlace hulls.now by_place.now }
        ensures half { IfOk result (IsHalf hulls.now by_place.now) }
        ensures allowed { IfOk result (λ half. half.allowed ≡ allowed.now) }
    {
        let ends = farthest_allowed(alloc, hulls, by_place, allowed)?;
        let ways = ways_by(alloc, &ends)?;
        let tree = Tree::new(alloc, hulls, by_place, ways)?;
        Ok(Half {
            allowed: *allowed,
            ends,
            tree,
        })
    }

    /// The longest arm to a middle fix, if it is longer than the floor. `guess` may be the number
    /// of
    /// its inner fix.
    pub(crate) fn arm(
        &self,
        hulls: &Hulls,
        by_place: &ByPlace,
        middle: u32,
        floor: u64,
        guess: u32,
    ) -> Arm
        requires half { IsHalf hulls.now by_place.now self.now }
        requires middle { middle < length hulls.now }
        requires guess { guess < length hulls.now }
        ensures arm { IsLongestArm hulls.now self.now.allowed middle floor result }
        ensures inner { result.inner < length hulls.now }
    {
        let target = target_at(hulls, middle, self.allowed.side);
        let found = self.tree.longest(hulls, by_place, &target, floor, guess);
        Arm {
            most: found.length,
            inner: found.from,
            end: self.ends[found.from as usize].place,
        }
    }

    /// What an arm to a middle fix is shorter than.
    pub(crate) fn bound(&self, hulls: &Hulls, by_place: &ByPlace, middle: u32) -> u64
        requires half { IsHalf hulls.now by_place.now self.now }
        requires middle { middle < length hulls.now }
        ensures { (inner end : ℕ) → IsArm hulls.now self.now.allowed middle inner end
            → arm_length hulls.now middle inner end < result }
    {
        let target = target_at(hulls, middle, self.allowed.side);
        self.tree.bound(hulls, by_place, &target)
    }
}
