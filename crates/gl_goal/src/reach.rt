ghost use Rattle.std.specs.Prelude.{ℕ, ◌≡◌, ◌-◌, ◌≤◌, ◌<◌, length, IfOk, MatchOption};
ghost use Rattle.gl_goal.specs.Code.Round.{AreReaches, IsNoneBehind};
ghost use Rattle.gl_goal.specs.Reach.{IsReach};

use crate::hulls::Hulls;
use gl_box::Span;
use std::alloc::{AllocError, Global};

/// How many places a stretch has: what is too far from all of them is found once for all.
const STRETCH: u32 = 16;

/// For each place of a list of fixes, how far a flight that closes can reach: the last place whose
/// fix is at most `closing` centimetres from a fix at this place or an earlier one. The only error
/// is want of memory.
pub(crate) fn reaches(alloc: Global, hulls: &Hulls, closing: u64) -> Result<Vec<u32>, AllocError>
    requires some { 0 < length hulls.now }
    requires most { length hulls.now ≤ 90_000 }
    ensures { IfOk result (λ reaches. AreReaches hulls.now closing reaches.items) }
{
    let mut reaches = Vec::with_capacity(alloc, hulls.len() as usize)?;
    let mut before = None;
    let mut next = 0;
    let mut end = 0;
    for place in 0..hulls.len() {
        if place == next {
            let stretch = Span {
                lo: place,
                hi: (hulls.len() - 1).min(place + (STRETCH - 1)),
            };
            end = end_of_near(hulls, closing, stretch);
            next = stretch.hi + 1;
        }
        let reach = reach_from(hulls, closing, place, before, end);
        reaches.push(reach)?;
        before = Some(reach);
    }
    Ok(reaches)
}

/// A place behind which no fix is at most `closing` centimetres from a fix of a stretch: the last
/// fix behind the stretch that is near its hull, or the last one of the stretch.
fn end_of_near(hulls: &Hulls, closing: u64, stretch: Span) -> u32
    requires stretch { stretch.hi < length hulls.now }
    requires most { length hulls.now ≤ 90_000 }
    ensures within { result < length hulls.now }
    ensures none { (place : ℕ) → stretch.lo ≤ place → place ≤ stretch.hi
        → IsNoneBehind hulls.now closing result place }
{
    let last = hulls.len() - 1;
    if stretch.hi == last {
        return last;
    }
    let behind = Span {
        lo: stretch.hi + 1,
        hi: last,
    };
    let hull = hulls.hull(stretch);
    hulls
        .last_near_hull(behind, &hull, closing)
        .unwrap_or(stretch.hi)
}

/// The reach from a place, where `before` is that from the place before it, if there is one. No fix
/// behind the place `end` is near the fix at this place.
fn reach_from(hulls: &Hulls, closing: u64, place: u32, before: Option<u32>, end: u32) -> u32
    requires place { place < length hulls.now }
    requires before { MatchOption before
        (place ≡ 0)
        (IsReach hulls.now closing (place - 1)) }
    requires end { end < length hulls.now }
    requires none { IsNoneBehind hulls.now closing end place }
    ensures { IsReach hulls.now closing place result }
{
    let least = before.unwrap_or(0).max(place);
    if end <= least {
        return least;
    }
    let beyond = Span {
        lo: least + 1,
        hi: end,
    };
    hulls
        .last_near(beyond, hulls.fix(place).at, closing)
        .unwrap_or(least)
}
