ghost use Rattle.std.specs.Prelude.{◌≡◌, ◌≢◌, ◌<◌, ℕ, List, [], length, slice_index_or, IfSome, IsNone};
ghost use Rattle.gl_box.specs.declared.closed.Why.{Why};
ghost use Rattle.gl_box.specs.Tuple.{places_of};
ghost use Rattle.gl_goal.specs.Goal.{IsTuple, chosen, fix_at};
ghost use Rattle.gl_goal.specs.Certificate.{IsClaimed};
ghost use Rattle.gl_check.specs.Verdict.{IsVerdict};

use crate::verdict::Verdict;
use gl_box::Tuple;
use gl_goal::Goal;

/// The place of a fix number in the list of an axis, or `None` where it isn't there.
fn place_of<G: Goal>(goal: &G, axis: u8, fix: u32) -> Option<u32>
    requires { axis < length (G.rule goal.now).axes }
    ensures within { IfSome result (λ place.
        place < length (slice_index_or (G.rule goal.now).axes axis [])) }
    ensures there { IfSome result (λ place. fix_at (G.rule goal.now).axes axis place ≡ fix) }
    ensures none { IsNone result → (place : ℕ)
        → place < length (slice_index_or (G.rule goal.now).axes axis [])
        → fix_at (G.rule goal.now).axes axis place ≢ fix }
{
    let mut low = 0;
    let mut high = goal.len(axis);
    'halves: while low < high {
        let middle = low + (high - low) / 2;
        let there = goal.fix(axis, middle);
        if there == fix {
            return Some(middle);
        }
        if there < fix {
            low = middle + 1;
        } else {
            high = middle;
        }
    }
    None
}

/// The tuple that chooses the fixes with these numbers, or `None` where there is none.
fn tuple_of<G: Goal>(goal: &G, fixes: &[u32]) -> Option<Tuple>
    ensures fits { IfSome result (λ tuple. IsTuple (G.rule goal.now).axes (places_of tuple)) }
    ensures chosen { IfSome result (λ tuple.
        fixes.now ≡ chosen (G.rule goal.now).axes (places_of tuple)) }
    ensures none { IsNone result → (tuple : List ℕ) → IsTuple (G.rule goal.now).axes tuple
        → fixes.now ≢ chosen (G.rule goal.now).axes tuple }
{
    let axes = goal.axes();
    if fixes.len() != axes as usize {
        return None;
    }
    let mut tuple = Tuple::first(axes);
    for axis in 0..axes {
        let place = place_of(goal, axis, fixes[axis as usize])?;
        tuple.choose(axis as usize, place);
    }
    Some(tuple)
}

/// What is wrong with the fixes of a total: `Fixes` or `Total`, or nothing.
fn fault_of<G: Goal>(goal: &G, total: u64, fixes: &[u32]) -> Option<Verdict>
    ensures fault { IfSome result (λ verdict. (boxes : List (List (ℕ × ℕ) × Why))
        → IsVerdict (G.rule goal.now) (Some total) fixes.now boxes verdict) }
    ensures none { IsNone result → IsClaimed (G.rule goal.now) (Some total) fixes.now }
{
    let Some(tuple) = tuple_of(goal, fixes) else {
        return Some(Verdict::Fixes);
    };
    if !goal.legal(&tuple) {
        return Some(Verdict::Fixes);
    }
    if goal.value(&tuple) != total {
        return Some(Verdict::Total);
    }
    None
}

/// What is wrong with the total and the fixes of a claim: `Fixes` or `Total`, or nothing.
pub fn fault_of_choice<G: Goal>(goal: &G, total: Option<u64>, fixes: &[u32]) -> Option<Verdict>
    requires { IsNone total → length fixes.now ≡ 0 }
    ensures fault { IfSome result (λ verdict. (boxes : List (List (ℕ × ℕ) × Why))
        → IsVerdict (G.rule goal.now) total fixes.now boxes verdict) }
    ensures none { IsNone result → IsClaimed (G.rule goal.now) total fixes.now }
{
    fault_of(goal, total?, fixes)
}
