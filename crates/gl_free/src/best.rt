ghost use Rattle.std.specs.Prelude.{◌≡◌, ◌<◌, ◌≤◌, ℕ, length, IfOk, OnOk, Some};
ghost use Rattle.gl_box.specs.Tuple.{places_of};
ghost use Rattle.gl_goal.specs.FreeGoal.{rule_of};
ghost use Rattle.gl_goal.specs.Goal.{IsOptimum, IsReached};
ghost use Rattle.gl_free.specs.Code.Places.{altitude_at};
ghost use Rattle.gl_free.specs.Code.Ranges.{IsBetterChoice, IsIn};
ghost use Rattle.gl_free.specs.Code.Search.{AreFlanks, IsValid};

use crate::altitudes::Altitudes;
use crate::flank::Flank;
use crate::ranges::advance;
use crate::search::Search;
use crate::warm::warm_start;
use gl_box::Span;
use gl_goal::{Best, FreeGoal, Hulls};
use std::alloc::{AllocError, Global};

/// Room for ranges of altitudes.
const RANGES_ROOM: usize = 64;

/// How many candidates are looked at in time order. The real flights that were measured end long
/// before.
const LOOKS_IN_TIME: usize = 5_000_000;

/// Each run over a range of altitudes has this part of the looks, whatever the others took.
const RUNS: usize = 50;

/// The altitudes of all fixes.
fn all_altitudes(hulls: &Hulls) -> Altitudes
    requires some { 0 < length hulls.now }
    requires few { length hulls.now ≤ 90_000 }
    ensures { (place : ℕ) → place < length hulls.now → IsIn result (altitude_at hulls.now place) }
{
    let whole = hulls.hull(Span {
        lo: 0,
        hi: hulls.len() - 1,
    });
    Altitudes {
        lowest: whole.alt_lo,
        highest: whole.alt_hi,
    }
}

/// A search that knows a good choice, and nothing yet of the two sides. The only error is want of
/// memory.
fn begun(alloc: Global, goal: &FreeGoal, hulls: &Hulls, looks: usize) -> Result<Search, AllocError>
    requires { length hulls.now ≤ 90_000 }
    ensures valid { IfOk result (λ search. IsValid (rule_of goal.now) search.best) }
    ensures flanks { IfOk result (AreFlanks hulls.now) }
{
    Ok(Search {
        before: Flank::new(alloc, hulls.len() as usize)?,
        after: Flank::new(alloc, hulls.len() as usize)?,
        best: warm_start(alloc, goal)?,
        looks,
        looks_of_a_run: looks / RUNS,
    })
}

/// Searches all altitudes, until no choice is better than what was found. The only error is want of
/// memory.
fn search_all(
    alloc: Global,
    goal: &FreeGoal,
    hulls: &Hulls,
    search: &mut Search,
) -> Result<(), AllocError>
    requires same { hulls.now ≡ goal.now.hulls }
    requires some { 0 < length hulls.now }
    requires few { length hulls.now ≤ 90_000 }
    requires valid { IsValid (rule_of goal.now) search.old.best }
    requires flanks { AreFlanks hulls.now search.old }
    ensures valid { OnOk result (IsValid (rule_of goal.now) search.new.best) }
    ensures best { OnOk result
        (¬ IsBetterChoice hulls.now goal.now.loss search.new.best.total) }
{
    let mut ranges = Vec::with_capacity(alloc, RANGES_ROOM)?;
    ranges.push(all_altitudes(hulls))?;
    while let Some(range) = ranges.pop() {
        advance(alloc, goal, hulls, search, &mut ranges, range)?;
    }
    Ok(())
}

/// The greatest free distance of a goal, with a tuple that reaches it. Keeps no boxes. The only
/// error is want of memory.
///
/// Spans of time are halved first. On a flight that comes to the same places again and again no
/// span of time is small, so after so many looks the fixes are taken by place instead.
pub fn best_free_after(alloc: Global, goal: &FreeGoal, looks: usize) -> Result<Best, AllocError>
    ensures reached { IfOk result
        (λ best. IsReached (rule_of goal.now) best.total (places_of best.tuple)) }
    ensures optimum { IfOk result (λ best. IsOptimum (rule_of goal.now) (Some best.total)) }
{
    let hulls = goal.hulls();
    let mut search = begun(alloc, goal, hulls, looks)?;
    search_all(alloc, goal, hulls, &mut search)?;
    Ok(search.best)
}

/// The greatest free distance of a goal, with a tuple that reaches it. Keeps no boxes. The only
/// error is want of memory.
pub fn best_free(alloc: Global, goal: &FreeGoal) -> Result<Best, AllocError>
    ensures reached { IfOk result
        (λ best. IsReached (rule_of goal.now) best.total (places_of best.tuple)) }
    ensures optimum { IfOk result (λ best. IsOptimum (rule_of goal.now) (Some best.total)) }
{
    best_free_after(alloc, goal, LOOKS_IN_TIME)
}
