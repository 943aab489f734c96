ghost use Rattle.std.specs.Prelude.{All, Contains, IfOk, IfSome};
ghost use Rattle.gl_goal.specs.Best.{IsSound};

use crate::climb::climb;
use crate::dive::Candidate;
use crate::spaced::spaced_tuples;
use gl_goal::{Best, Goal, Leg, beats, better};
use std::alloc::{AllocError, Global};

/// Room for the cells of a dive.
const CANDIDATE_ROOM: usize = 512;

/// From how many tuples the search climbs over pairs of axes.
const MOST_CLIMBS: u32 = 2;

/// How many looks a dive takes at most where two axes are free.
const PAIR_LOOKS: u32 = 4_000;

/// How many looks a dive takes at most where one axis is free, or three.
const FEW_LOOKS: u32 = 1_000;

/// The best of some tuples that are worth less than the limit, if there is a limit.
fn best_below(kept: &[Option<Best>], limit: Option<u64>) -> Option<Best>
    ensures { IfSome result (λ found. Contains kept.now (Some found)) }
{
    let mut found = None;
    for best in kept {
        if let Some(best) = best
            && limit.is_none_or(|limit| best.total < limit)
            && beats(best.total, &found)
        {
            found = Some(*best);
        }
    }
    found
}

/// Climbs over single axes from each of some legal tuples. `candidates` is room to work in. The only
/// error is want of memory.
fn climb_each<G: Goal>(
    goal: &G,
    kept: &mut [Option<Best>],
    candidates: &mut Vec<Candidate>,
    legs: &mut [Leg],
) -> Result<(), AllocError>
    requires sound { All (IsSound (G.rule goal.now)) kept.old }
    requires legs { G.are_legs goal.now legs.old }
    ensures sound { All (IsSound (G.rule goal.now)) kept.new }
    ensures legs { G.are_legs goal.now legs.new }
{
    for best in kept.iter_mut() {
        climb(goal, best, 1, FEW_LOOKS, candidates, legs)?;
    }
    Ok(())
}

/// The best tuple to which one comes from the best of some legal ones over pairs of axes.
/// `candidates` is room to work in. The only error is want of memory.
fn climb_pairs<G: Goal>(
    goal: &G,
    kept: &[Option<Best>],
    candidates: &mut Vec<Candidate>,
    legs: &mut [Leg],
) -> Result<Option<Best>, AllocError>
    requires sound { All (IsSound (G.rule goal.now)) kept.now }
    requires legs { G.are_legs goal.now legs.old }
    ensures sound { IfOk result (IsSound (G.rule goal.now)) }
    ensures legs { G.are_legs goal.now legs.new }
{
    let mut greatest = None;
    let mut limit = None;
    for _ in 0..MOST_CLIMBS {
        let Some(next) = best_below(kept, limit) else {
            break;
        };
        limit = Some(next.total);
        let mut best = Some(next);
        climb(goal, &mut best, 2, PAIR_LOOKS, candidates, legs)?;
        greatest = better(greatest, best);
    }
    Ok(greatest)
}

/// A legal tuple of a goal and its value, a good one if there is one to be found soon, or none. The
/// only error is want of memory.
pub fn warm_start<G: Goal>(
    alloc: Global,
    goal: &G,
    legs: &mut [Leg],
) -> Result<Option<Best>, AllocError>
    requires legs { G.are_legs goal.now legs.old }
    ensures sound { IfOk result (λ best. IsSound (G.rule goal.now) best) }
    ensures legs { G.are_legs goal.now legs.new }
{
    let mut kept = spaced_tuples(alloc, goal)?;
    let mut candidates = Vec::with_capacity(alloc, CANDIDATE_ROOM)?;
    climb_each(goal, kept.as_mut_slice(), &mut candidates, legs)?;
    let mut greatest = climb_pairs(goal, &kept, &mut candidates, legs)?;
    climb(goal, &mut greatest, 3, FEW_LOOKS, &mut candidates, legs)?;
    Ok(greatest)
}
