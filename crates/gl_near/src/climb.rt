ghost use Rattle.std.specs.Prelude.{◌≤◌, ◌<◌};
ghost use Rattle.gl_box.specs.Cell.{Covers, spans_of};
ghost use Rattle.gl_box.specs.Halves.{span_at};
ghost use Rattle.gl_near.specs.Pairing.{whole_cell};
ghost use Rattle.gl_near.specs.Pairs.{pairing_of};
ghost use Rattle.gl_near.specs.Certificate.{IsSound};

use crate::dive::{Candidate, dive};
use crate::found::NearBest;
use crate::pairs::Pairs;
use gl_box::{Cell, Span};
use std::alloc::AllocError;

/// How many rounds a climb makes at most.
const MOST_ROUNDS: u32 = 100;

/// How many looks a dive takes at most where one of a pair is held.
const FEW_LOOKS: u32 = 1_000;

/// The cell of the pairs with this place on one axis.
fn held(pairs: &Pairs, axis: usize, place: u32) -> Cell
    requires axis { axis < 2 }
    requires within { place ≤ (span_at (whole_cell (pairing_of pairs.now)) axis).1 }
    ensures { Covers (whole_cell (pairing_of pairs.now)) (spans_of result) }
{
    let mut cell = pairs.whole();
    cell.set(axis, Span::point(place));
    cell
}

/// Holds one of the best pair, the first or else the second, and dives for a nearer pair. The only
/// error is want of memory.
fn climb_beside(
    pairs: &Pairs,
    holds_first: bool,
    best: &mut Option<NearBest>,
    candidates: &mut Vec<Candidate>,
) -> Result<(), AllocError>
    requires { IsSound (pairing_of pairs.now) best.old }
    ensures { IsSound (pairing_of pairs.now) best.new }
{
    let Some(known) = *best else {
        return Ok(());
    };
    let cell = if holds_first {
        held(pairs, 0, known.first)
    } else {
        held(pairs, 1, known.second)
    };
    dive(pairs, &cell, FEW_LOOKS, best, candidates)
}

/// Climbs from the best pair, with its first and its second held in turn, until neither finds a
/// nearer one. The only error is want of memory.
pub(crate) fn climb(
    pairs: &Pairs,
    best: &mut Option<NearBest>,
    candidates: &mut Vec<Candidate>,
) -> Result<(), AllocError>
    requires { IsSound (pairing_of pairs.now) best.old }
    ensures { IsSound (pairing_of pairs.now) best.new }
{
    let mut idle = false;
    for round in 0..MOST_ROUNDS {
        let before = *best;
        climb_beside(pairs, round % 2 == 0, best, candidates)?;
        let same = *best == before;
        if same && idle {
            return Ok(());
        }
        idle = same;
    }
    Ok(())
}
