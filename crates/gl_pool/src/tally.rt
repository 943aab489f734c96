ghost use Rattle.std.specs.Prelude.{OnOk};
ghost use Rattle.gl_best.specs.Seats.{IsSeatOf};
ghost use Rattle.gl_pool.specs.Code.Tally.{Gathers, IsGreater, IsTally, Turns};

use crate::crowd::Crowd;
use crate::gate::Gate;
use crate::share::Haul;
use crate::trail::{add_trail, join_runs};
use crate::worker::work_on;
use gl_best::{BestWord, Seat};
use gl_deal::Place;
use gl_goal::{Best, Goal};
use gl_order::Run;
use std::alloc::{AllocError, Global};

/// What was found so far: the best tuple, which the seat has raised, and the closed cells.
#[derive(Drop)]
pub(crate) struct Tally {
    pub(crate) seat: Seat,
    pub(crate) best: Option<Best>,
    pub(crate) closed: Vec<Run>,
}

/// The one that is worth more.
fn greater(one: Option<Best>, other: Option<Best>) -> Option<Best>
    ensures { IsGreater one other result }
{
    match (one, other) {
        (Some(first), Some(second)) if first.total < second.total => other,
        (None, _) => other,
        _ => one,
    }
}

/// Lets a worker work at a place, and adds its share. The only error is want of memory.
pub(crate) fn take_turn<G: Goal, K: Gate>(
    alloc: Global,
    goal: &G,
    word: &BestWord,
    gate: &K,
    crowd: &Crowd,
    number: u32,
    place: &mut Place,
    tally: &mut Tally,
) -> Result<(), AllocError>
    requires { IsTally (G.rule goal.now) word.now tally.old }
    ensures tally { OnOk result (IsTally (G.rule goal.now) word.now tally.new) }
    ensures turn { OnOk result (Turns (G.rule goal.now) place.old place.new tally.old tally.new) }
{
    gate.pass(number);
    let Haul { kept, closed, .. } = work_on(
        alloc,
        goal,
        place,
        word,
        &mut tally.seat,
        gate,
        crowd,
        number,
    )?;
    tally.best = kept.or(tally.best);
    add_trail(&mut tally.closed, closed)
}

/// Takes in what another seat raised, and the cells that were closed with it. The only error is
/// want of memory.
pub(crate) fn gather(word: &BestWord, tally: &mut Tally, other: Tally) -> Result<(), AllocError>
    requires seat { IsSeatOf word.now tally.old.seat }
    requires other { IsSeatOf word.now other.seat }
    ensures { OnOk result (Gathers word.now tally.old other tally.new) }
{
    let Tally { seat, best, closed } = other;
    word.gather(&mut tally.seat, seat);
    tally.best = greater(tally.best, best);
    join_runs(&mut tally.closed, closed)
}
