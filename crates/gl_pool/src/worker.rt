ghost use Rattle.std.specs.Prelude.{◌≡◌, [], None, IfOk};
ghost use Rattle.gl_best.specs.Seats.{IsSeatOf};
ghost use Rattle.gl_pool.specs.Code.Trail.{IsTrail};
ghost use Rattle.gl_pool.specs.Trail.{boxes_in};
ghost use Rattle.gl_pool.specs.Work.{HasHauled, HasWorked};

use crate::bench::Bench;
use crate::crowd::Crowd;
use crate::gate::Gate;
use crate::share::{Haul, Share};
use crate::step::{begin, finish};
use crate::taking::next_cell;
use crate::trail::boxes_of;
use gl_best::{BestWord, Seat};
use gl_box::OPEN_ROOM;
use gl_deal::Place;
use gl_goal::{Goal, measured_legs};
use std::alloc::{AllocError, Global};
use std::sync::Wait;
use std::thread::Threads;

/// A bench with nothing on it, for a worker that has seen a total, if any. The only error is want
/// of memory.
fn empty_bench<G: Goal>(alloc: Global, goal: &G, seen: Option<u64>) -> Result<Bench, AllocError>
    ensures legs { IfOk result (λ bench. G.are_legs goal.now bench.legs.items) }
    ensures cells { IfOk result (λ bench. bench.cells.items ≡ []) }
    ensures seen { IfOk result (λ bench. bench.seen ≡ seen) }
    ensures kept { IfOk result (λ bench. bench.share.kept ≡ None) }
    ensures closed { IfOk result (λ bench. boxes_in bench.share.closed ≡ []) }
    ensures trail { IfOk result (λ bench. IsTrail bench.share.closed []) }
    ensures strange { IfOk result (λ bench. bench.share.strange.items ≡ []) }
{
    Ok(Bench {
        cells: Vec::with_capacity(alloc, OPEN_ROOM)?,
        legs: measured_legs(alloc, goal)?,
        seen,
        share: Haul::empty(alloc),
    })
}

/// What one worker does, but for the gate. Its closed cells come as runs that are in order: those
/// of a cell that it stole begin another run.
pub(crate) fn work_on<G: Goal, K: Gate>(
    alloc: Global,
    goal: &G,
    place: &mut Place,
    word: &BestWord,
    seat: &mut Seat,
    gate: &K,
    crowd: &Crowd,
    number: u32,
) -> Result<Haul, AllocError>
    requires { IsSeatOf word.now seat.old }
    ensures hauled { IfOk result
        (HasHauled (G.rule goal.now) word.now place.old place.new seat.old seat.new) }
    ensures trail { IfOk result (λ haul. IsTrail haul.closed []) }
{
    let seen = word.look(seat);
    let Some(mut next) = next_cell(place, gate, crowd, number, false) else {
        return Ok(Haul::empty(alloc));
    };
    let mut bench = empty_bench(alloc, goal, seen)?;
    for _ in 0..u64::MAX {
        begin(alloc, goal, next, &mut bench)?;
        finish(goal, word, place, seat, &mut bench)?;
        let Some(other) = next_cell(place, gate, crowd, number, true) else {
            let Bench { share, .. } = bench;
            return Ok(share);
        };
        next = other;
    }
    // No worker takes so many cells.
    Err(AllocError)
}

/// What one worker does: it passes the gate, and works until its own deque is empty and the others
/// gave it nothing. It may go on as long as others put cells. The only error is want of memory,
/// after which nothing is said of its cells.
pub fn work<Rt: Threads + Wait + Sync, G: Goal, K: Gate>(
    _rt: &Rt,
    alloc: Global,
    goal: &G,
    worker: u32,
    place: &mut Place,
    word: &BestWord,
    seat: &mut Seat,
    gate: &K,
) -> Result<Share, AllocError>
    requires { IsSeatOf word.now seat.old }
    ensures { IfOk result
        (HasWorked (G.rule goal.now) word.now place.old place.new seat.old seat.new) }
{
    gate.pass(worker);
    let Haul {
        kept,
        closed,
        strange,
    } = work_on(
        alloc,
        goal,
        place,
        word,
        seat,
        gate,
        &Crowd::of_others(),
        worker,
    )?;
    Ok(Share {
        kept,
        closed: boxes_of(alloc, closed)?,
        strange,
    })
}
