ghost use Rattle.std.specs.Prelude.{◌≡◌, ◌≤◌, [], IfOk, IfSome, OnOk, length};
ghost use Rattle.gl_best.specs.Rule.{first_view};
ghost use Rattle.gl_best.specs.Seats.{HasAll, IsSeatOf, view_of};
ghost use Rattle.gl_plain.specs.Answer.{IsAnswer};
ghost use Rattle.gl_goal.specs.Best.{IsSound};
ghost use Rattle.gl_pool.specs.Code.Many.{ComesToAll, IsDealt, IsLeft};
ghost use Rattle.gl_order.specs.Runs.{boxes_in_runs};
ghost use Rattle.gl_pool.specs.Code.Tally.{IsTally};

use crate::crew::work_all;
use crate::crowd::Crowd;
use crate::gate::{Gate, OpenGate};
use crate::settle::settle_all;
use crate::tally::{Tally, take_turn};
use gl_best::{BestWord, Seat};
use gl_deal::{Place, deal};
use gl_goal::{Best, Goal, measured_legs, whole};
use gl_order::in_order;
use gl_plain::{Found, search_one, warm_start};
use std::alloc::{AllocError, Global};
use std::sync::Wait;
use std::thread::Threads;

/// A place for each worker, the first of which has the whole cell in its deque. `None` where it has
/// no room there. The only error is want of memory.
fn dealt<G: Goal>(alloc: Global, goal: &G, workers: u32) -> Result<Option<Vec<Place>>, AllocError>
    requires some { 1 ≤ workers }
    requires most { workers ≤ 16 }
    ensures count { IfOk result (λ dealt. IfSome dealt
        (λ places. length places.items ≡ workers)) }
    ensures dealt { IfOk result (λ dealt. IfSome dealt
        (λ places. IsDealt (G.rule goal.now) places.items)) }
{
    let mut places = deal(alloc, workers)?;
    match places[0].hand.put(whole(goal)) {
        Ok(()) => Ok(Some(places)),
        Err(_) => Ok(None),
    }
}

/// What is found before any worker begins: a good tuple, if there is one to be found soon. The only
/// error is want of memory.
fn warmed<G: Goal>(alloc: Global, goal: &G) -> Result<Option<Best>, AllocError>
    ensures { IfOk result (IsSound (G.rule goal.now)) }
{
    let mut legs = measured_legs(alloc, goal)?;
    warm_start(alloc, goal, legs.as_mut_slice())
}

/// The tally of what was found before any worker begins, raised in the first seat.
fn first_tally<G: Goal>(
    alloc: Global,
    goal: &G,
    word: &BestWord,
    mut seat: Seat,
    best: Option<Best>,
) -> Tally
    requires seat { IsSeatOf word.now seat }
    requires view { view_of seat ≡ first_view }
    requires sound { IsSound (G.rule goal.now) best }
    ensures tally { IsTally (G.rule goal.now) word.now result }
    ensures nothing { boxes_in_runs result.closed.items ≡ [] }
    ensures numbers { (view_of result.seat).numbers ≡ (view_of seat).numbers }
{
    if let Some(known) = best {
        word.raise(&mut seat, known.total);
    }
    Tally {
        seat,
        best,
        closed: Vec::new(alloc),
    }
}

/// Works at each place in turn, on the cells that are left there. It waits for nobody. The only
/// error is want of memory.
fn finish<G: Goal>(
    alloc: Global,
    goal: &G,
    word: &BestWord,
    places: &mut [Place],
    tally: &mut Tally,
) -> Result<(), AllocError>
    requires tally { IsTally (G.rule goal.now) word.now tally.old }
    requires few { length places.old ≤ 16 }
    requires left { IsLeft (G.rule goal.now) places.old tally.old }
    ensures tally { OnOk result (IsTally (G.rule goal.now) word.now tally.new) }
    ensures all { OnOk result (ComesToAll (G.rule goal.now) tally.new) }
    ensures numbers { OnOk result
        ((view_of tally.new.seat).numbers ≡ (view_of tally.old.seat).numbers) }
{
    let crowd = Crowd::new();
    for number in 0..places.len() {
        take_turn(
            alloc,
            goal,
            word,
            &OpenGate,
            &crowd,
            number as u32,
            &mut places[number],
            tally,
        )?;
    }
    Ok(())
}

/// What is answered once all cells are closed. The only error is want of memory.
fn answer<G: Goal>(
    alloc: Global,
    goal: &G,
    word: BestWord,
    tally: Tally,
) -> Result<Found, AllocError>
    requires tally { IsTally (G.rule goal.now) word tally }
    requires all { ComesToAll (G.rule goal.now) tally }
    requires numbers { HasAll tally.seat }
    ensures { IfOk result (IsAnswer (G.rule goal.now)) }
{
    let Tally { seat, best, closed } = tally;
    word.close(seat);
    Ok(Found {
        best,
        closed: in_order(alloc, &whole(goal), closed)?,
    })
}

/// The optimum of a goal, and boxes that certify it, found by 1 to 16 workers, as good an answer as
/// that of a search by one. It may wait for its workers. The only error is want of memory.
///
/// That the workers pass the gate, work side by side, steal from each other and hear the best total
/// that any of them found is shown by tests and said by no contract.
pub fn search_many<Rt: Threads + Wait + Sync, G: Goal + Sync, K: Gate + Sync>(
    rt: &Rt,
    alloc: Global,
    goal: &G,
    workers: u32,
    gate: &K,
) -> Result<Found, AllocError>
    requires some { 1 ≤ workers }
    requires most { workers ≤ 16 }
    ensures { IfOk result (IsAnswer (G.rule goal.now)) }
{
    if workers == 1 {
        gate.pass(0);
        return search_one(alloc, goal);
    }
    let Some(places) = dealt(alloc, goal, workers)? else {
        return search_one(alloc, goal);
    };
    let best = warmed(alloc, goal)?;
    let (word, seat) = BestWord::new(alloc)?;
    let tally = first_tally(alloc, goal, &word, seat, best);
    let (mut places, mut tally) = work_all(rt, alloc, goal, &word, gate, places, tally)?;
    let settled = places.as_mut_slice();
    settle_all(alloc, settled);
    finish(alloc, goal, &word, settled, &mut tally)?;
    answer(alloc, goal, word, tally)
}
