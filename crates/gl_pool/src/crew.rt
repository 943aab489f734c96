ghost use Rattle.std.specs.Prelude.{◌≡◌, ◌≤◌, ◌<◌, [], All, IfOk, length};
ghost use Rattle.gl_best.specs.Seats.{IsSeatOf, view_of};
ghost use Rattle.gl_pool.specs.Code.Tally.{IsTally};
ghost use Rattle.gl_order.specs.Runs.{boxes_in_runs};
ghost use Rattle.gl_pool.specs.Code.Settle.{StandReady};
ghost use Rattle.gl_pool.specs.Code.Crew.{AreSeated, Collects, HasTurned, WorkedAll, has_seat};

use crate::crowd::Crowd;
use crate::gate::Gate;
use crate::tally::{Tally, gather, take_turn};
use gl_best::BestWord;
use gl_deal::Place;
use gl_goal::Goal;
use std::alloc::{AllocError, Global};
use std::thread::{self, Threads};

/// One of the workers: its number, its place, and what it found.
#[derive(Drop)]
pub(crate) struct Worker {
    pub(crate) number: u32,
    pub(crate) place: Place,
    pub(crate) tally: Tally,
}

/// A worker for each place, with the number of its owner. The last one has what was found before,
/// and each other one a seat that is shared with it. The only error is want of memory.
fn seated(
    alloc: Global,
    word: &BestWord,
    mut places: Vec<Place>,
    mut tally: Tally,
) -> Result<Vec<Worker>, AllocError>
    requires ready { StandReady places.items }
    requires seat { IsSeatOf word.now tally.seat }
    requires some { 0 < length places.items }
    requires few { length places.items ≤ 16 }
    requires enough { length places.items ≤ length (view_of tally.seat).numbers }
    ensures { IfOk result (λ workers. AreSeated word.now places.items tally workers.items) }
{
    let mut workers = Vec::with_capacity(alloc, places.len())?;
    let Some(last) = places.pop() else {
        unreachable!()
    };
    for place in places {
        let shared = Tally {
            seat: word.share(&mut tally.seat),
            best: None,
            closed: Vec::new(alloc),
        };
        workers.push(Worker {
            number: workers.len() as u32,
            place,
            tally: shared,
        })?;
    }
    workers.push(Worker {
        number: workers.len() as u32,
        place: last,
        tally,
    })?;
    Ok(workers)
}

/// Lets a worker work. The only error is want of memory.
fn turned<G: Goal, K: Gate>(
    alloc: Global,
    goal: &G,
    word: &BestWord,
    gate: &K,
    crowd: &Crowd,
    mut worker: Worker,
) -> Result<Worker, AllocError>
    requires { IsTally (G.rule goal.now) word.now worker.tally }
    ensures { IfOk result (HasTurned (G.rule goal.now) word.now worker) }
{
    take_turn(
        alloc,
        goal,
        word,
        gate,
        crowd,
        worker.number,
        &mut worker.place,
        &mut worker.tally,
    )?;
    Ok(worker)
}

/// The places of workers that have worked, and what they found together. The only error is want of
/// memory, also where a worker had none.
fn collected(
    alloc: Global,
    word: &BestWord,
    mut workers: Vec<Result<Worker, AllocError>>,
) -> Result<(Vec<Place>, Tally), AllocError>
    requires some { 0 < length workers.items }
    requires seats { All (has_seat word.now) workers.items }
    ensures { IfOk result (λ all. Collects word.now workers.items all.0.items all.1) }
{
    let mut places = Vec::with_capacity(alloc, workers.len())?;
    let Some(last) = workers.pop() else {
        unreachable!()
    };
    let Worker {
        place,
        mut tally,
        ..
    } = last?;
    places.push(place)?;
    'others: while let Some(worker) = workers.pop() {
        let Worker {
            place,
            tally: other,
            ..
        } = worker?;
        places.push(place)?;
        gather(word, &mut tally, other)?;
    }
    places.reverse();
    Ok((places, tally))
}

/// Lets a worker work at each place, side by side, and collects what they found. The first one
/// works in this thread, as does one for whom no thread can be started. The only error is want of
/// memory.
pub(crate) fn work_all<Rt: Threads + Sync, G: Goal + Sync, K: Gate + Sync>(
    rt: &Rt,
    alloc: Global,
    goal: &G,
    word: &BestWord,
    gate: &K,
    places: Vec<Place>,
    tally: Tally,
) -> Result<(Vec<Place>, Tally), AllocError>
    requires tally { IsTally (G.rule goal.now) word.now tally }
    requires nothing { boxes_in_runs tally.closed.items ≡ [] }
    requires ready { StandReady places.items }
    requires some { 0 < length places.items }
    requires few { length places.items ≤ 16 }
    requires enough { length places.items ≤ length (view_of tally.seat).numbers }
    ensures tally { IfOk result (λ all. IsTally (G.rule goal.now) word.now all.1) }
    ensures worked { IfOk result
        (λ all. WorkedAll (G.rule goal.now) places.items all.0.items tally all.1) }
{
    let mut workers = seated(alloc, word, places, tally)?;
    workers.reverse();
    let crowd = Crowd::new();
    let mut worked = thread::map_vec(
        rt,
        workers,
        &|worker: Worker| -> Result<Worker, AllocError>
            requires { IsTally (G.rule goal.now) word.now worker.tally }
            ensures { IfOk result (HasTurned (G.rule goal.entry.now) word.entry.now worker) }
        { turned(alloc, goal, word, gate, &crowd, worker) },
    )?;
    worked.reverse();
    collected(alloc, word, worked)
}
