ghost use Rattle.std.specs.Prelude.{◌≡◌, ◌<◌, [], ◌∷◌, OnOk, vec_len};
ghost use Rattle.gl_goal.specs.Goal.{Goal};
ghost use Rattle.gl_best.specs.declared.word.BestWord.{BestWord};
ghost use Rattle.gl_best.specs.declared.word.Seat.{Seat};
ghost use Rattle.gl_deal.specs.declared.place.Place.{Place};
ghost use Rattle.gl_pool.specs.Taken.{Moves};
ghost use Rattle.gl_pool.specs.Code.Trail.{IsOnTrail, IsTrail};
ghost use Rattle.gl_pool.specs.Code.UnderWay.{GoesOn, IsAtWork, Steps};

use crate::bench::Bench;
use crate::trail::come_to;
use gl_best::{BestWord, Seat};
use gl_box::{Cell, GoalTurn, Turn, Why, covers, settle};
use gl_deal::Place;
use gl_goal::{Best, Goal, whole};
use gl_plain::{CellVerdict, test_for};
use std::alloc::{AllocError, Global};

/// How many cells a worker tests before it looks at the best word again and puts a cell.
const STRETCH: u32 = 64;

/// How many cells a worker keeps to itself at least.
const KEPT_CELLS: usize = 1;

/// One step at the last cell: it is closed, or gives way to its halves, the lower one last. A
/// single tuple that is worth more than what the seat has seen is kept, and then its total is
/// raised. The only error is want of memory.
#[inline]
fn step<G: Goal>(
    goal: &G,
    word: &BestWord,
    seat: &mut Seat,
    bench: &mut Bench,
) -> Result<(), AllocError>
    requires some { 0 < vec_len bench.old.cells }
    requires at_work { (place : Place)
        × IsAtWork (G.rule goal.now) word.now place seat.old bench.old }
    requires legs { G.are_legs goal.now bench.old.legs.items }
    requires trail { IsOnTrail bench.old }
    ensures on { OnOk result
        (Steps (G.rule goal.now) word.now seat.old seat.new bench.old bench.new) }
    ensures legs { OnOk result (G.are_legs goal.now bench.new.legs.items) }
    ensures trail { OnOk result (IsOnTrail bench.new) }
{
    let top = bench.cells.len() - 1;
    match test_for(goal, &bench.cells[top], bench.seen, &mut bench.legs) {
        CellVerdict::Closed(why) => {
            settle(
                &mut bench.cells,
                &mut bench.share.closed.last.turns,
                Some(why),
            )?;
        }
        CellVerdict::Open(bound) => {
            let turns = &mut bench.share.closed.last.turns;
            if let Some(single) = settle(&mut bench.cells, turns, None)? {
                bench.share.kept = Some(Best {
                    total: bound,
                    tuple: single.lowest(),
                });
                word.raise(seat, bound);
                bench.seen = word.look(seat);
                let last = &mut bench.share.closed.last;
                last.turns.push(GoalTurn::close(Why::Bound))?;
            }
        }
    }
    Ok(())
}

/// So many steps, or as many as there are cells for. The only error is want of memory.
fn stretch<G: Goal>(
    goal: &G,
    word: &BestWord,
    seat: &mut Seat,
    bench: &mut Bench,
) -> Result<(), AllocError>
    requires at_work { (place : Place)
        × IsAtWork (G.rule goal.now) word.now place seat.old bench.old }
    requires legs { G.are_legs goal.now bench.old.legs.items }
    requires trail { IsOnTrail bench.old }
    ensures on { OnOk result
        (Steps (G.rule goal.now) word.now seat.old seat.new bench.old bench.new) }
    ensures legs { OnOk result (G.are_legs goal.now bench.new.legs.items) }
    ensures trail { OnOk result (IsOnTrail bench.new) }
{
    for _ in 0..STRETCH {
        if bench.cells.is_empty() {
            return Ok(());
        }
        step(goal, word, seat, bench)?;
    }
    Ok(())
}

/// Puts the oldest cell into the deque, for others to steal, where the worker has more than it
/// keeps. The only error is want of memory.
fn put_oldest(place: &mut Place, bench: &mut Bench) -> Result<(), AllocError>
    ensures on { OnOk result ((rule : Goal) (word : BestWord) (seat : Seat)
        → GoesOn rule word place.old place.new seat seat bench.old bench.new) }
    ensures legs { bench.new.legs.items ≡ bench.old.legs.items }
    ensures trail { OnOk result (IsOnTrail bench.old → IsOnTrail bench.new) }
{
    if bench.cells.len() > KEPT_CELLS {
        let oldest = bench.cells.remove(0);
        match place.hand.put(oldest) {
            Ok(()) => bench.share.closed.last.after.push(oldest)?,
            Err(back) => bench.cells.insert(0, back)?,
        }
    }
    Ok(())
}

/// Goes on until no cell is left but those that were put. The only error is want of memory.
pub(crate) fn finish<G: Goal>(
    goal: &G,
    word: &BestWord,
    place: &mut Place,
    seat: &mut Seat,
    bench: &mut Bench,
) -> Result<(), AllocError>
    requires at_work { IsAtWork (G.rule goal.now) word.now place.old seat.old bench.old }
    requires legs { G.are_legs goal.now bench.old.legs.items }
    requires trail { IsOnTrail bench.old }
    ensures on { OnOk result (GoesOn (G.rule goal.now) word.now
        place.old place.new seat.old seat.new bench.old bench.new) }
    ensures none { OnOk result (bench.new.cells.items ≡ []) }
    ensures legs { OnOk result (G.are_legs goal.now bench.new.legs.items) }
    ensures trail { OnOk result (IsOnTrail bench.new) }
{
    for _ in 0..u64::MAX {
        stretch(goal, word, seat, bench)?;
        bench.seen = word.look(seat);
        if bench.cells.is_empty() {
            return Ok(());
        }
        put_oldest(place, bench)?;
    }
    // No worker makes so many rounds.
    Err(AllocError)
}

/// Begins with a cell that was taken. The only error is want of memory.
pub(crate) fn begin<G: Goal>(
    alloc: Global,
    goal: &G,
    cell: Cell,
    bench: &mut Bench,
) -> Result<(), AllocError>
    requires none { bench.old.cells.items ≡ [] }
    requires trail { IsTrail bench.old.share.closed [] }
    ensures on { OnOk result ((word : BestWord) (place place_after : Place) (seat : Seat)
        → Moves place place_after (cell ∷ []) []
        → GoesOn (G.rule goal.now) word place place_after seat seat bench.old bench.new) }
    ensures legs { bench.new.legs.items ≡ bench.old.legs.items }
    ensures trail { OnOk result (IsOnTrail bench.new) }
{
    let all = whole(goal);
    if covers(&all, &cell) {
        come_to(alloc, &all, &cell, &mut bench.share.closed)?;
        bench.cells.push(cell)?;
    } else {
        bench.share.strange.push(cell)?;
    }
    Ok(())
}
