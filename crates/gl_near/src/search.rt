ghost use Rattle.std.specs.Prelude.{◌<◌, ◌↔◌, ℕ, [], All, IfOk, IsNone, OnOk, map, vec_len};
ghost use Rattle.gl_box.specs.Along.{Advances};
ghost use Rattle.gl_box.specs.Cell.{Covers, spans_of};
ghost use Rattle.gl_near.specs.Pairing.{Fits, IsApart, IsLeast, whole_cell};
ghost use Rattle.gl_near.specs.Pairs.{pairing_of};
ghost use Rattle.gl_near.specs.Certificate.{IsClosedFor, IsSound, total_of};
ghost use Rattle.gl_near.specs.Code.Search.{IsNoMore, IsUnderWay};
ghost use Rattle.gl_near.specs.Line.{AreTwoSpans};
ghost use Rattle.gl_near.specs.Search.{IsCertified, boxes_of, near_reason_of};

use crate::found::{NearBest, NearFound, NearWhy};
use crate::pairs::Pairs;
use crate::turn::NearTurn;
use crate::verdict::{Tested, test};
use crate::warm::warm_start;
use gl_box::{Cell, OPEN_ROOM, Turn, Walk, settle};
use std::alloc::{AllocError, Global};

/// Room for turns at the start.
const TURNS_ROOM: usize = 8_192;

/// One step of the search at the first open cell, the last of the list: it is closed, or gives way
/// to its halves. The only error is want of memory.
#[inline]
fn advance(
    pairs: &Pairs,
    best: &mut Option<NearBest>,
    cells: &mut Vec<Cell>,
    turns: &mut Vec<NearTurn>,
) -> Result<(), AllocError>
    requires some { 0 < vec_len cells.old }
    requires covers { All (λ cell. Covers (whole_cell (pairing_of pairs.now)) (spans_of cell))
        cells.old.items }
    requires sound { IsSound (pairing_of pairs.now) best.old }
    ensures step { OnOk result (Advances
        (IsClosedFor (pairing_of pairs.now) (total_of best.new))
        (λ cell. ¬ IsApart (pairing_of pairs.now) cell) cells.old.items cells.new.items
        (map near_reason_of turns.old.items) (map near_reason_of turns.new.items)) }
    ensures sound { OnOk result (IsSound (pairing_of pairs.now) best.new) }
    ensures falls { OnOk result (IsNoMore (total_of best.old) (total_of best.new)) }
{
    let top = cells.len() - 1;
    match test(pairs, &cells[top], best) {
        Tested::Closed(why) => {
            settle(cells, turns, Some(why))?;
        }
        Tested::Open(least) => {
            if let Some(single) = settle(cells, turns, None)? {
                *best = Some(NearBest {
                    total: least,
                    first: single.spans[0].lo,
                    second: single.spans[1].lo,
                });
                turns.push(NearTurn::close(NearWhy::Near))?;
            }
        }
    }
    Ok(())
}

/// Goes on until no cell is open. The only error is want of memory.
fn run(
    pairs: &Pairs,
    best: &mut Option<NearBest>,
    cells: &mut Vec<Cell>,
    turns: &mut Vec<NearTurn>,
) -> Result<(), AllocError>
    requires { IsUnderWay (pairing_of pairs.now) best.old cells.old.items
        (map near_reason_of turns.old.items) }
    ensures { OnOk result (IsUnderWay (pairing_of pairs.now) best.new []
        (map near_reason_of turns.new.items)) }
{
    while !cells.is_empty() {
        advance(pairs, best, cells, turns)?;
    }
    Ok(())
}

/// The least distance of a pair that fits, and boxes that certify it: in the order of the split
/// tree they are a frontier of the whole cell, and each is closed by its reason. `best` is `None`
/// exactly where no pair fits. The only error is want of memory.
pub fn search_near(alloc: Global, p: &Pairs) -> Result<NearFound, AllocError>
    ensures certificate { IfOk result (IsCertified (pairing_of p.now)) }
    ensures axes { IfOk result (λ found. All (λ box. AreTwoSpans box.0) (boxes_of found)) }
    ensures least { IfOk result (λ found. IsLeast (pairing_of p.now) (total_of found.best)) }
    ensures none { IfOk result (λ found. IsNone found.best
        ↔ ((first second : ℕ) → Fits (pairing_of p.now) first second → ⊥)) }
{
    let mut best = warm_start(alloc, p)?;
    let mut cells = Vec::with_capacity(alloc, OPEN_ROOM)?;
    cells.push(p.whole())?;
    let mut turns = Vec::with_capacity(alloc, TURNS_ROOM)?;
    run(p, &mut best, &mut cells, &mut turns)?;
    cells.clear();
    cells.push(p.whole())?;
    let closed = Walk {
        opened: cells,
        turns,
    };
    Ok(NearFound { best, closed })
}
