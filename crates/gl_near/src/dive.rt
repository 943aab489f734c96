ghost use Rattle.std.specs.Prelude.{◌≡◌, ◌++◌, ◌<◌, ◌↔◌, All, IfSome, IsTrue, OnOk};
ghost use Rattle.std.specs.Option.{option_to_list};
ghost use Rattle.gl_box.specs.Cell.{Covers, spans_of};
ghost use Rattle.gl_near.specs.Pairing.{whole_cell};
ghost use Rattle.gl_near.specs.Pairs.{pairing_of};
ghost use Rattle.gl_near.specs.Certificate.{IsSound};
ghost use Rattle.gl_near.specs.Code.Search.{AreWithin};

use crate::found::NearBest;
use crate::pairs::Pairs;
use crate::verdict::{Tested, consider, test};
use gl_box::{Cell, split};
use std::alloc::AllocError;

/// A cell that may hold a pair as near as its hulls.
#[derive(Clone, Copy)]
pub(crate) struct Candidate {
    pub(crate) cell: Cell,
    pub(crate) least: u64,
}

/// The cell with the distance of its hulls, where it may hold a nearer pair than what was found.
fn tested(pairs: &Pairs, cell: &Cell, best: &Option<NearBest>) -> Option<Candidate>
    requires { Covers (whole_cell (pairing_of pairs.now)) (spans_of cell.now) }
    ensures { IfSome result (λ it. it.cell ≡ cell.now) }
{
    match test(pairs, cell, best) {
        Tested::Open(least) => Some(Candidate { cell: *cell, least }),
        Tested::Closed(_) => None,
    }
}

/// Puts a candidate, if there is one, on top. The only error is want of memory.
fn push_some(
    candidates: &mut Vec<Candidate>,
    candidate: Option<Candidate>,
) -> Result<(), AllocError>
    ensures { OnOk result
        (candidates.new.items ≡ candidates.old.items ++ option_to_list candidate) }
{
    if let Some(candidate) = candidate {
        candidates.push(candidate)?;
    }
    Ok(())
}

/// Puts two candidates, each if there is one, on top, the second one last. The only error is want of
/// memory.
fn push_both(
    candidates: &mut Vec<Candidate>,
    first: Option<Candidate>,
    second: Option<Candidate>,
) -> Result<(), AllocError>
    ensures { OnOk result (candidates.new.items
        ≡ (candidates.old.items ++ option_to_list first) ++ option_to_list second) }
{
    push_some(candidates, first)?;
    push_some(candidates, second)
}

/// Whether one candidate is nearer than the other. None is farthest.
fn is_nearer(one: &Option<Candidate>, other: &Option<Candidate>) -> bool {
    match (one, other) {
        (Some(one), Some(other)) => one.least < other.least,
        (Some(_), None) => true,
        (None, _) => false,
    }
}

/// Puts the halves of a cell that may hold a nearer pair on top, the nearer one last. A cell of a
/// single pair is considered. The only error is want of memory.
fn look(
    pairs: &Pairs,
    cell: &Cell,
    best: &mut Option<NearBest>,
    candidates: &mut Vec<Candidate>,
) -> Result<(), AllocError>
    requires covers { Covers (whole_cell (pairing_of pairs.now)) (spans_of cell.now) }
    requires sound { IsSound (pairing_of pairs.now) best.old }
    requires within { AreWithin (pairing_of pairs.now) candidates.old.items }
    ensures sound { IsSound (pairing_of pairs.now) best.new }
    ensures within { OnOk result (AreWithin (pairing_of pairs.now) candidates.new.items) }
{
    let Some((lower, upper)) = split(cell) else {
        consider(pairs, cell.spans[0].lo, cell.spans[1].lo, best);
        return Ok(());
    };
    let low = tested(pairs, &lower, best);
    let high = tested(pairs, &upper, best);
    if is_nearer(&low, &high) {
        return push_both(candidates, high, low);
    }
    push_both(candidates, low, high)
}

/// Searches a cell depth first for nearer pairs, the nearer half first, and stops after so many
/// looks, each of which tests two cells. `candidates` is room to work in. The only error is want of
/// memory.
pub(crate) fn dive(
    pairs: &Pairs,
    cell: &Cell,
    looks: u32,
    best: &mut Option<NearBest>,
    candidates: &mut Vec<Candidate>,
) -> Result<(), AllocError>
    requires covers { Covers (whole_cell (pairing_of pairs.now)) (spans_of cell.now) }
    requires sound { IsSound (pairing_of pairs.now) best.old }
    ensures sound { IsSound (pairing_of pairs.now) best.new }
{
    candidates.clear();
    push_some(candidates, tested(pairs, cell, best))?;
    for _ in 0..looks {
        let Some(top) = candidates.pop() else {
            return Ok(());
        };
        if best.is_none_or(|known| top.least < known.total) {
            look(pairs, &top.cell, best, candidates)?;
        }
    }
    Ok(())
}
