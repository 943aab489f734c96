ghost use Rattle.std.specs.Prelude.{◌≡◌};
ghost use Rattle.gl_box.specs.Cell.{Covers, spans_of};
ghost use Rattle.gl_near.specs.Pairing.{whole_cell};
ghost use Rattle.gl_near.specs.Pairs.{pairing_of};
ghost use Rattle.gl_near.specs.Certificate.{IsSound, total_of};
ghost use Rattle.gl_near.specs.Code.Search.{IsTested};

use crate::found::{NearBest, NearWhy};
use crate::pairs::Pairs;
use gl_box::Cell;

/// What the tests say of a cell.
#[derive(Clone, Copy, Debug, PartialEq, Eq)]
pub(crate) enum Tested {
    /// Nothing in it has to be looked at any more.
    Closed(NearWhy),
    /// It may hold a pair at this distance, nearer than what was found.
    Open(u64),
}

/// Tests a cell against what was found.
#[inline]
pub(crate) fn test(pairs: &Pairs, cell: &Cell, best: &Option<NearBest>) -> Tested
    requires { Covers (whole_cell (pairing_of pairs.now)) (spans_of cell.now) }
    ensures { IsTested (pairing_of pairs.now) (total_of best.now) (spans_of cell.now) result }
{
    if pairs.is_apart(cell) {
        return Tested::Closed(NearWhy::Time);
    }
    let least = pairs.least(cell);
    if let Some(known) = best
        && known.total <= least
    {
        return Tested::Closed(NearWhy::Near);
    }
    Tested::Open(least)
}

/// Keeps a pair where it fits and is nearer than what was found.
pub(crate) fn consider(pairs: &Pairs, first: u32, second: u32, best: &mut Option<NearBest>)
    requires { IsSound (pairing_of pairs.now) best.old }
    ensures { IsSound (pairing_of pairs.now) best.new }
{
    let Some(total) = pairs.distance(first, second) else {
        return;
    };
    if let Some(known) = best
        && known.total <= total
    {
        return;
    }
    *best = Some(NearBest {
        total,
        first,
        second,
    });
}
