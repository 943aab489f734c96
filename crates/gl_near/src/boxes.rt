ghost use Rattle.std.specs.Prelude.{◌≡◌, [], map, IfOk, ⊤};
ghost use Rattle.gl_near.specs.Pairing.{whole_cell};
ghost use Rattle.gl_near.specs.Pairs.{pairing_of};
ghost use Rattle.gl_near.specs.Certificate.{box_of};
ghost use Rattle.gl_near.specs.Testing.{HasTaken};
ghost use Rattle.gl_near.specs.Verdict.{AreSaid, IsBoxClosed};

use crate::found::{NearBest, NearClosed, NearWhy};
use crate::pairs::Pairs;
use gl_box::{BoxCheck, BoxTest, Cell, Said};
use std::alloc::{AllocError, Global};

/// The test of boxes of pairs: whether each is closed for what was found by its reason.
#[derive(Drop)]
pub struct PairTest<'a> {
    pub pairs: &'a Pairs,
    pub best: Option<NearBest>,
}

impl<'a> BoxTest for PairTest<'a> {
    type Why = NearWhy;

    type Room = ();

    ghost whole = { λ test. whole_cell (pairing_of test.pairs.now) };

    ghost closes = { λ test. IsBoxClosed (pairing_of test.pairs.now) test.best };

    ghost is_room = { λ test room. ⊤ };

    fn is_closed(&self, _room: &mut (), cell: &Cell, why: NearWhy) -> bool {
        match why {
            NearWhy::Time => self.pairs.is_apart(cell),
            NearWhy::Near => match self.best {
                None => false,
                Some(best) => best.total <= self.pairs.least(cell),
            },
        }
    }
}

/// A check of boxes of pairs, as they come, of which it has seen none yet. The only error is want of
/// memory.
pub fn begin_near_check(
    alloc: Global,
    pairs: &Pairs,
    best: Option<NearBest>,
) -> Result<BoxCheck<PairTest<'_>, ()>, AllocError>
    ensures begins { IfOk result (HasTaken []) }
    ensures test { IfOk result (λ check.
        (check.test.pairs.now ≡ pairs.now) × (check.test.best ≡ best)) }
{
    BoxCheck::new(alloc, PairTest { pairs, best }, (), pairs.whole())
}

/// What is said of the boxes of a claim. The only error is want of memory.
pub(crate) fn said_of(
    alloc: Global,
    pairs: &Pairs,
    best: Option<NearBest>,
    cells: &[NearClosed],
) -> Result<Said, AllocError>
    ensures { IfOk result (AreSaid (pairing_of pairs.now) best (map box_of cells.now)) }
{
    let mut check = begin_near_check(alloc, pairs, best)?;
    for next in cells {
        check.take(&next.cell, next.why)?;
    }
    Ok(check.said())
}
