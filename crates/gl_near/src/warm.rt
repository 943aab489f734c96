ghost use Rattle.std.specs.Prelude.{◌<◌, length, IfOk};
ghost use Rattle.gl_near.specs.Pairs.{pairing_of};
ghost use Rattle.gl_near.specs.Certificate.{IsSound};

use crate::climb::climb;
use crate::dive::dive;
use crate::found::NearBest;
use crate::pairs::{Pairs, TwoFlights};
use crate::verdict::consider;
use std::alloc::{AllocError, Global};

/// Room for the cells of a dive.
const CANDIDATE_ROOM: usize = 128;

/// How many looks the dive into the whole cell takes at most.
const WHOLE_LOOKS: u32 = 20_000;

impl TwoFlights {
    /// The first fix of the other flight, from a number on, that isn't earlier than a fix of the
    /// first flight, or else the last one.
    fn not_before(&self, first: u32, from: u32) -> u32
        requires { first < length self.now.one }
        ensures { result < length self.now.other }
    {
        let second = self.one.fix(first).second;
        let count = self.other.len() as u32;
        for number in from..count {
            if self.other.fix(number).second >= second {
                return number;
            }
        }
        count - 1
    }
}

/// Keeps the nearest of the pairs that follow each other in time: of each fix of the first flight
/// with the fixes of the other just before and after it.
fn pair_by_time(pairs: &Pairs, two: &TwoFlights, best: &mut Option<NearBest>)
    requires { IsSound (pairing_of pairs.now) best.old }
    ensures { IsSound (pairing_of pairs.now) best.new }
{
    let mut number = 0;
    for first in 0..two.one.len() as u32 {
        number = two.not_before(first, number);
        consider(pairs, first, number, best);
        if number > 0 {
            consider(pairs, first, number - 1, best);
        }
    }
}

/// A pair that fits and its distance, a near one if there is one to be found soon, or none. The
/// only error is want of memory.
pub(crate) fn warm_start(alloc: Global, pairs: &Pairs) -> Result<Option<NearBest>, AllocError>
    ensures { IfOk result (IsSound (pairing_of pairs.now)) }
{
    let mut best = None;
    if let Pairs::Two(two) = pairs {
        pair_by_time(pairs, two, &mut best);
    }
    let mut candidates = Vec::with_capacity(alloc, CANDIDATE_ROOM)?;
    climb(pairs, &mut best, &mut candidates)?;
    dive(
        pairs,
        &pairs.whole(),
        WHOLE_LOOKS,
        &mut best,
        &mut candidates,
    )?;
    climb(pairs, &mut best, &mut candidates)?;
    Ok(best)
}
