ghost use Rattle.std.specs.Prelude.{◌≡◌, ◌+◌, ◌<◌, ◌^◌, length, map};
ghost use Rattle.gl_deal.specs.Tokens.{end_of};
ghost use Rattle.gl_pool.specs.Code.Settle.{ArePassesOf, Settles, SettlesAll, StandReady, owner_at};

use gl_deal::{Pass, Place};
use std::alloc::Global;
use std::mem;

/// Whose deque the pass at an index of a worker's passes is for: they are for all deques but the
/// worker's own, in their order.
fn owner_of(index: usize, worker: usize) -> usize
    requires { index + 1 < 2 ^ 64 }
    ensures { result ≡ owner_at index worker }
{
    if index < worker { index } else { index + 1 }
}

/// Takes in the passes of a worker, each at the hand of its deque.
fn settle(places: &mut [Place], worker: usize, mut passes: Vec<Pass>)
    requires within { worker < length places.old }
    requires passes { ArePassesOf places.old worker (map end_of passes.items) }
    ensures { Settles places.old places.new worker (map end_of passes.items) }
{
    'passes: while let Some(pass) = passes.pop() {
        let owner = owner_of(passes.len(), worker);
        places[owner].hand.settle(pass);
    }
}

/// Takes in all passes, each at the hand of its deque: each hand has then gathered what the others
/// took of its cells.
pub(crate) fn settle_all(alloc: Global, places: &mut [Place])
    requires { StandReady places.old }
    ensures { SettlesAll places.old places.new }
{
    for worker in 0..places.len() {
        let passes = mem::replace(&mut places[worker].passes, Vec::new(alloc));
        settle(places, worker, passes);
    }
}
