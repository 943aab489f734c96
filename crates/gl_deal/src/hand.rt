ghost use Rattle.std.specs.Prelude.{◌≡◌, true};
ghost use Rattle.crossbeam_deque.specs.Handles.{worker_view};
ghost use Rattle.gl_deal.specs.Views.{is_hand};

use crate::pass::Pass;
use crate::rule::{Dealing, Earlier, Later, Puts, Settles, Takes};
use crate::view::View;
use crossbeam_deque::Worker;
use gl_box::Cell;
use std::alloc::{AllocError, Global};

/// Room for cells at the start: a worker who cuts a cell puts one half of it, and a cell can be cut
/// at most 32 times on each axis.
const ROOM: usize = 512;

/// A worker's end of its own deque: it puts cells there, and takes the newest one first.
#[derive(Drop)]
pub struct Hand {
    worker: Worker<Cell, Global, View, Dealing>,
    ghost of_hand: { is_hand (worker_view worker) ≡ true },
}

impl Hand {
    ghost use Rattle.std.specs.Prelude.{◌≡◌, ◌≢◌, ◌+◌, [], ◌∷◌, IfNone, IfOk, OnOk, MatchOption, MatchResult};
    ghost use Rattle.gl_deal.specs.Views.{new_hand, new_pass, with_put, with_settled, with_taken};
    ghost use Rattle.gl_deal.specs.Code.Deal.{partly_dealt};
    ghost use Rattle.gl_deal.specs.Tokens.{end_of, hand_deque, hand_view, pass_deque, pass_view};
    ghost use Rattle.gl_deal.specs.Rule.{HasSettledAll, TookAllItPut};

    /// The hand of a worker who is alone. The only error is want of memory.
    pub(crate) fn alone(alloc: Global) -> Result<Hand, AllocError>
        ensures { IfOk result (λ hand. hand_view hand ≡ new_hand 0 1) }
    {
        let worker = Worker::lifo_as(alloc, ROOM)?;
        Ok(Hand { worker })
    }

    /// A pass to this hand's deque for the next worker, who isn't the owner. The only error is want
    /// of memory.
    pub(crate) fn serve(&mut self, owner: usize, worker: usize) -> Result<Pass, AllocError>
        requires partly { hand_view self.old ≡ partly_dealt worker owner }
        requires other { worker ≢ owner }
        ensures deque { hand_deque self.new ≡ hand_deque self.old }
        ensures hand { OnOk result (hand_view self.new ≡ partly_dealt (worker + 1) owner) }
        ensures pass { IfOk result
            (λ pass. end_of pass ≡ (hand_deque self.old, new_pass (worker ∷ []))) }
    {
        let stealer = self.worker.stealer()?;
        let token = if worker < owner {
            self.worker.another::<Earlier>()
        } else {
            self.worker.another::<Later>()
        };
        Ok(Pass::new(stealer, token))
    }

    /// Puts a cell into the deque. It comes back where the deque can't grow.
    #[inline]
    pub fn put(&mut self, cell: Cell) -> Result<(), Cell>
        ensures deque { hand_deque self.new ≡ hand_deque self.old }
        ensures view { MatchResult result
            (λ _. hand_view self.new ≡ with_put (hand_view self.old) (cell ∷ []))
            (λ back. (back ≡ cell) × (hand_view self.new ≡ hand_view self.old)) }
    {
        self.worker.push_as::<Puts>(cell)
    }

    /// Takes the newest cell. `None` where the deque was empty at that step: once the passes of all
    /// workers but the owner are settled, the hand then took or gathered each cell as often as it
    /// put it.
    #[inline]
    pub fn take(&mut self) -> Option<Cell>
        ensures deque { hand_deque self.new ≡ hand_deque self.old }
        ensures view { MatchOption result
            (hand_view self.new ≡ hand_view self.old)
            (λ cell. hand_view self.new ≡ with_taken (hand_view self.old) (cell ∷ [])) }
        ensures all { IfNone result
            (HasSettledAll (hand_view self.new) → TookAllItPut (hand_view self.new)) }
    {
        self.worker.pop_as::<Takes>()
    }

    /// Takes in a pass to this hand's deque: the cells that the pass took are gathered, and the
    /// workers that it served are settled.
    pub fn settle(&mut self, pass: Pass)
        requires { pass_deque pass ≡ hand_deque self.old }
        ensures deque { hand_deque self.new ≡ hand_deque self.old }
        ensures view { hand_view self.new ≡ with_settled (hand_view self.old) (pass_view pass) }
    {
        self.worker.absorb::<Settles>(pass.into_token());
    }
}
