ghost use Rattle.std.specs.Prelude.{◌≡◌, ◌++◌, [], IfNone, IfOk, IfSome, MatchOption, OnOk};
ghost use Rattle.std.specs.Option.{option_to_list};
ghost use Rattle.gl_box.specs.declared.closed.Why.{Why};
ghost use Rattle.gl_box.specs.Cell.{Covers, spans_of};
ghost use Rattle.gl_goal.specs.Goal.{whole_cell};
ghost use Rattle.gl_replay.specs.Machine.{Closes, IsFirstReason, Keeps, Looks, Splits, Takes, Tries, greater, idle};
ghost use Rattle.gl_replay.specs.Code.Workers.{Raises, worker_of};

use gl_box::{Cell, Closed, Why, halve, split};
use gl_goal::{Best, Goal, beats};
use std::alloc::{AllocError, Global};
use std::collections::VecDeque;

/// One of several workers that search together.
#[derive(Drop)]
pub(crate) struct Worker {
    /// Its open cells. It takes the last one, and others steal the first one.
    pub(crate) deque: VecDeque<Cell>,
    /// The open cell that it works on.
    pub(crate) hand: Option<Cell>,
    /// The cells that it closed.
    pub(crate) closed: Vec<Closed>,
    /// The best total that it has seen.
    pub(crate) seen: Option<u64>,
    /// The best legal tuple that it raised.
    pub(crate) kept: Option<Best>,
}

/// The greater one of a total that was found, if any, and another.
pub(crate) fn greater(found: Option<u64>, total: u64) -> Option<u64>
    ensures { result ≡ greater found total }
{
    match found {
        Some(found) => Some(found.max(total)),
        None => Some(total),
    }
}

/// The first reason by which a cell is closed for a total, if there is a total.
fn reason<G: Goal>(goal: &G, cell: &Cell, total: Option<u64>) -> Option<Why>
    requires { Covers (whole_cell (G.rule goal.now).axes) (spans_of cell.now) }
    ensures { MatchOption result
        ((why : Why) → IsFirstReason (G.rule goal.now) total (spans_of cell.now) why → ⊥)
        (IsFirstReason (G.rule goal.now) total (spans_of cell.now)) }
{
    if goal.disordered(cell) {
        return Some(Why::Disordered);
    }
    if goal.shut(cell) {
        return Some(Why::Shut);
    }
    match total {
        Some(total) if goal.bound(cell) <= total => Some(Why::Bound),
        _ => None,
    }
}

impl Worker {
    /// A worker that has nothing.
    pub(crate) fn new(alloc: Global) -> Worker
        ensures { worker_of result ≡ idle }
    {
        Worker {
            deque: VecDeque::new(alloc),
            hand: None,
            closed: Vec::new(alloc),
            seen: None,
            kept: None,
        }
    }

    /// Takes the last cell of the deque into the empty hand.
    pub(crate) fn take(&mut self)
        ensures { Tries Takes (worker_of self.old) (worker_of self.new) }
    {
        if self.hand.is_none() {
            self.hand = self.deque.pop_back();
        }
    }

    /// Hands out the first cell of the deque, if there is one.
    pub(crate) fn give(&mut self) -> Option<Cell>
        ensures given { self.old.deque.items ≡ option_to_list result ++ self.new.deque.items }
        ensures none { IfNone result (self.old.deque.items ≡ []) }
        ensures others { self.new ≡ record self.old { deque = self.new.deque } }
    {
        self.deque.pop_front()
    }

    /// Cuts the cell in the hand. The only error is want of memory.
    pub(crate) fn split(&mut self) -> Result<(), AllocError>
        ensures { OnOk result (Tries Splits (worker_of self.old) (worker_of self.new)) }
    {
        let Some(cell) = &mut self.hand else {
            return Ok(());
        };
        if let Some(lower) = halve(cell) {
            self.deque.push_back(*cell)?;
            *cell = lower;
        }
        Ok(())
    }

    /// Closes the cell in the hand, where there is a reason. The only error is want of memory.
    pub(crate) fn close<G: Goal>(&mut self, goal: &G) -> Result<(), AllocError>
        requires { IfSome self.old.hand
            (λ cell. Covers (whole_cell (G.rule goal.now).axes) (spans_of cell)) }
        ensures { OnOk result
            (Tries (Closes (G.rule goal.now)) (worker_of self.old) (worker_of self.new)) }
    {
        let Some(cell) = self.hand else {
            return Ok(());
        };
        if let Some(why) = reason(goal, &cell, self.seen) {
            self.closed.push(Closed { cell, why })?;
            self.hand = None;
        }
        Ok(())
    }

    /// Sees the best word.
    pub(crate) fn look(&mut self, word: Option<u64>)
        ensures { Looks word (worker_of self.old) (worker_of self.new) }
    {
        self.seen = word;
    }

    /// Keeps the legal tuple in the hand, where that is worth more than what was kept, and answers
    /// what it is worth.
    pub(crate) fn keep<G: Goal>(&mut self, goal: &G) -> Option<u64>
        requires { IfSome self.old.hand
            (λ cell. Covers (whole_cell (G.rule goal.now).axes) (spans_of cell)) }
        ensures { Raises (Keeps (G.rule goal.now)) (worker_of self.old) (worker_of self.new)
            result }
    {
        let cell = self.hand?;
        if split(&cell).is_some() {
            return None;
        }
        let tuple = cell.lowest();
        if !goal.legal(&tuple) {
            return None;
        }
        let total = goal.value(&tuple);
        if !beats(total, &self.kept) {
            return None;
        }
        self.kept = Some(Best { total, tuple });
        self.seen = greater(self.seen, total);
        Some(total)
    }
}
