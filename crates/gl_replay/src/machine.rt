ghost use Rattle.std.specs.Prelude.{◌≡◌, ◌≤◌, IfOk, OnOk};
ghost use Rattle.gl_replay.specs.Machine.{Acts, Closes, Keeps, Looks, Moves, Runs, Splits, Steals, Takes, Tries, start};
ghost use Rattle.gl_replay.specs.Safe.{IsSafe};
ghost use Rattle.gl_replay.specs.Code.Workers.{AreCovered, Raises, state_of, workers_of};

use crate::schedule::Step;
use crate::worker::{Worker, greater};
use gl_goal::{Goal, whole};
use std::alloc::{AllocError, Global};

/// Workers that search together, one step at a time.
#[derive(Drop)]
pub(crate) struct Machine {
    pub(crate) workers: Vec<Worker>,
    /// The best word, which every worker can see: the greatest total that one raised.
    pub(crate) word: Option<u64>,
}

/// The worker of a number takes a cell.
fn take(workers: &mut [Worker], number: u32)
    ensures { Tries (Acts Takes number) (workers_of workers.old) (workers_of workers.new) }
{
    let place = number as usize;
    if place < workers.len() {
        workers[place].take();
    }
}

/// The worker of a number steals a cell from another one.
fn steal(workers: &mut [Worker], number: u32, other: u32)
    ensures { Tries (Steals number other) (workers_of workers.old) (workers_of workers.new) }
{
    let (place, from) = (number as usize, other as usize);
    if place == from || place.max(from) >= workers.len() {
        return;
    }
    if workers[place].hand.is_some() {
        return;
    }
    let stolen = workers[from].give();
    workers[place].hand = stolen;
}

/// The worker of a number cuts its cell. The only error is want of memory.
fn split(workers: &mut [Worker], number: u32) -> Result<(), AllocError>
    ensures { OnOk result
        (Tries (Acts Splits number) (workers_of workers.old) (workers_of workers.new)) }
{
    let place = number as usize;
    if place < workers.len() {
        workers[place].split()?;
    }
    Ok(())
}

/// The worker of a number closes its cell. The only error is want of memory.
fn close<G: Goal>(goal: &G, workers: &mut [Worker], number: u32) -> Result<(), AllocError>
    requires { AreCovered (G.rule goal.now) workers.old }
    ensures { OnOk result (Tries (Acts (Closes (G.rule goal.now)) number)
        (workers_of workers.old) (workers_of workers.new)) }
{
    let place = number as usize;
    if place < workers.len() {
        workers[place].close(goal)?;
    }
    Ok(())
}

/// The worker of a number sees the best word.
fn look(workers: &mut [Worker], number: u32, word: Option<u64>)
    ensures { Tries (Acts (Looks word) number) (workers_of workers.old) (workers_of workers.new) }
{
    let place = number as usize;
    if place < workers.len() {
        workers[place].look(word);
    }
}

/// The worker of a number keeps its tuple, and answers what that is worth.
fn keep<G: Goal>(goal: &G, workers: &mut [Worker], number: u32) -> Option<u64>
    requires { AreCovered (G.rule goal.now) workers.old }
    ensures { Raises (λ total. Acts (Keeps (G.rule goal.now) total) number)
        (workers_of workers.old) (workers_of workers.new) result }
{
    let place = number as usize;
    if place >= workers.len() {
        return None;
    }
    workers[place].keep(goal)
}

impl Machine {
    /// So many workers, the first of which has the whole cell of a goal in its deque. The only error
    /// is want of memory.
    pub(crate) fn new<G: Goal>(alloc: Global, goal: &G, workers: u32) -> Result<Machine, AllocError>
        requires { 1 ≤ workers }
        ensures { IfOk result (λ machine. state_of machine ≡ start (G.rule goal.now) workers) }
    {
        let mut first = Worker::new(alloc);
        first.deque.push_back(whole(goal))?;
        let mut list = Vec::new(alloc);
        list.push(first)?;
        for number in 1..workers {
            let worker = Worker::new(alloc);
            list.push(worker)?;
        }
        Ok(Machine {
            workers: list,
            word: None,
        })
    }

    /// Makes a step, where it can be made. The only error is want of memory.
    pub(crate) fn make<G: Goal>(&mut self, goal: &G, step: Step) -> Result<(), AllocError>
        requires { IsSafe (G.rule goal.now) (state_of self.old) }
        ensures { OnOk result
            (Moves (G.rule goal.now) step (state_of self.old) (state_of self.new)) }
    {
        match step {
            Step::Take(worker) => take(&mut self.workers, worker),
            Step::Steal(worker, victim) => steal(&mut self.workers, worker, victim),
            Step::Split(worker) => split(&mut self.workers, worker)?,
            Step::Close(worker) => close(goal, &mut self.workers, worker)?,
            Step::Look(worker) => look(&mut self.workers, worker, self.word),
            Step::Raise(worker) => {
                if let Some(total) = keep(goal, &mut self.workers, worker) {
                    self.word = greater(self.word, total);
                }
            }
        }
        Ok(())
    }
    /// Makes steps, one after another. The only error is want of memory.
    pub(crate) fn run<G: Goal>(&mut self, goal: &G, steps: &[Step]) -> Result<(), AllocError>
        requires { IsSafe (G.rule goal.now) (state_of self.old) }
        ensures { OnOk result
            (Runs (G.rule goal.now) (state_of self.old) steps.now (state_of self.new)) }
    {
        for step in steps {
            self.make(goal, *step)?;
        }
        Ok(())
    }
}
