ghost use Rattle.std.specs.Prelude.{◌≡◌, ◌≤◌, ◌↔◌, ◌++◌, All, Contains, IfOk, IfSome, IsNone, OnOk, Some, length, map};
ghost use Rattle.std.specs.List.{flat_map};
ghost use Rattle.gl_goal.specs.Goal.{HasNoLegal, IsOptimum};
ghost use Rattle.gl_plain.specs.Found.{HoldsEachOnce, IsCertified};
ghost use Rattle.gl_plain.specs.declared.part.Part.TheVariants.{Done, Open};
ghost use Rattle.gl_replay.specs.Code.Parts.{done_in, parts_left};
ghost use Rattle.gl_replay.specs.Code.Workers.{IsLeft};
ghost use Rattle.gl_replay.specs.Replayed.{IsReplay};
ghost use Rattle.gl_goal.specs.Best.{IsNoLess, IsSound, total_of};

use crate::machine::Machine;
use crate::schedule::Step;
use crate::worker::Worker;
use gl_box::{Cell, Closed};
use gl_goal::{Best, Goal, better, whole};
use gl_order::sorted;
use gl_plain::{Found, Part, finish};
use std::alloc::{AllocError, Global};

/// What a search by a written order of steps answers.
#[derive(Debug, Drop)]
pub struct Replayed {
    /// The optimum, and the boxes that show it.
    pub found: Found,
    /// How many of the boxes the written steps closed.
    pub by_steps: u32,
}

/// What workers left after their steps.
#[derive(Drop)]
struct Left {
    /// The best legal tuple that one of them kept.
    known: Option<Best>,
    /// Their open cells, and those that they closed.
    parts: Vec<Part>,
    /// The workers themselves. They are kept until the boxes are found: memory that they gave back
    /// would be used for these, and each time their list grows it would be copied there.
    machine: Machine,
}

/// The best of the tuples that workers kept.
fn best_kept(workers: &[Worker]) -> Option<Best>
    ensures kept { IfSome result
        (λ best. Contains (map (λ worker. worker.kept) workers.now) (Some best)) }
    ensures no_less { All (λ worker. IsNoLess (total_of worker.kept) (total_of result))
        workers.now }
{
    let mut best = None;
    for worker in workers {
        best = better(best, worker.kept);
    }
    best
}

/// Appends open cells. The only error is want of memory.
fn push_open(parts: &mut Vec<Part>, cells: &[Cell]) -> Result<(), AllocError>
    ensures { OnOk result (parts.new.items ≡ parts.old.items ++ map Open cells.now) }
{
    for cell in cells {
        parts.push(Part::Open(*cell))?;
    }
    Ok(())
}

/// Appends closed cells. The only error is want of memory.
fn push_done(parts: &mut Vec<Part>, boxes: &[Closed]) -> Result<(), AllocError>
    ensures { OnOk result (parts.new.items ≡ parts.old.items ++ map Done boxes.now) }
{
    for closed in boxes {
        parts.push(Part::Done(*closed))?;
    }
    Ok(())
}

/// Appends the cells of a worker. The only error is want of memory.
fn push_parts(parts: &mut Vec<Part>, worker: &Worker) -> Result<(), AllocError>
    ensures { OnOk result (parts.new.items ≡ parts.old.items ++ parts_left worker.now) }
{
    push_done(parts, worker.closed.as_slice())?;
    let (front, back) = worker.deque.as_slices();
    push_open(parts, front)?;
    push_open(parts, back)?;
    if let Some(cell) = worker.hand {
        parts.push(Part::Open(cell))?;
    }
    Ok(())
}

/// The cells of workers, open and closed. The only error is want of memory.
fn parts_of(alloc: Global, workers: &[Worker]) -> Result<Vec<Part>, AllocError>
    ensures { IfOk result (λ parts. parts.items ≡ flat_map parts_left workers.now) }
{
    let mut parts = Vec::new(alloc);
    for worker in workers {
        push_parts(&mut parts, worker)?;
    }
    Ok(parts)
}

/// How many parts the steps closed.
fn count_done(parts: &[Part]) -> usize
    ensures { result ≡ length (done_in parts.now) }
{
    let mut count = 0;
    for part in parts {
        if let Part::Done(_) = part {
            count += 1;
        }
    }
    count
}

/// Lets so many workers make the steps. The only error is want of memory.
fn work<G: Goal>(alloc: Global, goal: &G, workers: u32, steps: &[Step]) -> Result<Left, AllocError>
    requires { 1 ≤ workers }
    ensures { IfOk result (IsLeft (G.rule goal.now) workers steps.now) }
{
    let mut machine = Machine::new(alloc, goal, workers)?;
    machine.run(goal, steps)?;
    let workers = machine.workers.as_slice();
    let known = best_kept(workers);
    let parts = parts_of(alloc, workers)?;
    Ok(Left {
        known,
        parts,
        machine,
    })
}

/// The optimum of a goal, and boxes that certify it, by a written order of steps: so many workers
/// make the steps one after another, as docs/schedules.md has it, and worker 0 searches what they
/// left open. Whatever the order, no choice is lost, and no cell is closed wrongly. The only error
/// is want of memory.
///
/// What the workers left is put into the order of the split tree before any of it is searched, so
/// that the boxes come out in order, and their list is never sorted.
pub fn replay<G: Goal>(
    alloc: Global,
    goal: &G,
    workers: u32,
    steps: &[Step],
) -> Result<Replayed, AllocError>
    requires some { 1 ≤ workers }
    requires most { workers ≤ 16 }
    requires few { length steps.now ≤ 1_000_000 }
    ensures certificate { IfOk result (λ replayed. IsCertified (G.rule goal.now) replayed.found) }
    ensures once { IfOk result (λ replayed. HoldsEachOnce (G.rule goal.now) replayed.found) }
    ensures reached { IfOk result (λ replayed. IsSound (G.rule goal.now) replayed.found.best) }
    ensures optimum { IfOk result
        (λ replayed. IsOptimum (G.rule goal.now) (total_of replayed.found.best)) }
    ensures none { IfOk result
        (λ replayed. IsNone replayed.found.best ↔ HasNoLegal (G.rule goal.now)) }
    ensures steps { IfOk result (IsReplay (G.rule goal.now) workers steps.now) }
{
    let Left {
        known,
        parts,
        machine: _kept,
    } = work(alloc, goal, workers, steps)?;
    let by_steps = count_done(&parts) as u32;
    let parts = sorted(alloc, &whole(goal), parts)?;
    let found = finish(alloc, goal, known, &parts)?;
    Ok(Replayed { found, by_steps })
}
