ghost use Rattle.std.specs.Prelude.{◌≡◌, ◌≢◌, ◌⊎◌, ◌^◌, ◌++◌, ◌∷◌, ◌<◌, ℕ, List, IfOk, IfErr, IsErrOf, MatchOption, MatchResult};
ghost use Rattle.std.specs.Fmt.{decimal};
ghost use Rattle.gl_replay.specs.declared.error.StepError.{StepError};
ghost use Rattle.gl_replay.specs.declared.error.StepError.TheVariants.{Memory};
ghost use Rattle.gl_replay.specs.declared.schedule.Step.{Step};
ghost use Rattle.gl_replay.specs.Code.Schedule.{IsLineOf};
ghost use Rattle.gl_replay.specs.Schedule.{IsRefused, IsSchedule, ReadsNot};

use crate::error::StepError;
use gl_text::{next_line, part_at_space, read_u64};
use std::alloc::Global;

/// The most steps of a schedule.
const MOST_STEPS: usize = 1_000_000;

/// A step of one worker of a search: what it does next with its deque, with the cell in its hand or
/// with the best word. Workers count from 0.
#[derive(Clone, Copy, Debug, PartialEq, Eq)]
pub enum Step {
    /// The worker takes the last cell of its own deque into its empty hand.
    Take(u32),
    /// The worker takes the first cell of the other worker's deque into its empty hand.
    Steal(u32, u32),
    /// The cell in the hand is cut: the lower half stays, the upper half goes to the end of the own
    /// deque.
    Split(u32),
    /// The cell in the hand is closed, where it is disordered or shut or its bound is at most the
    /// best that the worker has seen.
    Close(u32),
    /// The worker sees the best word.
    Look(u32),
    /// The worker keeps the legal tuple in its hand, where that is more than what it kept, and
    /// raises the best word.
    Raise(u32),
}

/// The number of a worker that a text writes.
fn worker_in(text: &[u8]) -> Option<u32>
    ensures { MatchOption result
        ((worker : ℕ) → worker < 2 ^ 32 → text.now ≢ decimal worker)
        (λ worker. text.now ≡ decimal worker) }
{
    u32::try_from(read_u64(text)?).ok()
}

/// What follows a front of a text, where the text has that front.
fn behind<'a>(text: &'a [u8], front: &[u8]) -> Option<&'a [u8]>
    ensures { MatchOption result ((rest : List ℕ) → text.now ≢ front.now ++ rest)
        (λ rest. text.now ≡ front.now ++ rest.now) }
{
    text.strip_prefix(front)
}

/// The number of a worker, behind a front of a line.
fn worker_behind(line: &[u8], front: &[u8]) -> Option<u32>
    ensures { MatchOption result
        ((worker : ℕ) → worker < 2 ^ 32 → line.now ≢ front.now ++ decimal worker)
        (λ worker. line.now ≡ front.now ++ decimal worker) }
{
    worker_in(behind(line, front)?)
}

/// The numbers of two workers with a space between them, behind a front.
fn workers_behind(line: &[u8], front: &[u8]) -> Option<(u32, u32)>
    ensures { MatchOption result
        ((worker other : ℕ) → worker < 2 ^ 32 → other < 2 ^ 32
        → line.now ≢ front.now ++ decimal worker ++ 32 ∷ decimal other)
        (λ workers. line.now
        ≡ front.now ++ decimal workers.0 ++ 32 ∷ decimal workers.1) }
{
    let (worker, other) = part_at_space(behind(line, front)?)?;
    Some((worker_in(worker)?, worker_in(other)?))
}

/// The step that a line writes.
fn step_of(line: &[u8]) -> Option<Step>
    ensures { MatchOption result (ReadsNot line.now) (IsLineOf line.now) }
{
    if let Some(worker) = worker_behind(line, b"take ") {
        return Some(Step::Take(worker));
    }
    if let Some((worker, victim)) = workers_behind(line, b"steal ") {
        return Some(Step::Steal(worker, victim));
    }
    if let Some(worker) = worker_behind(line, b"split ") {
        return Some(Step::Split(worker));
    }
    if let Some(worker) = worker_behind(line, b"close ") {
        return Some(Step::Close(worker));
    }
    if let Some(worker) = worker_behind(line, b"look ") {
        return Some(Step::Look(worker));
    }
    worker_behind(line, b"raise ").map(Step::Raise)
}

/// The steps of a schedule, or why the text is none.
fn steps_in(alloc: Global, text: &[u8]) -> Result<Vec<Step>, StepError>
    ensures ok { IfOk result (λ steps. IsSchedule text.now steps.items) }
    ensures refused { IfErr result (IsRefused text.now) }
{
    let mut steps = Vec::new(alloc);
    let mut at = 0;
    'lines: while let Some(line) = next_line(text, at) {
        if steps.len() == MOST_STEPS {
            return Err(StepError::TooMany);
        }
        let Some(step) = step_of(&text[line.from..line.to]) else {
            return Err(StepError::Line(steps.len() as u32 + 1));
        };
        steps.push(step)?;
        at = line.next;
    }
    Ok(steps)
}

/// Reads a schedule, a written order of steps, as docs/schedules.md has it: one step a line.
///
/// [`StepError::Line`] names the first line that doesn't read, where it is among the first
/// 1,000,000. [`StepError::TooMany`] comes exactly where there are more lines and those read;
/// [`StepError::Memory`] only for want of memory.
pub fn read_steps(alloc: Global, text: &[u8]) -> Result<Vec<Step>, StepError>
    // What is read has this text, and what has this text is read.
    ensures ok { IfOk result (λ steps. IsSchedule text.now steps.items) }
    ensures only { (steps : List Step) → IsSchedule text.now steps
        → MatchResult result (λ read. read.items ≡ steps) (λ error. error ≡ Memory) }

    // What is told is so, and what is so is told.
    ensures refused { IfErr result (IsRefused text.now) }
    ensures exact { (error : StepError) → error ≢ Memory → IsRefused text.now error
        → IsErrOf result error ⊎ IsErrOf result Memory }
{
    steps_in(alloc, text)
}
