ghost use Rattle.std.specs.Prelude.{◌≡◌, ◌≤◌, ◌++◌, IfOk, OnOk, length};
ghost use Rattle.gl_desk.specs.Answers.{OnlyReads, stop_of};
ghost use Rattle.gl_words.specs.ReplayWords.{replay_seen};
ghost use Rattle.gl_answer.specs.Answer.{answer_of};
ghost use Rattle.gl_flights.specs.Replay.{IsReplay, IsReplayOf, closed_line};

use crate::best::best_lines;
use crate::free::whole_free_goal;
use crate::replay_files::test_replay_files;
use gl_answer::{Answer, answer_halt, done};
use gl_desk::{Desk, DeskError};
use gl_igc::Recording;
use gl_replay::{Step, replay};
use gl_text::push_u64;
use gl_words::{ReplayWords, Workers};
use std::alloc::{AllocError, Global};

/// Appends the line with the number of boxes that workers closed by their steps.
#[tactic(auto, unfolding(crate::specs::Replay::closed_line))]
fn push_closed(text: &mut Vec<u8>, count: u32) -> Result<(), AllocError>
    ensures { OnOk result (text.new.items ≡ text.old.items ++ closed_line count) }
{
    text.extend_from_slice(b"CLOSED ")?;
    push_u64(text, u64::from(count))?;
    Ok(text.push(b'\n')?)
}

/// The three lines of the best free distance of a recording by a schedule: the last has the number
/// of boxes that the workers closed by its steps.
fn replay_of_recording(
    alloc: Global,
    recording: &Recording,
    workers: Workers,
    steps: &[Step],
) -> Result<Vec<u8>, AllocError>
    requires { length steps.now ≤ 1_000_000 }
    ensures { IfOk result (λ text.
        IsReplayOf recording.now workers.count steps.now text.items) }
{
    let goal = whole_free_goal(alloc, recording)?;
    let replayed = replay(alloc, &goal, workers.count, steps)?;
    let Some(best) = replayed.found.best else {
        unreachable!();
    };
    let mut text = best_lines(alloc, "FREE", &goal, &best)?;
    push_closed(&mut text, replayed.by_steps)?;
    Ok(text)
}

/// The answer of `replay FILE SCHEDULE WORKERS`: the best free distance of the recording, found by
/// so many workers who follow the schedule, and how many boxes they closed by its steps. All of
/// them act on one thread.
pub fn replay_schedule<D: Desk>(
    alloc: Global,
    desk: &mut D,
    words: ReplayWords<'_>,
) -> Result<Answer, DeskError>
    ensures right { IfOk result (λ answer.
        IsReplay (D.told desk.old).folder (replay_seen words.entry) (answer_of answer)) }
    ensures reads { OnlyReads (stop_of result) (D.told desk.old) (D.told desk.new) }
{
    let names = desk.names(alloc)?;
    match test_replay_files(alloc, desk, &names, words) {
        Ok((recording, steps)) => done(replay_of_recording(
            alloc,
            &recording,
            words.workers,
            &steps,
        )),
        Err(halt) => answer_halt(alloc, halt),
    }
}
