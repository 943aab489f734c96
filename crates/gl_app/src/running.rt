ghost use Rattle.std.specs.Prelude.{◌≡◌, IfErr, IfOk, IsNone, IsSome, Some, map};
ghost use Rattle.gl_day.specs.Flight.{steward_rules};
ghost use Rattle.gl_words.specs.DayWords.{day_command_of, workers_of};
ghost use Rattle.gl_words.specs.Command.{seen};
ghost use Rattle.gl_words.specs.Words.{command_of};
ghost use Rattle.gl_answer.specs.Given.{HasAnswered, IsStopped};
ghost use Rattle.gl_app.specs.Run.{IsRun, promise_of};

use crate::badge::badge;
use crate::badge_check::badge_check;
use crate::demo::demo;
use gl_answer::{Answer, Status, deliver, usage};
use gl_day::{Alone, Search};
use gl_day_app::{run_day, run_day_single};
use gl_desk::{Desk, DeskError, Name};
use gl_flights::near::near;
use gl_flights::near_check::near_check;
use gl_flights::series::series;
use gl_flights::{Question, answer_of_file, replay_schedule};
use gl_pool::Gate;
use gl_task::Steward;
use gl_words::{Command, read_day_words, read_words, read_workers_of};
use std::alloc::Global;
use std::sync::Wait;
use std::thread::Threads;

/// The answer to a command that isn't one of a day. What it appends is appended.
fn answer_to_command<D: Desk, S: Search>(
    alloc: Global,
    desk: &mut D,
    search: &S,
    command: Command<'_>,
    stewards: &mut Vec<Box<dyn Steward>>,
) -> Result<Answer, DeskError>
    requires { S.ready search.now }
    ensures right { IfOk result (HasAnswered (promise_of (D.told desk.old).folder
        (map (λ s. steward_rules (opening s) (fed s) (owed s)) stewards.old.items)
        (Some (seen command.entry))) (D.told desk.old) (D.told desk.new)) }
    ensures stopped { IfErr result (IsStopped (promise_of (D.told desk.old).folder
        (map (λ s. steward_rules (opening s) (fed s) (owed s)) stewards.old.items)
        (Some (seen command.entry))) (D.told desk.old) (D.told desk.new)) }
    ensures kept { map (λ s. steward_rules (opening s) (fed s) (owed s)) stewards.new.items
        ≡ map (λ s. steward_rules (opening s) (fed s) (owed s)) stewards.old.items }
{
    match command {
        Command::Free(file) => answer_of_file(alloc, desk, Question::Free, file),
        Command::Triangle(file) => answer_of_file(alloc, desk, Question::Triangle, file),
        Command::Replay(words) => replay_schedule(alloc, desk, words),
        Command::Near(words) => near(alloc, desk, words),
        Command::NearCheck(words) => near_check(alloc, desk, words),
        Command::Point(words) => {
            answer_of_file(
                alloc,
                desk,
                Question::Point(words.place.place),
                words.flight,
            )
        }
        Command::Badge(words) => badge(alloc, desk, words),
        Command::BadgeCheck(words) => badge_check(alloc, desk, words),
        Command::Series(words) => series(alloc, desk, words),
        Command::Demo(day) => demo(alloc, search, day, stewards),
    }
}

/// The answer to words that aren't those of a command of a day. What it appends is appended.
fn answer_to_words<D: Desk, S: Search>(
    alloc: Global,
    words: &[Name],
    desk: &mut D,
    search: &S,
    stewards: &mut Vec<Box<dyn Steward>>,
) -> Result<Answer, DeskError>
    requires { S.ready search.now }
    ensures right { IfOk result (HasAnswered (promise_of (D.told desk.old).folder
        (map (λ s. steward_rules (opening s) (fed s) (owed s)) stewards.old.items)
        (command_of words.now)) (D.told desk.old) (D.told desk.new)) }
    ensures stopped { IfErr result (IsStopped (promise_of (D.told desk.old).folder
        (map (λ s. steward_rules (opening s) (fed s) (owed s)) stewards.old.items)
        (command_of words.now)) (D.told desk.old) (D.told desk.new)) }
    ensures kept { map (λ s. steward_rules (opening s) (fed s) (owed s)) stewards.new.items
        ≡ map (λ s. steward_rules (opening s) (fed s) (owed s)) stewards.old.items }
{
    match read_words(words) {
        Some(command) => answer_to_command(alloc, desk, search, command, stewards),
        None => Ok(Answer {
            status: Status::Words,
            text: usage(alloc)?,
        }),
    }
}

/// Carries out what isn't a command of a day; `search` searches the claims of `demo`.
fn carry_out<D: Desk, S: Search>(
    alloc: Global,
    words: &[Name],
    desk: &mut D,
    search: &S,
    stewards: &mut Vec<Box<dyn Steward>>,
) -> Status
    requires ready { S.ready search.now }
    requires no_day { IsNone (day_command_of words.now) }
    ensures { IsRun words.now
        (map (λ s. steward_rules (opening s) (fed s) (owed s)) stewards.old.items)
        (map (λ s. steward_rules (opening s) (fed s) (owed s)) stewards.new.items)
        result (D.told desk.old) (D.told desk.new) }
{
    let answered = answer_to_words(alloc, words, desk, search, stewards);
    deliver(alloc, desk, answered)
}

/// Carries out a command of a day on one thread.
fn carry_out_day_alone<D: Desk>(
    alloc: Global,
    words: &[Name],
    desk: &mut D,
    stewards: &mut Vec<Box<dyn Steward>>,
) -> Status
    requires day { IsSome (day_command_of words.now) }
    requires alone { workers_of words.now ≡ 1 }
    ensures { IsRun words.now
        (map (λ s. steward_rules (opening s) (fed s) (owed s)) stewards.old.items)
        (map (λ s. steward_rules (opening s) (fed s) (owed s)) stewards.new.items)
        result (D.told desk.old) (D.told desk.new) }
{
    run_day_single(alloc, words, desk, stewards)
}

/// Carries out a command of a day by as many workers as its words name.
fn carry_out_day<Rt: Threads + Wait + Sync, D: Desk, K: Gate + Sync>(
    rt: &Rt,
    alloc: Global,
    words: &[Name],
    desk: &mut D,
    gate: &K,
    stewards: &mut Vec<Box<dyn Steward>>,
) -> Status
    requires { IsSome (day_command_of words.now) }
    ensures { IsRun words.now
        (map (λ s. steward_rules (opening s) (fed s) (owed s)) stewards.old.items)
        (map (λ s. steward_rules (opening s) (fed s) (owed s)) stewards.new.items)
        result (D.told desk.old) (D.told desk.new) }
{
    run_day(rt, alloc, words, desk, gate, stewards)
}

/// Carries out a command on one thread, and always returns. A `score` by several workers isn't one
/// for this call.
///
/// The words are those after the program's own name. One piece is said at the end, or nothing where
/// a call of the desk failed or memory was wanting before; nothing is said after that. `score`
/// appends its proof before it says the sheet, and asks the stewards for the penalties of each
/// flight; they keep their rules.
pub fn run_single<D: Desk>(
    alloc: Global,
    words: &[Name],
    desk: &mut D,
    stewards: &mut Vec<Box<dyn Steward>>,
) -> Status
    requires { workers_of words.now ≡ 1 }
    ensures { IsRun words.now
        (map (λ s. steward_rules (opening s) (fed s) (owed s)) stewards.old.items)
        (map (λ s. steward_rules (opening s) (fed s) (owed s)) stewards.new.items)
        result (D.told desk.old) (D.told desk.new) }
{
    if read_day_words(words).is_some() {
        return carry_out_day_alone(alloc, words, desk, stewards);
    }
    carry_out(alloc, words, desk, &Alone, stewards)
}

/// Carries out a command, `score` by as many workers as its words name and all others as
/// `run_single` does. It may wait for the workers, each of whom passes the gate before its first
/// step. What it owes is what `run_single` owes, whatever the threads do.
#[tactic(auto, using(crate::proofs::Days::one_or_day))]
pub fn run<Rt: Threads + Wait + Sync, D: Desk, K: Gate + Sync>(
    rt: &Rt,
    alloc: Global,
    words: &[Name],
    desk: &mut D,
    gate: &K,
    stewards: &mut Vec<Box<dyn Steward>>,
) -> Status
    ensures { IsRun words.now
        (map (λ s. steward_rules (opening s) (fed s) (owed s)) stewards.old.items)
        (map (λ s. steward_rules (opening s) (fed s) (owed s)) stewards.new.items)
        result (D.told desk.old) (D.told desk.new) }
{
    if read_workers_of(words).count == 1 {
        return run_single(alloc, words, desk, stewards);
    }
    carry_out_day(rt, alloc, words, desk, gate, stewards)
}
