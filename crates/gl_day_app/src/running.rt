ghost use Rattle.std.specs.Prelude.{◌≡◌, IfErr, IfOk, Some, map};
ghost use Rattle.std.specs.Thread.{IsSync};
ghost use Rattle.gl_goal.specs.AnyGoal.{any_rule};
ghost use Rattle.gl_plain.specs.Answer.{IsAnswer};
ghost use Rattle.gl_day.specs.Flight.{steward_rules};
ghost use Rattle.gl_words.specs.DayCommand.{day_seen};
ghost use Rattle.gl_words.specs.DayWords.{day_command_of, workers_of};
ghost use Rattle.gl_answer.specs.Given.{HasAnswered, IsStopped};
ghost use Rattle.gl_day_app.specs.DayRun.{IsDayRun, day_promise_of};

use crate::racing::{Racing, race};
use gl_answer::{Answer, Status, deliver, usage};
use gl_day::{Alone, Search};
use gl_day_claims::check::check;
use gl_day_claims::score::score;
use gl_desk::{Desk, DeskError, Name};
use gl_goal::AnyGoal;
use gl_plain::Found;
use gl_pool::Gate;
use gl_task::Steward;
use gl_words::{DayCommand, read_day_words, read_workers_of};
use std::alloc::{AllocError, Global};
use std::sync::Wait;
use std::thread::Threads;

/// The answer to a command. What it appends is appended.
fn answer_to_command<D: Desk, S: Search>(
    alloc: Global,
    desk: &mut D,
    search: &S,
    command: DayCommand<'_>,
    stewards: &mut Vec<Box<dyn Steward>>,
) -> Result<Answer, DeskError>
    requires { S.ready search.now }
    ensures right { IfOk result (HasAnswered (day_promise_of (D.told desk.old).folder
        (map (λ s. steward_rules (opening s) (fed s) (owed s)) stewards.old.items)
        (Some (day_seen command.entry))) (D.told desk.old) (D.told desk.new)) }
    ensures stopped { IfErr result (IsStopped (day_promise_of (D.told desk.old).folder
        (map (λ s. steward_rules (opening s) (fed s) (owed s)) stewards.old.items)
        (Some (day_seen command.entry))) (D.told desk.old) (D.told desk.new)) }
    ensures kept { map (λ s. steward_rules (opening s) (fed s) (owed s)) stewards.new.items
        ≡ map (λ s. steward_rules (opening s) (fed s) (owed s)) stewards.old.items }
{
    match command {
        DayCommand::Score(day) => score(alloc, desk, search, day, stewards),
        DayCommand::Check(day) => check(alloc, desk, day),
    }
}

/// The answer to the words. What it appends is appended.
fn answer_to_words<D: Desk, S: Search>(
    alloc: Global,
    words: &[Name],
    desk: &mut D,
    search: &S,
    stewards: &mut Vec<Box<dyn Steward>>,
) -> Result<Answer, DeskError>
    requires { S.ready search.now }
    ensures right { IfOk result (HasAnswered (day_promise_of (D.told desk.old).folder
        (map (λ s. steward_rules (opening s) (fed s) (owed s)) stewards.old.items)
        (day_command_of words.now)) (D.told desk.old) (D.told desk.new)) }
    ensures stopped { IfErr result (IsStopped (day_promise_of (D.told desk.old).folder
        (map (λ s. steward_rules (opening s) (fed s) (owed s)) stewards.old.items)
        (day_command_of words.now)) (D.told desk.old) (D.told desk.new)) }
    ensures kept { map (λ s. steward_rules (opening s) (fed s) (owed s)) stewards.new.items
        ≡ map (λ s. steward_rules (opening s) (fed s) (owed s)) stewards.old.items }
{
    match read_day_words(words) {
        Some(command) => answer_to_command(alloc, desk, search, command, stewards),
        None => Ok(Answer {
            status: Status::Words,
            text: usage(alloc)?,
        }),
    }
}

/// Carries out a command, whose claims `search` searches.
fn carry_out<D: Desk, S: Search>(
    alloc: Global,
    words: &[Name],
    desk: &mut D,
    search: &S,
    stewards: &mut Vec<Box<dyn Steward>>,
) -> Status
    requires { S.ready search.now }
    ensures { IsDayRun words.now
        (map (λ s. steward_rules (opening s) (fed s) (owed s)) stewards.old.items)
        (map (λ s. steward_rules (opening s) (fed s) (owed s)) stewards.new.items)
        result (D.told desk.old) (D.told desk.new) }
{
    let answered = answer_to_words(alloc, words, desk, search, stewards);
    deliver(alloc, desk, answered)
}

/// Carries out a command of a day on one thread, and always returns. A `score` by several workers
/// isn't one for this call. Words that are neither `score` nor `check` in their form give the usage
/// line, those of the other commands too.
///
/// The words are those after the program's own name. One piece is said at the end, or nothing where
/// a call of the desk failed or memory was wanting before; nothing is said after that. `score`
/// appends its proof before it says the sheet, and asks the stewards for the penalties of each
/// flight; they keep their rules.
pub fn run_day_single<D: Desk>(
    alloc: Global,
    words: &[Name],
    desk: &mut D,
    stewards: &mut Vec<Box<dyn Steward>>,
) -> Status
    requires { workers_of words.now ≡ 1 }
    ensures { IsDayRun words.now
        (map (λ s. steward_rules (opening s) (fed s) (owed s)) stewards.old.items)
        (map (λ s. steward_rules (opening s) (fed s) (owed s)) stewards.new.items)
        result (D.told desk.old) (D.told desk.new) }
{
    carry_out(alloc, words, desk, &Alone, stewards)
}

/// Carries out a command of a day, `score` by as many workers as its words name and `check` by one.
/// Words of no such form give the usage line. It may wait for the workers, each of whom passes the
/// gate before its first step. What it owes is what `run_day_single` owes, whatever the threads do.
pub fn run_day<Rt: Threads + Wait + Sync, D: Desk, K: Gate + Sync>(
    rt: &Rt,
    alloc: Global,
    words: &[Name],
    desk: &mut D,
    gate: &K,
    stewards: &mut Vec<Box<dyn Steward>>,
) -> Status
    ensures { IsDayRun words.now
        (map (λ s. steward_rules (opening s) (fed s) (owed s)) stewards.old.items)
        (map (λ s. steward_rules (opening s) (fed s) (owed s)) stewards.new.items)
        result (D.told desk.old) (D.told desk.new) }
{
    let workers = read_workers_of(words);
    if workers.count == 1 {
        return run_day_single(alloc, words, desk, stewards);
    }
    let race = |alloc: Global, goal: &AnyGoal| -> Result<Found, AllocError>
        requires { IsSync Rt.row × IsSync K.row }
        ensures { IfOk result (IsAnswer (any_rule goal.now)) }
    { race(rt, alloc, goal, workers, gate) };
    carry_out(alloc, words, desk, &Racing { race: &race }, stewards)
}
