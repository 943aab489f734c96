ghost use Rattle.std.specs.Prelude.{◌≡◌, IfOk, OnErr};
ghost use Rattle.std.specs.Process.{exit_status};
ghost use Rattle.gl_words.specs.DayWords.{workers_of};
ghost use Rattle.gl_day_app.specs.Endings.{EndsWith, program_stewards};
ghost use Rattle.gl_app.specs.Run.{IsRun};

use crate::running::{run, run_single};
use gl_answer::Status;
use gl_day_app::Ending;
use gl_desk::{Desk, Name};
use gl_pool::OpenGate;
use gl_task::{Ceiling, EngineNoise, Steward};
use std::alloc::{AllocError, Global};
use std::process::ExitCode;
use std::sync::Wait;
use std::thread::Threads;

/// Carries out a command on one thread with the program's two stewards, that of the ceiling and
/// that of the engine. The only error is want of memory for them.
fn run_alone<D: Desk>(alloc: Global, words: &[Name], desk: &mut D) -> Result<Status, AllocError>
    requires { workers_of words.now ≡ 1 }
    ensures ran { IfOk result (λ status. IsRun words.now program_stewards program_stewards
        status (D.told desk.old) (D.told desk.new)) }
    ensures untouched { OnErr result (D.told desk.new ≡ D.told desk.old) }
{
    let mut stewards: Vec<Box<dyn Steward>> = Vec::new(alloc);
    stewards.push(Box::new(alloc, Ceiling::new())?)?;
    stewards.push(Box::new(alloc, EngineNoise::new())?)?;
    Ok(run_single(alloc, words, desk, &mut stewards))
}

/// The same by as many workers as the words name.
fn run_racing<Rt: Threads + Wait + Sync, D: Desk>(
    rt: &Rt,
    alloc: Global,
    words: &[Name],
    desk: &mut D,
) -> Result<Status, AllocError>
    ensures ran { IfOk result (λ status. IsRun words.now program_stewards program_stewards
        status (D.told desk.old) (D.told desk.new)) }
    ensures untouched { OnErr result (D.told desk.new ≡ D.told desk.old) }
{
    let mut stewards: Vec<Box<dyn Steward>> = Vec::new(alloc);
    stewards.push(Box::new(alloc, Ceiling::new())?)?;
    stewards.push(Box::new(alloc, EngineNoise::new())?)?;
    Ok(run(rt, alloc, words, desk, &OpenGate, &mut stewards))
}

/// All that the program does by one worker, over any desk: carries out the words, with the
/// program's stewards, and answers the number of the status that the run ended with. It always
/// returns.
pub fn carry_out_alone<D: Desk>(alloc: Global, words: &[Name], desk: &mut D) -> ExitCode
    requires { workers_of words.now ≡ 1 }
    ensures { EndsWith IsRun words.now (exit_status result) (D.told desk.old) (D.told desk.new) }
{
    Ending::of(run_alone(alloc, words, desk)).exit_code()
}

/// The same by as many workers as the words name, for whom it may wait.
pub fn carry_out_words<Rt: Threads + Wait + Sync, D: Desk>(
    rt: &Rt,
    alloc: Global,
    words: &[Name],
    desk: &mut D,
) -> ExitCode
    ensures { EndsWith IsRun words.now (exit_status result) (D.told desk.old) (D.told desk.new) }
{
    Ending::of(run_racing(rt, alloc, words, desk)).exit_code()
}
