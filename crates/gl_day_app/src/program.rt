ghost use Rattle.std.specs.Prelude.{◌≡◌, IfOk, MatchResult, OnErr, map};
ghost use Rattle.std.specs.Process.{exit_status};
ghost use Rattle.std.specs.String.{string_bytes};
ghost use Rattle.std.specs.Vec.Iter.{into_iter_items};
ghost use Rattle.gl_day_app.specs.DayRun.{IsDayRun};
ghost use Rattle.gl_day_app.specs.Endings.{AreNamesGiven, EndsWith, given_words, number_of_ending, program_stewards};
ghost use Rattle.gl_words.specs.DayWords.{workers_of};
ghost use Rattle.gl_day_app.specs.declared.program.Ending.{Ending};

use crate::running::{run_day, run_day_single};
use gl_answer::Status;
use gl_desk::{Desk, Name};
use gl_pool::OpenGate;
use gl_task::{Ceiling, EngineNoise, Steward};
use std::alloc::{AllocError, Global};
use std::env::Args;
use std::io::{self, ErrorKind};
use std::process::ExitCode;
use std::sync::Wait;
use std::thread::Threads;

/// How a program ended.
#[derive(Clone, Copy, Debug, PartialEq, Eq)]
pub enum Ending {
    /// A run ended with this status.
    Ran(Status),
    /// There was no memory for the words.
    NoMemory,
    /// The system didn't give the words, or gave one that isn't text.
    NoWords,
}

impl Ending {
    /// How a program ends whose run ended so, or for whose run there was no memory.
    pub fn of(ran: Result<Status, AllocError>) -> Ending
        ensures { MatchResult ran
            (λ status. result ≡ Ending.Ran status) (λ _. result ≡ Ending.NoMemory) }
    {
        match ran {
            Ok(status) => Ending::Ran(status),
            Err(_) => Ending::NoMemory,
        }
    }

    /// What the program ends with.
    pub fn exit_code(self) -> ExitCode
        ensures { exit_status result ≡ number_of_ending self }
    {
        match self {
            Ending::Ran(status) => ExitCode::from(status.number()),
            Ending::NoMemory => ExitCode::from(Status::Memory.number()),
            Ending::NoWords => ExitCode::from(7),
        }
    }
}

/// The words as names. The only error is want of memory.
fn names_of(alloc: Global, words: Args) -> Result<Vec<Name>, AllocError>
    ensures { IfOk result (λ names. names.items ≡ map string_bytes (into_iter_items words)) }
{
    let mut names = Vec::new(alloc);
    for word in words {
        names.push(Name::from_text(alloc, word.as_str())?)?;
    }
    Ok(names)
}

/// The words after the program's own name. The only error is want of memory.
fn names(alloc: Global, mut words: Args) -> Result<Vec<Name>, AllocError>
    ensures { IfOk result (λ names. names.items ≡ given_words words) }
{
    words.next();
    names_of(alloc, words)
}

/// The words that the system gives, of which the first is the program's own name, as the names
/// after that; or how the program ends without them: `NoMemory` for want of memory, `NoWords` for
/// any other error of the system.
pub fn names_given(alloc: Global, words: io::Result<Args>) -> Result<Vec<Name>, Ending>
    ensures { AreNamesGiven words result }
{
    match words {
        Ok(words) => names(alloc, words).map_err(|_| Ending::NoMemory),
        Err(error) if error.kind() == ErrorKind::OutOfMemory => Err(Ending::NoMemory),
        Err(_) => Err(Ending::NoWords),
    }
}

/// Carries out a command of a day on one thread with the program's two stewards, that of the
/// ceiling and that of the engine. The only error is want of memory for them.
fn run_alone<D: Desk>(alloc: Global, words: &[Name], desk: &mut D) -> Result<Status, AllocError>
    requires { workers_of words.now ≡ 1 }
    ensures ran { IfOk result (λ status. IsDayRun words.now program_stewards program_stewards
        status (D.told desk.old) (D.told desk.new)) }
    ensures untouched { OnErr result (D.told desk.new ≡ D.told desk.old) }
{
    let mut stewards: Vec<Box<dyn Steward>> = Vec::new(alloc);
    stewards.push(Box::new(alloc, Ceiling::new())?)?;
    stewards.push(Box::new(alloc, EngineNoise::new())?)?;
    Ok(run_day_single(alloc, words, desk, &mut stewards))
}

/// The same by as many workers as the words name.
fn run_racing<Rt: Threads + Wait + Sync, D: Desk>(
    rt: &Rt,
    alloc: Global,
    words: &[Name],
    desk: &mut D,
) -> Result<Status, AllocError>
    ensures ran { IfOk result (λ status. IsDayRun words.now program_stewards program_stewards
        status (D.told desk.old) (D.told desk.new)) }
    ensures untouched { OnErr result (D.told desk.new ≡ D.told desk.old) }
{
    let mut stewards: Vec<Box<dyn Steward>> = Vec::new(alloc);
    stewards.push(Box::new(alloc, Ceiling::new())?)?;
    stewards.push(Box::new(alloc, EngineNoise::new())?)?;
    Ok(run_day(rt, alloc, words, desk, &OpenGate, &mut stewards))
}

/// All that a program of the commands of a day does by one worker, over any desk: carries out the
/// words, with the program's stewards, and answers the number of the status that the run ended
/// with. It always returns.
pub fn carry_out_day_alone<D: Desk>(alloc: Global, words: &[Name], desk: &mut D) -> ExitCode
    requires { workers_of words.now ≡ 1 }
    ensures { EndsWith IsDayRun words.now (exit_status result)
        (D.told desk.old) (D.told desk.new) }
{
    Ending::of(run_alone(alloc, words, desk)).exit_code()
}

/// The same by as many workers as the words name, for whom it may wait.
pub fn carry_out_day_words<Rt: Threads + Wait + Sync, D: Desk>(
    rt: &Rt,
    alloc: Global,
    words: &[Name],
    desk: &mut D,
) -> ExitCode
    ensures { EndsWith IsDayRun words.now (exit_status result)
        (D.told desk.old) (D.told desk.new) }
{
    Ending::of(run_racing(rt, alloc, words, desk)).exit_code()
}
