//! The program: hands the words, the current folder and the standard output to the command that
//! looks over the folder of a day, or to the one that says why a day is scored as it is, and ends
//! with the status of the run as a number.
#![tactic(auto)]

use gl_desk::{HostDesk, Name};
use gl_look::Status;
use std::alloc::{AllocError, Global};
use std::env;
use std::env::Args;
use std::io::ErrorKind;
use std::process::ExitCode;
use std::rt::{Env, Files};

/// What the program ends with where the system didn't give the words.
const NO_WORDS: u8 = 7;

/// The words after the program's own name.
fn names(alloc: Global, words: Args) -> Result<Vec<Name>, AllocError> {
    let mut names = Vec::new(alloc);
    for word in words.skip(1) {
        names.push(Name::from_text(alloc, word.as_str())?)?;
    }
    Ok(names)
}

/// Whether the words ask for the reasons of a score.
fn asks_why(words: &[Name]) -> bool {
    match words {
        [word, ..] => word.as_str() == "why",
        [] => false,
    }
}

/// Carries out the words that the system gives.
fn run_words<Rt: Files + Print + Env + AllocGlobal + Drop>(rt: Rt) -> u8 {
    let alloc = rt.alloc();
    let words = match env::args(&rt) {
        Ok(words) => words,
        Err(error) if error.kind() == ErrorKind::OutOfMemory => return Status::Memory.number(),
        Err(_) => return NO_WORDS,
    };
    let Ok(names) = names(alloc, words) else {
        return Status::Memory.number();
    };
    let mut desk = HostDesk::new(&rt);
    if asks_why(&names) {
        gl_why::run(alloc, &names, &mut desk).number()
    } else {
        gl_look::run(alloc, &names, &mut desk).number()
    }
}

fn main(rt: HostRuntime) -> ExitCode {
    ExitCode::from(run_words(rt))
}
