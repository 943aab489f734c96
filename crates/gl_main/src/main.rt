//! The program of all commands: reads the words that the system gives, and carries them out
//! over the current folder and the standard output. What one worker does has no leave to wait.
#![tactic(auto)]

use gl_app::{carry_out_alone, carry_out_words};
use gl_day_app::names_given;
use gl_desk::HostDesk;
use gl_words::read_workers_of;
use std::env;
use std::process::ExitCode;

fn main(rt: HostRuntime) -> ExitCode {
    let alloc = rt.alloc();
    let words = match names_given(alloc, env::args(&rt)) {
        Ok(words) => words,
        Err(ending) => return ending.exit_code(),
    };
    let mut desk = HostDesk::new(&rt);
    if read_workers_of(&words).count == 1 {
        carry_out_alone(alloc, &words, &mut desk)
    } else {
        carry_out_words(&rt, alloc, &words, &mut desk)
    }
}
