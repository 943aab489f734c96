//! Runs of which one thing changes in turn: the call of the desk that fails, or where a file ends.

use crate::folder;
use crate::runs::{Ended, Line, end_of};
use anyhow::{Context, Result};
use gl_app::Status;
use gl_desk::{Desk, MemDesk, Name};
use std::alloc::Global;
use std::sync::Wait;
use std::thread::Threads;

/// A line that runs its words often.
#[derive(Clone, Copy)]
pub enum Often<'a> {
    /// `failures WORDS`: how they end, and how many calls of the desk they make, if each of these
    /// can fail as it has to.
    Failures(&'a str),
    /// `prefixes NAME NUMBER WORDS`: the result and the metres of the entrant with this number, for
    /// each first part of the file in its place, said where they change.
    Prefixes(&'a str),
}

impl<'a> Often<'a> {
    /// The line that begins with this word; `None` where no line that runs its words often does.
    pub fn read(word: &str, rest: &'a str) -> Option<Often<'a>> {
        match word {
            "failures" => Some(Often::Failures(rest)),
            "prefixes" => Some(Often::Prefixes(rest)),
            _ => None,
        }
    }
}

/// Whether each file that was given is as it was, and each other one a first part of the right one.
fn holds_first_parts(
    alloc: Global,
    given: &MemDesk,
    right: &MemDesk,
    found: &mut MemDesk,
) -> Result<bool> {
    let names = found.names(alloc)?;
    for name in &names {
        let text = str::from_utf8(found.file(name).unwrap_or(b""))?;
        let whole = str::from_utf8(right.file(name).unwrap_or(b""))?;
        let is_right = match given.file(name) {
            Some(_) => text == whole,
            None => whole.starts_with(text),
        };
        if !is_right {
            return Ok(false);
        }
    }
    Ok(true)
}

/// How a run ends whose call with this number fails, if it isn't as it has to be: with `Desk` at
/// that call, with a first part of what the whole run says, and with each file that was there and a
/// first part of each that it makes.
fn wrong_end<Rt: Threads + Wait + Sync>(
    rt: &Rt,
    alloc: Global,
    desk: &mut MemDesk,
    words: &str,
    failing: u64,
    whole: (&MemDesk, &str),
) -> Result<Option<String>> {
    let (right, said) = whole;
    let mut twin = folder::twin(alloc, desk, failing)?;
    let ended = end_of(rt, alloc, &mut twin, Line::Run(words))?;
    let is_stopped = ended.status == Status::Desk && ended.calls == failing;
    let is_part = said.starts_with(ended.said.as_str());
    if is_stopped && is_part && holds_first_parts(alloc, desk, right, &mut twin)? {
        return Ok(None);
    }
    let (status, said) = (ended.status, ended.said.as_str());
    Ok(Some(format!(in alloc; "{words}: where call {failing} fails {status:?} {said:?}")?))
}

/// Each call of the desk fails in turn.
fn failures<Rt: Threads + Wait + Sync>(
    rt: &Rt,
    alloc: Global,
    desk: &mut MemDesk,
    words: &str,
) -> Result<String> {
    let mut right = folder::twin(alloc, desk, 0)?;
    let whole = end_of(rt, alloc, &mut right, Line::Run(words))?;
    for failing in 1..=whole.calls {
        let wanted = (&right, whole.said.as_str());
        if let Some(told) = wrong_end(rt, alloc, desk, words, failing, wanted)? {
            return Ok(told);
        }
    }
    let (status, calls) = (whole.status, whole.calls);
    Ok(format!(in alloc; "{status:?}, and each of {calls} calls can fail")?)
}

/// How a run ended, and the result and the metres of the entrant with this number.
fn outcome(alloc: Global, ended: &Ended, number: &str) -> Result<String> {
    let key = format!(in alloc; ",{number},")?;
    let (_, row) = ended
        .said
        .as_str()
        .split_once(key.as_str())
        .context("no row")?;
    let (_, row) = row.split_once(',').context("no name")?;
    let (result, row) = row.split_once(',').context("no result")?;
    let (metres, _) = row.split_once(',').context("no metres")?;
    let status = ended.status;
    Ok(format!(in alloc; "{status:?} {result} {metres}")?)
}

/// The outcome of words if a file has this text.
fn outcome_with<Rt: Threads + Wait + Sync>(
    rt: &Rt,
    alloc: Global,
    desk: &mut MemDesk,
    file: (&Name, &str),
    number: &str,
    words: &str,
) -> Result<String> {
    let (name, text) = file;
    let mut twin = folder::twin_but(alloc, desk, name, text)?;
    let ended = end_of(rt, alloc, &mut twin, Line::Run(words))?;
    outcome(alloc, &ended, number)
}

/// What a file of a folder has.
fn text_of(alloc: Global, desk: &MemDesk, name: &Name) -> Result<String> {
    let bytes = desk.file(name).context("no such file")?;
    Ok(String::from_str(alloc, str::from_utf8(bytes)?)?)
}

/// Each first part of a file stands in its place in turn.
fn prefixes<Rt: Threads + Wait + Sync>(
    rt: &Rt,
    alloc: Global,
    desk: &mut MemDesk,
    rest: &str,
) -> Result<String> {
    let (name, rest) = rest.split_once(' ').context("a file")?;
    let (number, words) = rest.split_once(' ').context("a number")?;
    let name = Name::from_text(alloc, name)?;
    let text = text_of(alloc, desk, &name)?;
    let mut told = String::new(alloc);
    let mut last = String::new(alloc);
    for length in 0..=text.len() {
        let Some(part) = text.as_str().get(..length) else {
            continue;
        };
        let found = outcome_with(rt, alloc, desk, (&name, part), number, words)?;
        if found.as_str() != last.as_str() {
            let change = format!(in alloc; "from {length} bytes on {}\n", found.as_str())?;
            told.push_str(change.as_str())?;
        }
        last = found;
    }
    Ok(told)
}

/// Runs the words of a line often, and answers what came of it.
pub fn run<Rt: Threads + Wait + Sync>(
    rt: &Rt,
    alloc: Global,
    desk: &mut MemDesk,
    line: Often<'_>,
) -> Result<String> {
    match line {
        Often::Failures(words) => failures(rt, alloc, desk, words),
        Often::Prefixes(rest) => prefixes(rt, alloc, desk, rest),
    }
}
