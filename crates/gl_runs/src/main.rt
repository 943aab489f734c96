//! Worked runs of the commands over folders in memory, as a program: each line of `stdin` names a
//! table of `data/`, and the program says which of its rows are answered otherwise than expected,
//! and how many there are. A row that says what it shows begins an empty folder; the rows behind it
//! give it files or run words in it. The last line of `stdin` runs words in the folder of `data/` as
//! the installed program does, and the program ends with their status. The gate compares what is
//! said with `stdout`. The expected answers were computed by hand or by an independent program.
#![tactic(auto)]

mod folder;
mod in_turn;
mod runs;
mod severe;
mod tasks;

use anyhow::{Result, bail};
use gl_desk::MemDesk;
use gl_rows::{Row, Table, Tally};
use in_turn::Often;
use runs::Line;
use std::process::ExitCode;
use std::sync::Wait;
use std::thread::Threads;
use std::{fs, io};

/// Carries out a row that answers nothing.
fn obey(rt: &HostRuntime, desk: &mut MemDesk, verb: &str, input: &str) -> Result<()> {
    match verb {
        "add" => folder::add(rt, desk, input),
        "copy" => folder::copy(rt, desk, input),
        "change" => folder::change(rt, desk, input),
        "times" => folder::times(rt, desk, input),
        "seconds" => folder::seconds(rt, desk, input),
        _ => bail!("no row has this verb"),
    }
}

/// The answer to a row that runs nothing, in the folder that the rows before it filled.
fn prepare(rt: &HostRuntime, desk: &mut MemDesk, verb: &str, input: &str) -> Result<String> {
    let alloc = rt.alloc();
    match verb {
        "show" => return folder::show(alloc, desk, input),
        "behind" => return folder::behind(alloc, desk, input),
        "task" | "ended" | "whole" => return tasks::answer(rt, verb, input),
        "failing" => *desk = folder::fresh(alloc, input.parse::<u64>()?)?,
        "short" => *desk = folder::short(alloc, input.parse::<u64>()?)?,
        _ => obey(rt, desk, verb, input)?,
    }
    Ok(String::new(alloc))
}

/// The answer to a row, in the folder that the rows before it filled. The workers of a run get
/// their threads from `threads`.
fn answer<Rt: Threads + Wait + Sync>(
    rt: &HostRuntime,
    threads: &Rt,
    desk: &mut MemDesk,
    row: &Row<'_>,
) -> Result<String> {
    if !row.shows.is_empty() {
        *desk = folder::fresh(rt.alloc(), 0)?;
    }
    if let Some(line) = Line::read(row.verb, row.input) {
        return runs::run(threads, rt.alloc(), desk, line);
    }
    if let Some(line) = Often::read(row.verb, row.input) {
        return in_turn::run(threads, rt.alloc(), desk, line);
    }
    prepare(rt, desk, row.verb, row.input)
}

/// Tries the rows of a table.
fn try_rows<Rt: Threads + Wait + Sync>(rt: &HostRuntime, threads: &Rt, name: &str) -> Result<()> {
    let text = fs::read_to_string(rt, name)?;
    let table = Table::read(rt.alloc(), text.as_str())?;
    let mut tally = Tally::new(rt.alloc());
    let mut desk = folder::fresh(rt.alloc(), 0)?;
    for record in &table.records {
        let row = Row::of_record(record)?;
        let answer = answer(rt, threads, &mut desk, &row);
        tally.take(rt, rt.alloc(), &row, answer)?;
    }
    tally.tell(rt, name, &table)
}

fn main(rt: HostRuntime) -> Result<ExitCode> {
    let lines = io::read_to_string(rt.alloc(), rt.reader())?;
    for line in lines.as_str().lines() {
        if let Some(words) = line.strip_prefix("end ") {
            return runs::end_with(&rt, rt.alloc(), words);
        }
        try_rows(&rt, &rt, line)?;
    }
    Ok(ExitCode::SUCCESS)
}
