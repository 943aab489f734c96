//! Worked examples of the parts below the commands, as a program: each line of `stdin` names a table
//! of `data/`, whose rows have a verb, what it is given, and the answer that is expected. The
//! program says which rows are answered otherwise, and how many there are. The gate compares what it
//! says with `stdout`. The expected answers were computed by hand or by an independent program, but
//! for `WRONG.CSV`, which shows that a wrong row and a lost one are noticed.
#![tactic(auto)]

mod airspace;
mod days;
mod flights;
mod goals;
mod numbers;
mod proofs;
mod recordings;
mod sphere;
mod tasks;
mod texts;
mod walks;
mod zones;

use anyhow::{Result, bail};
use gl_rows::{Row, Table, Tally};
use std::{fs, io};

/// The answer to a row of the table with this name.
fn answer(rt: &HostRuntime, table: &str, row: &Row<'_>) -> Result<String> {
    let alloc = rt.alloc();
    match table {
        "TEXTS.CSV" | "WRONG.CSV" => texts::answer(alloc, row.verb, row.input),
        "SPHERE.CSV" => sphere::answer(alloc, row.verb, row.input),
        "ZONES.CSV" => zones::answer(alloc, row.verb, row.input),
        "RECORDINGS.CSV" => recordings::answer(alloc, row.verb, row.input),
        "AIRSPACE.CSV" => airspace::answer(rt, row.verb, row.input),
        "FLIGHTS.CSV" => flights::answer(rt, row.verb, row.input),
        "GOALS.CSV" => goals::answer(alloc, row.verb, row.input),
        "PROOFS.CSV" => proofs::answer(alloc, row.verb, row.input),
        "WALKS.CSV" => walks::answer(alloc, row.verb, row.input),
        "DAYS.CSV" => days::answer(alloc, row.verb, row.input),
        _ => bail!("a table without verbs"),
    }
}

/// Tries the rows of a table.
fn try_rows(rt: &HostRuntime, name: &str) -> Result<()> {
    let text = fs::read_to_string(rt, name)?;
    let table = Table::read(rt.alloc(), text.as_str())?;
    let mut tally = Tally::new(rt.alloc());
    for record in &table.records {
        let row = Row::of_record(record)?;
        tally.take(rt, rt.alloc(), &row, answer(rt, name, &row))?;
    }
    tally.tell(rt, name, &table)
}

fn main(rt: HostRuntime) -> Result<()> {
    let tables = io::read_to_string(rt.alloc(), rt.reader())?;
    for name in tables.as_str().lines() {
        try_rows(&rt, name)?;
    }
    Ok(())
}
