use crate::row::Row;
use anyhow::{Context, Result};
use csv::{ReaderBuilder, StringRecord};
use std::alloc::{AllocError, Global};

/// A table: how many rows its heading says that there are, and its records.
#[derive(Drop)]
pub struct Table {
    pub said: u64,
    pub records: Vec<StringRecord>,
}

/// How many rows a heading says that there are, by its third word.
fn rows_said(heading: &StringRecord) -> Option<u64> {
    heading.get(0)?.split(' ').nth(2)?.parse::<u64>().ok()
}

impl Table {
    /// The table of a text.
    pub fn read(alloc: Global, text: &str) -> Result<Table> {
        let mut reader = ReaderBuilder::new()
            .has_headers(false)
            .from_reader(alloc, text.as_bytes());
        let mut rest = reader.records();
        let heading = rest.next().context("a table without a heading")??;
        let said = rows_said(&heading).context("a heading that says no number of rows")?;
        let mut records = Vec::new(alloc);
        for record in rest {
            records.push(record?)?;
        }
        Ok(Table { said, records })
    }
}

/// How far a table was tried.
#[derive(Drop)]
pub struct Tally {
    /// How many rows there were.
    rows: u64,
    /// How many were answered otherwise than expected.
    wrong: u64,
    /// What the last row with a name shows.
    shows: String,
}

/// The answer to a row, or what was wrong with the row.
fn told(alloc: Global, answer: Result<String>) -> Result<String, AllocError> {
    match answer {
        Ok(answer) => Ok(answer),
        Err(e) => format!(in alloc; "an error: {e}"),
    }
}

impl Tally {
    /// No row was tried yet.
    pub fn new(alloc: Global) -> Tally {
        Tally {
            rows: 0,
            wrong: 0,
            shows: String::new(alloc),
        }
    }

    /// Notes the name of a row that has one.
    fn name(&mut self, alloc: Global, row: &Row<'_>) -> Result<(), AllocError> {
        if !row.shows.is_empty() {
            self.shows = String::from_str(alloc, row.shows)?;
        }
        Ok(())
    }

    /// Takes the answer to the next row. If another one is expected, that is said.
    pub fn take(
        &mut self,
        rt: &impl Print,
        alloc: Global,
        row: &Row<'_>,
        answer: Result<String>,
    ) -> Result<()> {
        self.name(alloc, row)?;
        self.rows = self.rows.saturating_add(1);
        let answer = told(alloc, answer)?;
        if answer.as_str() != row.expected {
            self.wrong = self.wrong.saturating_add(1);
            println!(rt; "{}: {} {}", self.shows.as_str(), row.verb, row.input)?;
            println!(rt; "  wanted: {}", row.expected)?;
            println!(rt; "  came:   {}", answer.as_str())?;
        }
        Ok(())
    }

    /// Says how many rows of a table with this name there were and how they were answered.
    pub fn tell(&self, rt: &impl Print, name: &str, table: &Table) -> Result<()> {
        let Tally { rows, wrong, .. } = self;
        let said = table.said;
        if said != *rows {
            println!(rt; "{name} says that it has {said} rows, and has {rows}")?;
        }
        if *wrong == 0 {
            println!(rt; "{name}: {rows} rows, all as expected")?;
        } else {
            println!(rt; "{name}: {wrong} of {rows} rows aren't as expected")?;
        }
        Ok(())
    }
}
