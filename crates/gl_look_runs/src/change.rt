use crate::folder::{answer, empty, files_of, put, text_of};
use anyhow::{Context, Result};
use csv::{ReaderBuilder, StringRecord};
use gl_desk::MemDesk;
use std::io;

/// A change of a day: what it shows, the day, a file, a part of its text and what stands in its
/// place, the name of the file in the folder, the words, and the expected answer: the status, and
/// what is said.
///
/// Without an old part the new text stands at the end of the file; a file that the day hasn't is
/// one more. A file whose name is `-` is left out.
#[derive(Drop)]
struct Change<'a> {
    shows: &'a str,
    day: &'a str,
    file: &'a str,
    old: &'a str,
    new: &'a str,
    name: &'a str,
    words: &'a str,
    status: &'a str,
    expected: &'a str,
}

impl<'a> Change<'a> {
    /// The change of a row, if it has all fields.
    fn of_row(row: &'a StringRecord) -> Option<Change<'a>> {
        Some(Change {
            shows: row.get(0)?,
            day: row.get(1)?,
            file: row.get(2)?,
            old: row.get(3)?,
            new: row.get(4)?,
            name: row.get(5)?,
            words: row.get(6)?,
            status: row.get(7)?,
            expected: row.get(8)?,
        })
    }
}

/// A text with the first part that is `old` replaced.
fn changed(rt: &HostRuntime, text: &str, old: &str, new: &str) -> Result<String> {
    if old.is_empty() {
        return Ok(format!(in rt.alloc(); "{text}{new}")?);
    }
    let (before, after) = text.split_once(old).context("nothing to replace")?;
    Ok(format!(in rt.alloc(); "{before}{new}{after}")?)
}

/// Puts the changed file into the folder.
fn put_changed(
    rt: &HostRuntime,
    desk: &mut MemDesk,
    change: &Change<'_>,
    text: &str,
) -> Result<()> {
    if change.name == "-" {
        return Ok(());
    }
    let text = changed(rt, text, change.old, change.new)?;
    put(rt.alloc(), desk, change.name, text.as_str())
}

/// The folder of a day with the change.
fn folder_with(rt: &HostRuntime, change: &Change<'_>) -> Result<MemDesk> {
    let mut desk = empty(rt.alloc(), 0)?;
    let mut is_known = false;
    for file in files_of(change.day).split_whitespace() {
        let text = text_of(rt, change.day, file)?;
        if file == change.file {
            is_known = true;
            put_changed(rt, &mut desk, change, text.as_str())?;
        } else {
            put(rt.alloc(), &mut desk, file, text.as_str())?;
        }
    }
    if !is_known {
        put_changed(rt, &mut desk, change, "")?;
    }
    Ok(desk)
}

/// Whether a row is answered as expected. If it isn't, it is said.
fn is_expected(rt: &HostRuntime, row: &StringRecord) -> Result<bool> {
    let change = Change::of_row(row).context("a row without nine fields")?;
    let mut desk = folder_with(rt, &change)?;
    let (number, said) = answer(rt.alloc(), &mut desk, change.words)?;
    let number = format!(in rt.alloc(); "{number}")?;
    if number.as_str() == change.status && said.as_str() == change.expected {
        return Ok(true);
    }
    println!(rt; "{}: {}", change.shows, number.as_str())?;
    print!(rt; "{}", said.as_str())?;
    Ok(false)
}

/// Tries each row of the standard input, and says how many are answered as expected.
pub fn try_all(rt: &HostRuntime) -> Result<()> {
    let rows = io::read_to_string(rt.alloc(), rt.reader())?;
    let mut reader = ReaderBuilder::new().from_reader(rt.alloc(), rows.as_bytes());
    let mut count: u64 = 0;
    for row in reader.records() {
        if is_expected(rt, &row?)? {
            count = count.saturating_add(1);
        }
    }
    println!(rt; "{count} days are answered as expected")?;
    Ok(())
}
