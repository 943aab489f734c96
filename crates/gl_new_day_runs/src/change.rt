use crate::folder::answer;
use anyhow::{Context, Result};
use csv::{ReaderBuilder, StringRecord};
use gl_draft::Status;
use std::{fs, io};

/// The file with the recordings of the folder.
const RECORDINGS: &str = "recordings.txt";

/// A change of a file: what it shows, the file, a part of its text, what stands in its place, the
/// words, and the expected answer: the status, and what is said or a part of it.
#[derive(Drop)]
struct Change<'a> {
    shows: &'a str,
    file: &'a str,
    old: &'a str,
    new: &'a str,
    words: &'a str,
    status: &'a str,
    expected: &'a str,
}

impl<'a> Change<'a> {
    /// The change of a row, if it has all fields.
    fn of_row(row: &'a StringRecord) -> Option<Change<'a>> {
        Some(Change {
            shows: row.get(0)?,
            file: row.get(1)?,
            old: row.get(2)?,
            new: row.get(3)?,
            words: row.get(4)?,
            status: row.get(5)?,
            expected: row.get(6)?,
        })
    }
}

/// The text of a file with the first part that is `old` replaced.
fn changed(rt: &HostRuntime, file: &str, old: &str, new: &str) -> Result<String> {
    let text = fs::read_to_string(rt, file)?;
    let (before, after) = text.as_str().split_once(old).context("nothing to replace")?;
    Ok(format!(in rt.alloc(); "{before}{new}{after}")?)
}

/// What the words are answered with a changed file in the folder.
fn answer_with(rt: &HostRuntime, file: &str, text: &str, words: &str) -> Result<(Status, String)> {
    if file == RECORDINGS {
        let cup = fs::read(rt, "xcsoar.cup")?;
        return answer(rt.alloc(), text, &cup, words);
    }
    let recordings = fs::read_to_string(rt, RECORDINGS)?;
    answer(rt.alloc(), recordings.as_str(), text.as_bytes(), words)
}

/// Whether a row is answered as expected. If it isn't, it is said.
fn is_expected(rt: &HostRuntime, row: &StringRecord) -> Result<bool> {
    let change = Change::of_row(row).context("a row without seven fields")?;
    let text = changed(rt, change.file, change.old, change.new)?;
    let (status, said) = answer_with(rt, change.file, text.as_str(), change.words)?;
    let number = format!(in rt.alloc(); "{}", status.number())?;
    if number.as_str() == change.status && said.as_str().contains(change.expected) {
        return Ok(true);
    }
    println!(rt;
        "{}: {} in place of {}: {} {}",
        change.shows,
        change.new,
        change.old,
        number.as_str(),
        said.as_str()
    )?;
    Ok(false)
}

/// Tries each row of the standard input, and says how many are answered as expected.
pub fn try_all(rt: &HostRuntime) -> Result<()> {
    let rows = io::read_to_string(rt.alloc(), rt.reader())?;
    let mut reader = ReaderBuilder::new().from_reader(rt.alloc(), rows.as_bytes());
    let mut count: u64 = 0;
    for row in reader.records() {
        if is_expected(rt, &row?)? {
            count = count.saturating_add(1);
        }
    }
    println!(rt; "{count} changed files are answered as expected")?;
    Ok(())
}
