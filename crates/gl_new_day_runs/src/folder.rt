use anyhow::{Context, Result};
use gl_desk::{Desk, MemDesk, Name};
use gl_draft::{Status, run};
use std::alloc::{AllocError, Global};
use std::{fs, str};

/// Appends a text to a file.
fn append(alloc: Global, desk: &mut MemDesk, name: &str, text: &[u8]) -> Result<()> {
    let name = Name::from_text(alloc, name)?;
    desk.append(alloc, &name, text)?;
    Ok(())
}

/// Appends the recordings of a text, each of which stands behind a line with its name.
fn append_recordings(alloc: Global, desk: &mut MemDesk, recordings: &str) -> Result<()> {
    for part in recordings.split("== ").skip(1) {
        let (name, text) = part.split_once('\n').context("a recording without a text")?;
        append(alloc, desk, name, text.as_bytes())?;
    }
    Ok(())
}

/// A folder with recordings and a file of a task, whose call with this number fails.
fn folder(alloc: Global, recordings: &str, cup: &[u8], failing: u64) -> Result<MemDesk> {
    let mut failures = Vec::new(alloc);
    if failing > 0 {
        failures.push(failing)?;
    }
    let mut desk = MemDesk::new(alloc, Vec::new(alloc), failures)?;
    append_recordings(alloc, &mut desk, recordings)?;
    append(alloc, &mut desk, "TASK.CUP", cup)?;
    append(alloc, &mut desk, "NOTE.TXT", b"not a recording")?;
    Ok(desk)
}

/// The words of a text, which blanks part.
fn words_of(alloc: Global, text: &str) -> Result<Vec<Name>, AllocError> {
    let mut words = Vec::new(alloc);
    for word in text.split_whitespace() {
        words.push(Name::from_text(alloc, word)?)?;
    }
    Ok(words)
}

/// What the words are answered in a folder with recordings and a file of a task: the status, and
/// what is said.
pub fn answer(
    alloc: Global,
    recordings: &str,
    cup: &[u8],
    words: &str,
) -> Result<(Status, String)> {
    let mut desk = folder(alloc, recordings, cup, 0)?;
    let status = run(alloc, &words_of(alloc, words)?, &mut desk);
    let said = str::from_utf8(desk.printed())?;
    Ok((status, String::from_str(alloc, said)?))
}

/// Says what is made of a task of a file of `data/`.
pub fn show(rt: &HostRuntime, file: &str, number: &str) -> Result<()> {
    let recordings = fs::read_to_string(rt, "recordings.txt")?;
    let cup = fs::read(rt, file)?;
    let words = format!(in rt.alloc(); "TASK.CUP {number}")?;
    let (_, said) = answer(rt.alloc(), recordings.as_str(), &cup, words.as_str())?;
    println!(rt; "{file} {number}:")?;
    print!(rt; "{}", said.as_str())?;
    Ok(())
}

/// Says how runs end in which one call of the desk fails, and how many of them said nothing. The
/// folder is made by five calls, and a run makes one to list it, two for each file, and one to say
/// its answer.
pub fn try_failing(rt: &HostRuntime) -> Result<()> {
    let recordings = fs::read_to_string(rt, "recordings.txt")?;
    let cup = fs::read(rt, "club.cup")?;
    let mut failed: u64 = 0;
    let mut silent: u64 = 0;
    for number in 6u64..16 {
        let mut desk = folder(rt.alloc(), recordings.as_str(), &cup, number)?;
        let words = words_of(rt.alloc(), "TASK.CUP 1")?;
        if run(rt.alloc(), &words, &mut desk) == Status::Desk {
            failed = failed.saturating_add(1);
        }
        if number < 15 && desk.printed().is_empty() {
            silent = silent.saturating_add(1);
        }
    }
    println!(rt;
        "{failed} of 10 runs failed, {silent} without a word before they could say something"
    )?;
    Ok(())
}

/// A recording of so many fixes, one a second from midnight on.
fn fixes_of(alloc: Global, count: u64) -> Result<String> {
    let mut text = String::from_str(alloc, "== fixes.igc\nAXXX\nHFDTE180726\n")?;
    for second in 0..count {
        let hours = second / 3_600 % 24;
        let minutes = second / 60 % 60;
        let seconds = second % 60;
        let time = format!(in alloc; "{hours:02}{minutes:02}{seconds:02}")?;
        text.push_str("B")?;
        text.push_str(time.as_str())?;
        text.push_str("0000000N00000000EA0100001000\n")?;
    }
    Ok(text)
}

/// The recording of a name, whose last line stands so many times in it.
fn long_recording(alloc: Global, name: &str, line: &str, times: u64) -> Result<String, AllocError> {
    let mut text = format!(in alloc; "== {name}\nAXXX\nHFDTE180726\n")?;
    for _ in 0..times {
        text.push_str(line)?;
    }
    Ok(text)
}

/// Says what stands above the file of a recording that is too long, where the task file is made of
/// it alone.
fn show_long(rt: &HostRuntime, recording: &str) -> Result<()> {
    let cup = fs::read(rt, "xcsoar.cup")?;
    let (_, said) = answer(rt.alloc(), recording, &cup, "TASK.CUP")?;
    for line in said.as_str().lines() {
        if line.contains("REFUSED") || line.starts_with("file") {
            println!(rt; "{line}")?;
        }
    }
    Ok(())
}

/// Says what is remarked of a recording of too many fixes, and of one of too many bytes.
pub fn show_long_recordings(rt: &HostRuntime) -> Result<()> {
    let fixes = fixes_of(rt.alloc(), 90_001)?;
    show_long(rt, fixes.as_str())?;
    let bytes = long_recording(rt.alloc(), "bytes.igc", "LXXXXXXXXXXXXXX\n", 1_048_576)?;
    show_long(rt, bytes.as_str())
}
