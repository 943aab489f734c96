use anyhow::Result;
use gl_demo::generated_day;
use gl_desk::{Desk, MemDesk, Name};
use std::alloc::{AllocError, Global};
use std::{fs, str};

/// The files of a day in `data/`.
pub fn files_of(day: &str) -> &'static str {
    if day == "area-day" {
        "DAY.TOML AA.IGC BB.IGC CC.IGC EE.IGC AIR.TXT"
    } else {
        "DAY.TOML AA.IGC CC.IGC DD.IGC"
    }
}

/// The text of a file of a day, which stands in `data/` behind the name of its day.
pub fn text_of(rt: &HostRuntime, day: &str, file: &str) -> Result<String> {
    let path = format!(in rt.alloc(); "{day}.{file}")?;
    Ok(fs::read_to_string(rt, path.as_str())?)
}

/// A folder without files, whose call with this number fails.
pub fn empty(alloc: Global, failing: u64) -> Result<MemDesk> {
    let mut failures = Vec::new(alloc);
    if failing > 0 {
        failures.push(failing)?;
    }
    Ok(MemDesk::new(alloc, Vec::new(alloc), failures)?)
}

/// Puts a file into a folder.
pub fn put(alloc: Global, desk: &mut MemDesk, name: &str, text: &str) -> Result<()> {
    let name = Name::from_text(alloc, name)?;
    desk.append(alloc, &name, text.as_bytes())?;
    Ok(())
}

/// The words of a text, which blanks part.
fn words_of(alloc: Global, text: &str) -> Result<Vec<Name>, AllocError> {
    let mut words = Vec::new(alloc);
    for word in text.split_whitespace() {
        words.push(Name::from_text(alloc, word)?)?;
    }
    Ok(words)
}

/// The number of the status with which a run ends.
fn number_of(alloc: Global, desk: &mut MemDesk, words: &str) -> Result<u8> {
    let names = words_of(alloc, words)?;
    if words.starts_with("why") {
        Ok(gl_why::run(alloc, &names, desk).number())
    } else {
        Ok(gl_look::run(alloc, &names, desk).number())
    }
}

/// What the words are answered in a folder: the number of the status, and what is said.
pub fn answer(alloc: Global, desk: &mut MemDesk, words: &str) -> Result<(u8, String)> {
    let number = number_of(alloc, desk, words)?;
    let said = str::from_utf8(desk.printed())?;
    Ok((number, String::from_str(alloc, said)?))
}

/// The number of a run that the desk failed.
const FAILED: u8 = 3;

/// The number of a run with nothing to remark.
const CLEAR: u8 = 0;

/// Says how runs over the racing day end in which one call fails, and how many of them said
/// nothing. The folder is made by four calls, and a run makes one to list it, two for each file that
/// it reads, and one to say its answer.
pub fn try_failing(rt: &HostRuntime) -> Result<()> {
    let mut failed: u64 = 0;
    let mut silent: u64 = 0;
    for call in 5u64..LAST {
        let mut desk = empty(rt.alloc(), call)?;
        for file in files_of("racing-day").split_whitespace() {
            let text = text_of(rt, "racing-day", file)?;
            put(rt.alloc(), &mut desk, file, text.as_str())?;
        }
        let (number, said) = answer(rt.alloc(), &mut desk, "look-over DAY.TOML")?;
        if number == FAILED {
            failed = failed.saturating_add(1);
        }
        if said.is_empty() {
            silent = silent.saturating_add(1);
        }
    }
    println!(rt; "{failed} runs failed, {silent} without a word")?;
    Ok(())
}

/// The number behind that of the last call of a run over the racing day: four make the folder, one
/// lists it, two read each of the task file and three recordings, and one says the answer.
const LAST: u64 = 15;

/// Says how many of the first generated days have no remark.
pub fn try_generated(rt: &HostRuntime) -> Result<()> {
    let mut clear: u64 = 0;
    for day in 1u32..6 {
        let files = generated_day(rt.alloc(), day)?;
        let mut desk = MemDesk::new(rt.alloc(), files, Vec::new(rt.alloc()))?;
        let (number, said) = answer(rt.alloc(), &mut desk, "look-over DAY.TOML")?;
        if number == CLEAR && said.is_empty() {
            clear = clear.saturating_add(1);
        } else {
            println!(rt; "day {day}: {said}")?;
        }
    }
    println!(rt; "{clear} of 5 generated days have no remark")?;
    Ok(())
}
