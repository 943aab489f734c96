use anyhow::{Context, Result};
use gl_desk::{Desk, MemDesk, Name};
use std::alloc::{AllocError, Global};
use std::fs;

/// The place of every fix of a long recording, as recordings write it.
const ORIGIN: &str = "0000000N00000000E";

/// An empty folder, whose call with this number fails. Its calls are counted from 1.
pub fn fresh(alloc: Global, failing: u64) -> Result<MemDesk, AllocError> {
    let mut failures = Vec::new(alloc);
    if failing > 0 {
        failures.push(failing)?;
    }
    MemDesk::new(alloc, Vec::new(alloc), failures)
}

/// An empty folder, of whose files one call reads at most so many bytes, at least one.
pub fn short(alloc: Global, most: u64) -> Result<MemDesk, AllocError> {
    MemDesk::short(alloc, Vec::new(alloc), Vec::new(alloc), most.max(1))
}

/// A folder with the same files, whose call with this number fails, counted behind those that put
/// the files there. None fails if it is 0.
pub fn twin(alloc: Global, desk: &mut MemDesk, failing: u64) -> Result<MemDesk> {
    let names = desk.names(alloc)?;
    let before = if failing == 0 { 0 } else { names.len() as u64 };
    let mut made = fresh(alloc, before.saturating_add(failing))?;
    for name in &names {
        made.append(alloc, name, desk.file(name).unwrap_or(b""))?;
    }
    Ok(made)
}

/// A folder with the same files, but for one, which has this text.
pub fn twin_but(alloc: Global, desk: &mut MemDesk, one: &Name, text: &str) -> Result<MemDesk> {
    let names = desk.names(alloc)?;
    let mut made = fresh(alloc, 0)?;
    for name in &names {
        if name == one {
            made.append(alloc, name, text.as_bytes())?;
        } else {
            made.append(alloc, name, desk.file(name).unwrap_or(b""))?;
        }
    }
    Ok(made)
}

/// The text, in which `\n` and `\r` stand for the ends of lines.
fn unescaped(alloc: Global, text: &str) -> Result<String, AllocError> {
    text.replace(alloc, "\\n", "\n")?
        .as_str()
        .replace(alloc, "\\r", "\r")
}

/// Appends a text to a file by one call.
fn append(alloc: Global, desk: &mut MemDesk, name: &str, text: &str) -> Result<()> {
    let name = Name::from_text(alloc, name)?;
    desk.append(alloc, &name, text.as_bytes())?;
    Ok(())
}

/// `add NAME TEXT` appends the text to the file.
pub fn add(rt: &HostRuntime, desk: &mut MemDesk, rest: &str) -> Result<()> {
    let (name, text) = rest.split_once(' ').context("a name and a text")?;
    let text = unescaped(rt.alloc(), text)?;
    append(rt.alloc(), desk, name, text.as_str())
}

/// `copy NAME FILE` appends what a file of `data/` has.
pub fn copy(rt: &HostRuntime, desk: &mut MemDesk, rest: &str) -> Result<()> {
    let (name, file) = rest.split_once(' ').context("a name and a file")?;
    let text = fs::read_to_string(rt, file)?;
    append(rt.alloc(), desk, name, text.as_str())
}

/// What a file of `data/` has, with its first part that is `OLD` replaced: `OLD -> NEW`.
pub fn changed(rt: &HostRuntime, file: &str, change: &str) -> Result<String> {
    let (old, new) = change.split_once(" -> ").context("two texts")?;
    let old = unescaped(rt.alloc(), old)?;
    let new = unescaped(rt.alloc(), new)?;
    let text = fs::read_to_string(rt, file)?;
    let (before, after) = text
        .as_str()
        .split_once(old.as_str())
        .context("no such part")?;
    Ok(format!(in rt.alloc(); "{before}{new}{after}")?)
}

/// `change NAME FILE OLD -> NEW` appends what a file of `data/` has, changed so.
pub fn change(rt: &HostRuntime, desk: &mut MemDesk, rest: &str) -> Result<()> {
    let (name, rest) = rest.split_once(' ').context("a name")?;
    let (file, rest) = rest.split_once(' ').context("a file")?;
    let text = changed(rt, file, rest)?;
    append(rt.alloc(), desk, name, text.as_str())
}

/// `times COUNT NAME TEXT` appends the text so many times by one call.
pub fn times(rt: &HostRuntime, desk: &mut MemDesk, rest: &str) -> Result<()> {
    let (count, rest) = rest.split_once(' ').context("a count")?;
    let (name, text) = rest.split_once(' ').context("a name and a text")?;
    let text = unescaped(rt.alloc(), text)?;
    let mut all = String::new(rt.alloc());
    for _ in 0..count.parse::<u32>()? {
        all.push_str(text.as_str())?;
    }
    append(rt.alloc(), desk, name, all.as_str())
}

/// `seconds COUNT NAME` appends so many fixes a second apart from midnight on, across the next one,
/// at one place.
pub fn seconds(rt: &HostRuntime, desk: &mut MemDesk, rest: &str) -> Result<()> {
    let (count, name) = rest.split_once(' ').context("a count and a name")?;
    let mut all = String::new(rt.alloc());
    for second in 0..count.parse::<u32>()? {
        let time = second % 86_400;
        let (hour, minute, second) = (time / 3_600, time / 60 % 60, time % 60);
        let line = format!(in rt.alloc(); "B{hour:02}{minute:02}{second:02}{ORIGIN}A0100001000\n")?;
        all.push_str(line.as_str())?;
    }
    append(rt.alloc(), desk, name, all.as_str())
}

/// `behind NAME TEXT`: what the file has behind the first place where the text stands.
pub fn behind(alloc: Global, desk: &MemDesk, rest: &str) -> Result<String> {
    let (name, part) = rest.split_once(' ').context("a name and a text")?;
    let bytes = desk.file(&Name::from_text(alloc, name)?).unwrap_or(b"");
    let text = str::from_utf8(bytes)?;
    let (_, after) = text.split_once(part).context("no such part")?;
    Ok(String::from_str(alloc, after)?)
}

/// `show NAME`: what the file has, or `none`.
pub fn show(alloc: Global, desk: &MemDesk, name: &str) -> Result<String> {
    match desk.file(&Name::from_text(alloc, name)?) {
        Some(bytes) => Ok(String::from_str(alloc, str::from_utf8(bytes)?)?),
        None => Ok(String::from_str(alloc, "none")?),
    }
}
