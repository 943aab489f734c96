//! Worked examples of the task file, over the files of `data/`.

use crate::folder::changed;
use anyhow::{Result, bail};
use gl_task::Task;
use gl_task_file::{TaskError, read_task};
use gl_zone::Zone;
use std::alloc::{AllocError, Global};
use std::fs;

/// What a text is answered: `ok`, or why it is refused and at which key.
fn told(alloc: Global, text: &[u8]) -> Result<String, AllocError> {
    match read_task(alloc, text) {
        Ok(_) => String::from_str(alloc, "ok"),
        Err(TaskError::Toml) => String::from_str(alloc, "toml"),
        Err(TaskError::Missing(key)) => format!(in alloc; "missing {key}"),
        Err(TaskError::Value(key)) => format!(in alloc; "value {key}"),
        Err(TaskError::Twice(key)) => format!(in alloc; "twice {key}"),
        Err(TaskError::TooMany(key)) => format!(in alloc; "too many {key}"),
        Err(TaskError::Memory) => Err(AllocError),
    }
}

/// `ended FILE BYTE`: what the task is answered that ends with a comment of this byte.
fn ended(rt: &HostRuntime, file: &str, byte: &str) -> Result<String> {
    let mut text = fs::read(rt, file)?;
    text.extend_from_slice(&[b'#', byte.parse::<u8>()?, b'\n'])?;
    Ok(told(rt.alloc(), &text)?)
}

/// The day, the kind, the end and the airspace file of a task.
fn push_day(text: &mut String, task: &Task) -> Result<(), AllocError> {
    write!(text, "day {}, {:?}, ", task.date, task.kind)?;
    write!(text, "closes {}\n", task.closes)?;
    match task.airspace.as_ref() {
        Some(name) => write!(text, "airspace {}\n", name.as_str()),
        None => text.push_str("no airspace\n"),
    }
}

/// The centre and the parts of a zone.
fn push_zone(text: &mut String, zone: &Zone) -> Result<(), AllocError> {
    write!(text, "zone at {:?}\n", zone.centre)?;
    for part in zone.parts.as_slice() {
        write!(text, "{part:?}\n")?;
    }
    Ok(())
}

/// The start, the zones and the finish of a task.
fn push_course(text: &mut String, task: &Task) -> Result<(), AllocError> {
    write!(text, "{:?}\n", task.start)?;
    for zone in task.zones.as_slice() {
        push_zone(text, zone)?;
    }
    write!(text, "{:?}\n", task.finish)
}

/// Which lists a task asks for, and its rules.
fn push_rules(text: &mut String, task: &Task) -> Result<(), AllocError> {
    write!(text, "free: {}, triangle: {}\n", task.free, task.triangle)?;
    write!(text, "{:?}\n", task.rules)
}

/// A line for each entrant.
fn push_entrants(text: &mut String, task: &Task) -> Result<(), AllocError> {
    for entrant in task.entrants.as_slice() {
        let (number, name) = (entrant.number.as_str(), entrant.name.as_str());
        write!(text, "{number}, {name}, ")?;
        write!(text, "{}, {}\n", entrant.handicap, entrant.file.as_str())?;
    }
    Ok(())
}

/// `whole FILE`: all of a task.
fn whole(rt: &HostRuntime, file: &str) -> Result<String> {
    let task = read_task(rt.alloc(), &fs::read(rt, file)?)?;
    let mut text = String::new(rt.alloc());
    push_day(&mut text, &task)?;
    push_course(&mut text, &task)?;
    push_rules(&mut text, &task)?;
    push_entrants(&mut text, &task)?;
    Ok(text)
}

/// The answer to a row of tasks; `task FILE OLD -> NEW` is what the changed task is answered.
pub fn answer(rt: &HostRuntime, verb: &str, input: &str) -> Result<String> {
    let (file, rest) = input.split_once(' ').unwrap_or((input, ""));
    match verb {
        "task" => Ok(told(rt.alloc(), changed(rt, file, rest)?.as_str().as_bytes())?),
        "ended" => ended(rt, file, rest),
        "whole" => whole(rt, file),
        _ => bail!("no verb of tasks"),
    }
}
