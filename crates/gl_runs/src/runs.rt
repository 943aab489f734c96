use crate::severe::Severe;
use anyhow::{Context, Result};
use gl_app::{Status, carry_out_alone, carry_out_words};
use gl_desk::{HostDesk, MemDesk, Name};
use gl_pool::OpenGate;
use gl_task::{Ceiling, EngineNoise, Steward};
use gl_words::read_workers_of;
use std::alloc::{AllocError, Global};
use std::process::ExitCode;
use std::rt::Files;
use std::sync::Wait;
use std::thread::Threads;

/// The words of a line, parted by single spaces; an empty line has none.
fn words(alloc: Global, line: &str) -> Result<Vec<Name>, AllocError> {
    let mut names = Vec::new(alloc);
    if !line.is_empty() {
        for word in line.split(' ') {
            names.push(Name::from_text(alloc, word)?)?;
        }
    }
    Ok(names)
}

/// A line that runs words, by what it wants to know of the run.
#[derive(Clone, Copy)]
pub enum Line<'a> {
    /// `run WORDS`: how the run ended, and what it said.
    Run(&'a str),
    /// `count WORDS`: the same, and how many calls of the desk it made.
    Count(&'a str),
    /// `bare WORDS`: how it ended without stewards, and what it said.
    Bare(&'a str),
    /// `first WORDS`: how it ended, and the first line of what it said.
    First(&'a str),
    /// `among WORDS | LINE | LINE`: how it ended, the first line of what it said, and whether the
    /// rest of it is one of these lines.
    Among(&'a str, &'a str),
    /// `severe WORDS`: how it ended with a steward that always owes the greatest number, and what
    /// it said.
    Severe(&'a str),
}

impl<'a> Line<'a> {
    /// The line that begins with this word; `None` where no line that runs words does.
    pub fn read(word: &str, rest: &'a str) -> Option<Line<'a>> {
        match word {
            "run" => Some(Line::Run(rest)),
            "count" => Some(Line::Count(rest)),
            "bare" => Some(Line::Bare(rest)),
            "first" => Some(Line::First(rest)),
            "severe" => Some(Line::Severe(rest)),
            "among" => {
                let (words, lines) = rest.split_once(" | ")?;
                Some(Line::Among(words, lines))
            }
            _ => None,
        }
    }

    /// The words that it runs.
    fn words(self) -> &'a str {
        match self {
            Line::Run(words)
            | Line::Count(words)
            | Line::Bare(words)
            | Line::First(words)
            | Line::Severe(words)
            | Line::Among(words, _) => words,
        }
    }
}

/// How a run ended.
#[derive(Drop)]
pub struct Ended {
    pub status: Status,
    pub said: String,
    /// How many calls of the desk it made.
    pub calls: u64,
}

/// Runs the words of a line, with the two stewards of the program, or with those that the line
/// wants.
pub fn end_of<Rt: Threads + Wait + Sync>(
    rt: &Rt,
    alloc: Global,
    desk: &mut MemDesk,
    line: Line<'_>,
) -> Result<Ended> {
    let mut stewards: Vec<Box<dyn Steward>> = Vec::new(alloc);
    match line {
        Line::Bare(_) => {}
        Line::Severe(_) => stewards.push(Box::new(alloc, Severe)?)?,
        _ => {
            stewards.push(Box::new(alloc, Ceiling::new())?)?;
            stewards.push(Box::new(alloc, EngineNoise::new())?)?;
        }
    }
    let calls = desk.calls();
    let length = desk.printed().len();
    let words = words(alloc, line.words())?;
    let status = gl_app::run(rt, alloc, &words, desk, &OpenGate, &mut stewards);
    let said = desk.printed().get(length..).unwrap_or(b"");
    Ok(Ended {
        status,
        said: String::from_str(alloc, str::from_utf8(said)?)?,
        calls: desk.calls().saturating_sub(calls),
    })
}

/// Carries out words in the folder of `data/` as the installed program does, and answers what it
/// ends with.
pub fn end_with<Rt: Files + Print + Threads + Wait + Sync>(
    rt: &Rt,
    alloc: Global,
    line: &str,
) -> Result<ExitCode> {
    let words = words(alloc, line)?;
    let mut desk = HostDesk::new(rt);
    Ok(if read_workers_of(&words).count == 1 {
        carry_out_alone(alloc, &words, &mut desk)
    } else {
        carry_out_words(rt, alloc, &words, &mut desk)
    })
}

/// The first line of what was said, and whether the rest is among the lines, which are parted by
/// ` | `.
fn among(alloc: Global, said: &str, lines: &str) -> Result<String> {
    let (total, fixes) = said.split_once('\n').context("one line")?;
    let lines = lines.replace(alloc, " | ", "\n")?;
    let lines = format!(in alloc; "\n{lines}\n")?;
    let rest = format!(in alloc; "\n{fixes}")?;
    let is_line = !fixes.is_empty() && fixes.ends_with('\n');
    let is_right = is_line && lines.as_str().contains(rest.as_str());
    Ok(format!(in alloc; "{total}\nright fixes: {is_right}")?)
}

/// What a line wants to know of a run.
fn told(alloc: Global, line: Line<'_>, ended: &Ended) -> Result<String> {
    let status = ended.status;
    let said = ended.said.as_str();
    let told = match line {
        Line::Run(_) | Line::Bare(_) | Line::Severe(_) => {
            format!(in alloc; "{status:?}\n{said}")?
        }
        Line::Count(_) => {
            let calls = ended.calls;
            format!(in alloc; "{status:?} by {calls} calls\n{said}")?
        }
        Line::First(_) => {
            let first = said.lines().next().unwrap_or("");
            format!(in alloc; "{status:?}\n{first}")?
        }
        Line::Among(_, lines) => {
            let among = among(alloc, said, lines)?;
            format!(in alloc; "{status:?}\n{among}")?
        }
    };
    Ok(told)
}

/// Runs the words of a line, and answers what the line wants to know.
pub fn run<Rt: Threads + Wait + Sync>(
    rt: &Rt,
    alloc: Global,
    desk: &mut MemDesk,
    line: Line<'_>,
) -> Result<String> {
    let ended = end_of(rt, alloc, desk, line)?;
    told(alloc, line, &ended)
}
