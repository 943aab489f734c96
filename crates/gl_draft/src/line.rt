ghost use Rattle.std.specs.Prelude.{◌≡◌, ◌++◌, IfOk, OnOk, map};
ghost use Rattle.gl_draft.specs.Line.{filled_in, line_with, radials_text, shown, text_with, trial};

use crate::value::{Value, push_value};
use crate::word::{Key, Section};
use gl_text::{push_fixed, push_u64};
use std::alloc::{AllocError, Global};

/// A line of a task file that is made.
#[derive(Debug, Drop)]
pub enum Line {
    /// An empty line.
    Gap,
    Remark(String),
    /// The line that begins a section.
    Head(Section),
    Said(Key, Value),
    /// A key whose value the scorer fills in; entrants are told apart by a number.
    Open(Key, u64),
    /// A remark: the two radials of a sector, if it lies about the first direction. All are in
    /// thousandths of a degree.
    Radials(u32, u32, u32),
}

/// How the keys that are left to fill in are written.
#[derive(Clone, Copy, Debug, PartialEq, Eq)]
pub enum Filling {
    /// With the mark.
    Mark,
    /// With some value.
    Trial,
}

/// Appends some value for a key that is left to fill in.
fn push_trial(text: &mut Vec<u8>, key: Key, n: u64) -> Result<(), AllocError>
    ensures { OnOk result (text.new.items ≡ text.old.items ++ trial key n) }
{
    match key {
        Key::Date => text.extend_from_slice(b"\"2000-01-01\""),
        Key::Minimum => text.extend_from_slice(b"1"),
        Key::Closes | Key::Close => text.extend_from_slice(b"100000"),
        Key::Number => {
            text.extend_from_slice(b"\"TRIAL")?;
            push_u64(text, n)?;
            text.extend_from_slice(b"\"")
        }
        _ => text.extend_from_slice(b"0"),
    }
}

/// Appends a byte of a remark.
fn push_remark(text: &mut Vec<u8>, remark: &str) -> Result<(), AllocError>
    ensures { OnOk result (text.new.items ≡ text.old.items ++ map shown remark.now) }
{
    let bytes = remark.as_bytes();
    'bytes: for &byte in bytes {
        text.push(if byte >= 32 && byte != 127 {
            byte
        } else {
            b'?'
        })?;
    }
    Ok(())
}

/// Appends the radials that a sector has if it lies about a direction.
#[tactic(auto, unfolding(crate::specs::Line::radials_text))]
fn push_radials(text: &mut Vec<u8>, middle: u32, from: u32, to: u32) -> Result<(), AllocError>
    ensures { OnOk result (text.new.items ≡ text.old.items ++ radials_text middle from to) }
{
    text.extend_from_slice(b"# about ")?;
    push_fixed(text, u64::from(middle), 3)?;
    text.extend_from_slice(b": from = ")?;
    push_u64(text, u64::from(from))?;
    text.extend_from_slice(b", to = ")?;
    push_u64(text, u64::from(to))?;
    text.extend_from_slice(b"\n")
}

/// Appends what stands for the value of a key that is left to fill in.
fn push_filling(text: &mut Vec<u8>, filling: Filling, key: Key, n: u64) -> Result<(), AllocError>
    ensures { OnOk result (text.new.items ≡ text.old.items ++ filled_in filling key n) }
{
    match filling {
        Filling::Mark => text.extend_from_slice(b"\"FILL IN\""),
        Filling::Trial => push_trial(text, key, n),
    }
}

/// Appends a line.
fn push_line(text: &mut Vec<u8>, filling: Filling, line: &Line) -> Result<(), AllocError>
    ensures { OnOk result (text.new.items ≡ text.old.items ++ line_with filling line.now) }
{
    match line {
        Line::Gap => text.extend_from_slice(b"\n"),
        Line::Remark(remark) => {
            text.extend_from_slice(b"# ")?;
            push_remark(text, remark.as_str())?;
            text.extend_from_slice(b"\n")
        }
        Line::Head(section) => {
            text.extend_from_slice(section.head().as_bytes())?;
            text.extend_from_slice(b"\n")
        }
        Line::Said(key, value) => {
            text.extend_from_slice(key.name().as_bytes())?;
            text.extend_from_slice(b" = ")?;
            push_value(text, value)?;
            text.extend_from_slice(b"\n")
        }
        Line::Open(key, n) => {
            text.extend_from_slice(key.name().as_bytes())?;
            text.extend_from_slice(b" = ")?;
            push_filling(text, filling, *key, *n)?;
            text.extend_from_slice(b"\n")
        }
        Line::Radials(middle, from, to) => push_radials(text, *middle, *from, *to),
    }
}

/// The text of lines.
pub fn text_with(alloc: Global, filling: Filling, lines: &[Line]) -> Result<Vec<u8>, AllocError>
    ensures { IfOk result (λ text. text.items ≡ text_with filling lines.now) }
{
    let mut text = Vec::new(alloc);
    'lines: for line in lines {
        push_line(&mut text, filling, line)?;
    }
    Ok(text)
}
