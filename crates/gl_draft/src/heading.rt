ghost use Rattle.std.specs.Prelude.{◌≡◌, ◌==◌, IfOk, option_map, position};
ghost use Rattle.std.specs.Str.{byte};
ghost use Rattle.gl_draft.specs.Heading.{has_form, is_headed, kept, letters_of, plain_text, said_in, said_in_line, value_of};

use crate::plain::{plain_text, read_utf8};
use gl_desk::Name;
use gl_text::{is_name, is_number, next_line};
use std::alloc::{AllocError, Global};

/// What the H lines of a recording say of who flew.
#[derive(Clone, Copy, Debug, PartialEq, Eq)]
pub enum Said {
    /// The competition number.
    Number,
    /// The pilot's name.
    Pilot,
}

/// The three letters of the lines that say it.
fn letters_of(what: Said) -> &'static [u8]
    ensures { result.now ≡ letters_of what }
{
    match what {
        Said::Number => b"CID",
        Said::Pilot => b"PLT",
    }
}

/// Whether a text has the form.
fn has_form(what: Said, text: &str) -> bool
    ensures { result ≡ has_form what text.now }
{
    match what {
        Said::Number => is_number(text),
        Said::Pilot => is_name(text),
    }
}

/// The text of some bytes, where it has the form.
pub fn read_kept(alloc: Global, what: Said, bytes: &[u8]) -> Result<Option<Name>, AllocError>
    ensures { IfOk result (λ name. name ≡ kept what (plain_text bytes.now)) }
{
    let text = plain_text(alloc, bytes)?;
    if has_form(what, text.as_str()) {
        Ok(Some(Name::from_text(alloc, text.as_str())?))
    } else {
        Ok(None)
    }
}

/// Whether a line is an H line with three letters.
fn is_headed(letters: &[u8], line: &[u8]) -> bool
    ensures { result ≡ is_headed letters.now line.now }
{
    line.len() >= 5 && line[0] == b'H' && &line[2..5] == letters
}

/// Where the first colon of a line stands.
fn colon_in(line: &[u8]) -> Option<usize>
    ensures { result ≡ position (λ c. c == byte ":") line.now }
{
    line.iter().position(|byte| *byte == b':')
}

/// What an H line with three letters says behind its first colon. None of another line.
#[tactic(auto, unfolding(crate::specs::Heading::value_of))]
fn value_of<'a>(letters: &[u8], line: &'a [u8]) -> Option<&'a [u8]>
    ensures { option_map (λ value. value.now) result ≡ value_of letters.now line.now }
{
    if !is_headed(letters, line) {
        return None;
    }
    let colon = colon_in(line)?;
    Some(&line[colon + 1..])
}

/// What a line says of who flew, where it has the form.
fn said_in_line(alloc: Global, what: Said, line: &[u8]) -> Result<Option<Name>, AllocError>
    ensures { IfOk result (λ name. name ≡ said_in_line what line.now) }
{
    match value_of(letters_of(what), line) {
        Some(value) => read_kept(alloc, what, value),
        None => Ok(None),
    }
}

/// How a text of a recording is read that isn't plain.
#[derive(Clone, Copy, Debug, PartialEq, Eq)]
pub struct Spelling {
    /// It isn't UTF-8, and is read as Latin-1.
    pub is_latin: bool,
    /// It has control characters, which are dropped.
    pub has_controls: bool,
}

/// How some bytes are read.
fn spelling_of(bytes: &[u8]) -> Spelling {
    Spelling {
        is_latin: read_utf8(bytes).is_none(),
        has_controls: bytes.iter().any(|byte| *byte < 32 || *byte == 127),
    }
}

/// What a recording says of who flew, which is the first of its lines that says it in the form, and
/// how this line is read.
#[tactic(auto, unfolding(crate::specs::Heading::said_in))]
pub fn said_in(
    alloc: Global,
    what: Said,
    text: &[u8],
) -> Result<(Option<Name>, Option<Spelling>), AllocError>
    ensures { IfOk result (λ said. said.0 ≡ said_in what text.now) }
{
    let mut at = 0;
    'lines: while let Some(line) = next_line(text, at) {
        let bytes = &text[line.from..line.to];
        let found = said_in_line(alloc, what, bytes)?;
        if found.is_some() {
            return Ok((found, Some(spelling_of(bytes))));
        }
        at = line.next;
    }
    Ok((None, None))
}
