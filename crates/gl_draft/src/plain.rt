ghost use Rattle.std.specs.Prelude.{◌≡◌, ◌++◌, IfOk, IfSome, OnOk, is_some};
ghost use Rattle.std.specs.List.{flat_map};
ghost use Rattle.std.specs.Str.{chars, is_utf8};
ghost use Rattle.std.specs.String.{string_bytes};
ghost use Rattle.gl_draft.specs.Heading.{characters, plain, plain_text};

use std::alloc::{AllocError, Global};
use std::str;

/// Appends a character, unless it is a control character.
fn push_plain(text: &mut String, c: char) -> Result<(), AllocError>
    ensures { OnOk result (string_bytes text.new ≡ string_bytes text.old ++ plain c) }
{
    if c < ' ' || c == '\u{7f}' {
        return Ok(());
    }
    text.push(c)
}

/// Appends the characters of a text.
fn push_chars(text: &mut String, from: &str) -> Result<(), AllocError>
    ensures { OnOk result
        (string_bytes text.new ≡ string_bytes text.old ++ flat_map plain (chars from.now)) }
{
    'chars: for c in from.chars() {
        push_plain(text, c)?;
    }
    Ok(())
}

/// Appends the characters of bytes in Latin-1.
fn push_latin(text: &mut String, bytes: &[u8]) -> Result<(), AllocError>
    ensures { OnOk result
        (string_bytes text.new ≡ string_bytes text.old ++ flat_map plain bytes.now) }
{
    'bytes: for byte in bytes {
        push_plain(text, char::from(*byte))?;
    }
    Ok(())
}

/// The text of bytes in UTF-8.
pub fn read_utf8(bytes: &[u8]) -> Option<&str>
    ensures some { IfSome result (λ text. text.now ≡ bytes.now) }
    ensures is { is_some result ≡ is_utf8 bytes.now }
{
    match str::from_utf8(bytes) {
        Ok(text) => Some(text),
        Err(_) => None,
    }
}

/// Appends the characters of bytes, in UTF-8 or else in Latin-1.
fn push_characters(text: &mut String, bytes: &[u8]) -> Result<(), AllocError>
    ensures { OnOk result
        (string_bytes text.new ≡ string_bytes text.old ++ flat_map plain (characters bytes.now)) }
{
    match read_utf8(bytes) {
        Some(from) => push_chars(text, from),
        None => push_latin(text, bytes),
    }
}

/// The text of some bytes, in UTF-8 or else in Latin-1, without control characters and without
/// blanks at its ends.
#[tactic(auto, unfolding(crate::specs::Heading::plain_text))]
pub fn plain_text(alloc: Global, bytes: &[u8]) -> Result<String, AllocError>
    ensures { IfOk result (λ text. string_bytes text ≡ plain_text bytes.now) }
{
    let mut text = String::new(alloc);
    push_characters(&mut text, bytes)?;
    String::from_str(alloc, text.as_str().trim())
}
