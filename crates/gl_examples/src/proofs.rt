//! Texts of proofs, and what is said of those that are none.

use crate::numbers::bytes;
use anyhow::{Result, bail};
use gl_proof::{ProofError, read_proof};
use std::alloc::Global;

/// A proof of one claim.
const PROOF: &[u8] = b"GLIDEPROOF 2\nCLAIM CC OUT 11119492\nFIX 2\nBOX B 0-0\nEND\n";

/// Bytes to put into the place of one.
const BYTES: &[u8] = b"\n\r -019BDNz\xff";

/// `text TEXT`, with `|` for LF and `^` for CR: the version and the number of claims of the proof, or
/// why it is none.
fn read(alloc: Global, input: &str) -> Result<String> {
    let text = input.replace(alloc, "|", "\n")?;
    let text = text.as_str().replace(alloc, "^", "\r")?;
    match read_proof(alloc, &bytes(alloc, text.as_str())?) {
        Ok(proof) => Ok(format!(in alloc; "{:?} {}", proof.version, proof.claims.len())?),
        Err(ProofError::Memory) => bail!("no memory"),
        Err(error) => Ok(format!(in alloc; "{error:?}")?),
    }
}

/// What is told of a text: `h` of the heading, `c` of the end, a digit of the line, or a point if it
/// is a proof.
fn letter_of(alloc: Global, text: &[u8]) -> char {
    match read_proof(alloc, text) {
        Ok(_) => '.',
        Err(ProofError::Heading) => 'h',
        Err(ProofError::Cut) => 'c',
        Err(ProofError::Line(line)) => char::from_digit(line.min(9), 10).unwrap_or('?'),
        Err(ProofError::Memory) => '?',
    }
}

/// `byte PLACE`: what is told of the proof with each of some bytes in this place, in turn.
fn changed(alloc: Global, input: &str) -> Result<String> {
    let place = input.parse::<usize>()?;
    let mut told = String::new(alloc);
    for byte in BYTES {
        let mut text = Vec::from_slice(alloc, PROOF)?;
        if place >= text.len() {
            bail!("a place behind the proof");
        }
        text[place] = *byte;
        told.push(letter_of(alloc, &text))?;
    }
    Ok(told)
}

/// The answer to a row of proofs.
pub fn answer(alloc: Global, verb: &str, input: &str) -> Result<String> {
    match verb {
        "text" => read(alloc, input),
        "byte" => changed(alloc, input),
        _ => bail!("no verb of proofs"),
    }
}
