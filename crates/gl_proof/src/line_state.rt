ghost use Rattle.std.specs.Prelude.{◌≤◌, vec_len};

use crate::error::ProofError;

/// How far a text was read.
#[derive(Clone, Copy, Debug, PartialEq, Eq)]
pub(crate) enum Progress {
    /// Each line so far may stand where it stands.
    Going,
    /// The next line is too long, and its end hasn't come.
    Long,
    /// Whatever follows, this is wrong with the text.
    Wrong(ProofError),
}

/// Reads a text of lines that comes piece by piece, wherever it is cut. It keeps the bytes that
/// aren't read yet, fewer than a line and a piece have.
#[derive(Drop)]
pub struct LineReader<P> {
    pub(crate) progress: Progress,
    pub(crate) place: P,
    /// The number of the line that follows.
    pub(crate) number: u32,
    /// The bytes that came last.
    pub(crate) bytes: Vec<u8>,
    /// How many of these are read.
    pub(crate) at: usize,
    ghost within: { at ≤ vec_len bytes },
}
