ghost use Rattle.std.specs.Prelude.{◌≡◌, ◌≤◌, ◌-◌, ◌++◌, min, List, ℕ, [], take, drop, length, IfOk, OnOk, OnErr};
ghost use Rattle.gl_desk.specs.Desk.{ReadsFrom};

use crate::piece_limit::PieceLimit;
use std::alloc::{AllocError, Global};
use std::marker::Model;

/// A file in memory. Its first `given` bytes were there at first, and the others were appended.
#[derive(Drop)]
pub struct MemFile {
    bytes: Vec<u8>,
    given: usize,
}

impl Model for MemFile {
    ghost Value = { List ℕ × List ℕ };

    ghost view = { λ file. (take file.given file.bytes.items, drop file.given file.bytes.items) };

    ghost invariant = { λ file. file.given ≤ length file.bytes.items };
}

impl MemFile {
    /// A file that was given with these bytes.
    pub fn given(bytes: Vec<u8>) -> MemFile
        ensures { result ≡ (bytes.items, []) }
    {
        let given = bytes.len();
        MemFile { bytes, given }
    }

    /// A file that is made for an appended piece.
    pub fn appended(alloc: Global, piece: &[u8]) -> Result<MemFile, AllocError>
        ensures { IfOk result (λ file. file ≡ ([], piece.now)) }
    {
        Ok(MemFile {
            bytes: Vec::from_slice(alloc, piece)?,
            given: 0,
        })
    }

    /// What the file holds.
    pub fn bytes(&self) -> &[u8]
        ensures { result.now ≡ self.now.0 ++ self.now.1 }
    {
        self.bytes.as_slice()
    }

    /// Appends a piece.
    pub fn append(&mut self, piece: &[u8]) -> Result<(), AllocError>
        ensures ok { OnOk result (self.new ≡ (self.old.0, self.old.1 ++ piece.now)) }
        ensures err { OnErr result (self.new ≡ self.old) }
    {
        self.bytes.extend_from_slice(piece)
    }
}

/// Puts what stands from place `at` on into the front of `into`, no more of it than the limit, and
/// answers how many bytes.
pub fn copy_from(bytes: &[u8], at: u64, limit: PieceLimit, into: &mut [u8]) -> usize
    ensures within { result ≤ length into.new }
    ensures full { result ≡ min (min (length bytes.now - at) (length into.new)) limit.most }
    ensures read { ReadsFrom bytes.now at into.new result }
{
    let start = at.min(bytes.len() as u64) as usize;
    let rest = &bytes[start..];
    let room = rest.len().min(into.len());
    let count = limit.most.min(room as u64) as usize;
    into[..count].copy_from_slice(&rest[..count]);
    count
}
