ghost use Rattle.std.specs.Prelude.{◌≡◌, vec_len};

use gl_proof::LineReader;

/// How many bytes are asked for at once.
pub(crate) const PIECE: usize = 65_536;

/// A file of lines that is read as its lines are asked for. It has room for a piece of the file, and
/// keeps the last piece behind the part of a line that came before it.
#[derive(Drop)]
pub struct FileLines<P> {
    pub(crate) reader: LineReader<P>,
    /// How many bytes were read.
    pub(crate) count: u64,
    /// Room for a piece.
    pub(crate) piece: Vec<u8>,
    ghost room: { vec_len piece ≡ 65_536 },
}
