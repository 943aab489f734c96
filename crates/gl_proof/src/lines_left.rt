ghost use Rattle.std.specs.Prelude.{◌≡◌, ℕ, List, ◌++◌, IfOk, OnOk, OnErr};
ghost use Rattle.gl_proof.specs.Kept.{Keeps, Writes};

use std::alloc::AllocError;

/// How many lines are written at a time.
const PIECE: usize = 512;

/// A text that is made line by line, so that one with millions of lines need not be in memory.
pub trait LinesLeft: Drop {
    /// The text of the lines that are left.
    ghost left: { Self → List ℕ };

    /// Appends the next line, and answers whether there was one. The only error is want of memory;
    /// `out` has then what it had, and perhaps more.
    fn push_line(&mut self, out: &mut Vec<u8>) -> Result<bool, AllocError>
        ensures ok { IfOk result
            (Writes out.old.items out.new.items (left self.old) (left self.new)) }
        ensures err { OnErr result (Keeps out.old.items out.new.items) };
}

/// Appends the next lines, at most some hundreds of them, and answers whether there may be more.
/// The only error is want of memory; `out` has then what it had, and perhaps more.
pub fn write_next<L: LinesLeft>(out: &mut Vec<u8>, lines: &mut L) -> Result<bool, AllocError>
    ensures ok { IfOk result
        (Writes out.old.items out.new.items (L.left lines.old) (L.left lines.new)) }
    ensures err { OnErr result (Keeps out.old.items out.new.items) }
{
    for _ in 0..PIECE {
        if !lines.push_line(out)? {
            return Ok(false);
        }
    }
    Ok(true)
}

/// Appends all lines that are left. The only error is want of memory; `out` has then what it had,
/// and perhaps more.
pub fn write_all<L: LinesLeft>(out: &mut Vec<u8>, mut lines: L) -> Result<(), AllocError>
    ensures ok { OnOk result (out.new.items ≡ out.old.items ++ L.left lines) }
    ensures err { OnErr result (Keeps out.old.items out.new.items) }
{
    'lines: while lines.push_line(out)? {}
    Ok(())
}
