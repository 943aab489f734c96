ghost use Rattle.std.specs.Prelude.{IfErr, IfOk, OnOk};
ghost use Rattle.gl_answer.specs.Appending.{Appends, HasAppended, HasAppendedPart};

use gl_desk::{Desk, DeskError, Name};
use gl_proof::{LinesLeft, write_next};
use std::alloc::Global;

/// Appends a piece to a file, and changes nothing else. After an error a first part of the piece
/// was appended, perhaps an empty one.
pub fn append_piece<D: Desk>(
    alloc: Global,
    desk: &mut D,
    file: &Name,
    piece: &[u8],
) -> Result<(), DeskError>
    ensures appended { OnOk result
        (HasAppended file.now piece.now (D.told desk.old) (D.told desk.new)) }
    ensures stopped { IfErr result
        (HasAppendedPart file.now piece.now (D.told desk.old) (D.told desk.new)) }
{
    desk.append(alloc, file, piece)
}

/// Appends the next lines to a file, some hundreds of them, and answers whether there may be more.
/// After an error a first part of the lines was appended. `text` is room to work in.
fn append_next<D: Desk, L: LinesLeft>(
    desk: &mut D,
    file: &Name,
    lines: &mut L,
    text: &mut Vec<u8>,
) -> Result<bool, DeskError>
    ensures appended { IfOk result (Appends file.now (L.left lines.old) (L.left lines.new)
        (D.told desk.old) (D.told desk.new)) }
    ensures stopped { IfErr result
        (HasAppendedPart file.now (L.left lines.old) (D.told desk.old) (D.told desk.new)) }
{
    text.clear();
    let more = write_next(text, lines)?;
    append_piece(*text.allocator(), desk, file, text)?;
    Ok(more)
}

/// Appends all lines that are left to a file, some hundreds at a time, so that the text of a proof
/// with millions of lines isn't in memory. After an error a first part of them was appended.
pub fn append_lines<D: Desk, L: LinesLeft>(
    alloc: Global,
    desk: &mut D,
    file: &Name,
    mut lines: L,
) -> Result<(), DeskError>
    ensures appended { OnOk result
        (HasAppended file.now (L.left lines) (D.told desk.old) (D.told desk.new)) }
    ensures stopped { IfErr result
        (HasAppendedPart file.now (L.left lines) (D.told desk.old) (D.told desk.new)) }
{
    let mut text = Vec::new(alloc);
    'pieces: while append_next(desk, file, &mut lines, &mut text)? {}
    Ok(())
}
