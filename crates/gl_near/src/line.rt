ghost use Rattle.std.specs.Prelude.{◌≡◌, ◌∷◌, []};
ghost use Rattle.gl_box.specs.Cell.{ends, spans_of};
ghost use Rattle.gl_proof.specs.Fronts.{Reads};
ghost use Rattle.gl_near.specs.Certificate.{box_of};
ghost use Rattle.gl_near.specs.Code.Fronts.{IsBoxAt, IsLeastAt, IsPairAt, IsReasonAt};

use crate::found::{NearClosed, NearWhy};
use gl_box::{Cell, Span, Tuple};
use gl_proof::{behind, short_number_at, span_at, total_at};

/// The reason of a box whose line stands at the front of a text, and what follows it and its space.
fn reason_at(text: &[u8]) -> Option<(NearWhy, &[u8])>
    ensures { Reads (λ why. why) (IsReasonAt text.now) result }
{
    if let Some(rest) = behind(text, b"BOX T ") {
        return Some((NearWhy::Time, rest));
    }
    if let Some(rest) = behind(text, b"BOX N ") {
        return Some((NearWhy::Near, rest));
    }
    None
}

/// The cell of two spans.
fn cell_of(first: Span, second: Span) -> Cell
    ensures { spans_of result ≡ ends first ∷ ends second ∷ [] }
{
    let mut cell = Cell::point(&Tuple::first(2));
    cell.set(0, first);
    cell.set(1, second);
    cell
}

/// The box whose line stands at the front of a text, and what follows.
pub(crate) fn box_at(text: &[u8]) -> Option<(NearClosed, &[u8])>
    ensures { Reads box_of (IsBoxAt text.now) result }
{
    let (why, rest) = reason_at(text)?;
    let (first, rest) = span_at(rest)?;
    let (second, rest) = span_at(behind(rest, b" ")?)?;
    let rest = behind(rest, b"\n")?;
    let cell = cell_of(first, second);
    Some((NearClosed { cell, why }, rest))
}

/// The least distance whose line stands at the front of a text, and what follows.
pub(crate) fn least_at(text: &[u8]) -> Option<(Option<u64>, &[u8])>
    ensures { Reads (λ total. total) (IsLeastAt text.now) result }
{
    total_at(behind(text, b"LEAST ")?)
}

/// The pair whose line stands at the front of a text, and what follows.
pub(crate) fn pair_at(text: &[u8]) -> Option<((u32, u32), &[u8])>
    ensures { Reads (λ pair. pair) (IsPairAt text.now) result }
{
    let (first, rest) = short_number_at(behind(text, b"PAIR ")?)?;
    let (second, rest) = short_number_at(behind(rest, b" ")?)?;
    let rest = behind(rest, b"\n")?;
    Some(((first, second), rest))
}
