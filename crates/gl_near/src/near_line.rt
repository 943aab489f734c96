ghost use Rattle.std.specs.Prelude.{◌≡◌};
ghost use Rattle.gl_proof.specs.Fronts.{Reads};
ghost use Rattle.gl_near.specs.Code.Places.{StandsAt};
ghost use Rattle.gl_near.specs.Lemmas.NearLines.{are_near_lines};
ghost use Rattle.gl_near.specs.Line.{Line};
ghost use Rattle.gl_near.specs.NearLines.{is_ended, line_said, near_rules, place_after};

use crate::found::NearClosed;
use crate::line::{box_at, least_at, pair_at};
use gl_proof::{TextLine, behind};
use std::alloc::{AllocError, Global};

/// What a line of the text of a proof says.
#[derive(Clone, Copy, Debug)]
pub enum NearLine {
    /// That the text is such a proof.
    Heading,
    /// The least distance in centimetres, if any pair fits.
    Least(Option<u64>),
    /// The pair that has it.
    Pair(u32, u32),
    /// A box, and the reason by which it is closed.
    Box(NearClosed),
    /// That the proof ends.
    End,
}

/// Where a reader of such a text stands, by the line before it.
#[derive(Clone, Copy, Debug, PartialEq, Eq)]
pub enum NearPlace {
    /// At the beginning: the heading comes.
    Start,
    /// After the heading: the least distance comes.
    Headed,
    /// After the line of a distance: its pair comes.
    Measured,
    /// After the pair, a box or the line of no distance: a box or the end comes.
    Within,
    /// After the end: nothing comes.
    Ended,
}

/// The heading at the front of a text, and what follows it.
fn heading_line(text: &[u8]) -> Option<(NearLine, &[u8])>
    ensures { Reads line_said (StandsAt NearPlace.Start text.now) result }
{
    let rest = behind(text, b"GLIDENEAR 1\n")?;
    Some((NearLine::Heading, rest))
}

/// The line of the least distance at the front of a text, and what follows it.
fn least_line(text: &[u8]) -> Option<(NearLine, &[u8])>
    ensures { Reads line_said (StandsAt NearPlace.Headed text.now) result }
{
    let (total, rest) = least_at(text)?;
    Some((NearLine::Least(total), rest))
}

/// The line of the pair at the front of a text, and what follows it.
fn pair_line(text: &[u8]) -> Option<(NearLine, &[u8])>
    ensures { Reads line_said (StandsAt NearPlace.Measured text.now) result }
{
    let ((first, second), rest) = pair_at(text)?;
    Some((NearLine::Pair(first, second), rest))
}

/// The line of a box or the end at the front of a text, and what follows it.
fn line_within(text: &[u8]) -> Option<(NearLine, &[u8])>
    ensures { Reads line_said (StandsAt NearPlace.Within text.now) result }
{
    if let Some((closed, rest)) = box_at(text) {
        return Some((NearLine::Box(closed), rest));
    }
    let rest = behind(text, b"END\n")?;
    Some((NearLine::End, rest))
}

impl TextLine for NearLine {
    type Place = NearPlace;

    ghost Says = { Line };

    ghost said = { line_said };

    ghost rules = { near_rules };

    ghost is_place = { λ last place. place ≡ place_after last };

    ghost ends = { is_ended };

    ghost laws = { are_near_lines };

    fn start() -> NearPlace {
        NearPlace::Start
    }

    fn place(&self) -> NearPlace {
        match self {
            NearLine::Heading => NearPlace::Headed,
            NearLine::Least(Some(_)) => NearPlace::Measured,
            NearLine::Least(None) | NearLine::Pair(_, _) | NearLine::Box(_) => NearPlace::Within,
            NearLine::End => NearPlace::Ended,
        }
    }

    fn has_ended(place: NearPlace) -> bool {
        place == NearPlace::Ended
    }

    fn next_at(
        _alloc: Global,
        place: NearPlace,
        text: &[u8],
    ) -> Result<Option<(NearLine, &[u8])>, AllocError> {
        match place {
            NearPlace::Start => Ok(heading_line(text)),
            NearPlace::Headed => Ok(least_line(text)),
            NearPlace::Measured => Ok(pair_line(text)),
            NearPlace::Within => Ok(line_within(text)),
            NearPlace::Ended => Ok(None),
        }
    }
}
