ghost use Rattle.std.specs.Prelude.{◌≡◌, ◌≢◌, ◌+◌, ◌-◌, ◌≤◌, ◌<◌, List, ℕ, length, min, drop, None, IfOk, IfErr};
ghost use Rattle.gl_airspace.specs.Airspace.{IsAirspace};
ghost use Rattle.gl_airspace.specs.Code.Volumes.{IsJudged, StartsVolumes};
ghost use Rattle.gl_airspace.specs.Code.Going.{GoesOver};
ghost use Rattle.gl_airspace.specs.Parts.{Tells};
ghost use Rattle.gl_airspace.specs.Volumes.{Reading, early_trouble, parted, readings_of, refusal_of, trouble};

use crate::air_line::{AirLine, said_by, squeeze};
use crate::error::AirError;
use crate::part::{Part, read_part};
use crate::volume::{Airspace, Volume};
use gl_text::{Items, next_line};
use std::alloc::Global;

/// The most volumes of an airspace.
const MOST_VOLUMES: usize = 256;

/// The most corners of all volumes of an airspace.
const MOST_CORNERS: usize = 4_096;

/// A line number as it is told.
fn line_number(line: usize) -> u32
    ensures { result ≡ min line 4_294_967_295 }
{
    line.min(u32::MAX as usize) as u32
}

/// The number of the line at a place behind a line, as it is told.
fn number_behind(line: usize, place: usize) -> u32
    ensures { result ≡ min (line + 1 + place) 4_294_967_295 }
{
    line_number(line.saturating_add(1).saturating_add(place))
}

/// Where the first volume begins.
#[derive(Clone, Copy)]
pub struct Start {
    /// How many lines stand before it.
    pub lines: usize,
    /// The place of the text where its first line begins, or the end of the text.
    pub next: usize,
}

/// Goes over the lines before the first volume, which are all to be passed over.
fn read_start(alloc: Global, text: &[u8]) -> Result<Start, AirError>
    ensures ok { IfOk result (StartsVolumes text.now) }
    ensures refused { IfErr result (Tells (early_trouble (parted (readings_of text.now)).0)) }
{
    let mut start = Start { lines: 0, next: 0 };
    let mut buffer = Vec::new(alloc);
    'lines: while let Some(line) = next_line(text, start.next) {
        squeeze(&text[line.from..line.to], &mut buffer)?;
        match said_by(buffer.as_slice()) {
            Some(AirLine::Begins) => return Ok(start),
            Some(AirLine::PassedOver) => {
                start.lines += 1;
                start.next = line.next;
            }
            _ => return Err(AirError::Line(line_number(start.lines + 1))),
        }
    }
    Ok(start)
}

/// The volume that its lines make, or why it is refused: it begins at the line `first`, behind so
/// many volumes.
fn judge(part: Part, first: usize, volumes: usize) -> Result<Volume, AirError>
    ensures judged { (text : List ℕ) (lines : List Reading) (corners : ℕ)
        → GoesOver text lines (4_096 - corners) part
        → IsJudged lines (trouble first volumes corners (parted lines).0) result }
    ensures fits { IfOk result (λ _. part.misfit ≡ None) }
    ensures few_corners { IfOk result (λ _. part.surplus ≡ None) }
    ensures few_volumes { IfOk result (λ _. volumes ≢ 256) }
{
    let Part {
        draft,
        misfit,
        surplus,
        ..
    } = part;
    match misfit {
        None => {
            let Some(volume) = draft.into_volume() else {
                return Err(AirError::Line(line_number(first)));
            };
            if volumes == MOST_VOLUMES {
                return Err(AirError::TooMany(line_number(first)));
            }
            match surplus {
                Some(place) => Err(AirError::TooMany(number_behind(first, place))),
                None => Ok(volume),
            }
        }
        Some(misfit) => {
            if volumes == MOST_VOLUMES {
                return Err(AirError::TooMany(line_number(first)));
            }
            match surplus {
                Some(place) if place < misfit => {
                    Err(AirError::TooMany(number_behind(first, place)))
                }
                _ => Err(AirError::Line(number_behind(first, misfit))),
            }
        }
    }
}

/// Reads airspace from a text in the OpenAir form, as docs/airspace.md has it.
///
/// [`AirError::Line`] names the first line that doesn't read: a line of its own, or the one that
/// begins a volume which isn't complete. [`AirError::TooMany`] names the line with which there are
/// more than 256 volumes or 4,096 corners. The lower line decides, and the first of the two on one
/// line.
pub fn read_openair(alloc: Global, text: &[u8]) -> Result<Airspace, AirError>
    ensures ok { IfOk result (IsAirspace text.now) }
    ensures refused { IfErr result (Tells (refusal_of (readings_of text.now))) }
{
    let start = read_start(alloc, text)?;
    let mut first = start.lines + 1;
    let mut at = start.next;
    let mut corners = 0;
    let mut volumes = Vec::new(alloc);
    'volumes: while let Some(line) = next_line(text, at) {
        let part = read_part(alloc, text, line.next, MOST_CORNERS - corners)?;
        let next = part.next;
        let behind = first + 1 + part.lines;
        let more = part.draft.corners.len();
        let volume = match judge(part, first, volumes.len()) {
            Ok(volume) => volume,
            Err(error) => return Err(error),
        };
        volumes.push(volume)?;
        corners += more;
        first = behind;
        at = next;
    }
    Ok(Airspace {
        volumes: Items::from_vec(volumes),
    })
}
