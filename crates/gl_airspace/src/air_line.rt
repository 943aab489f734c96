ghost use Rattle.std.specs.Prelude.{◌≡◌, option_map, OnOk};
ghost use Rattle.gl_airspace.specs.Line.{is_passed_over, said_by, shape_by, squeezed};
ghost use Rattle.gl_airspace.specs.Code.Said.{said};

use crate::height::{height, radius};
use crate::place_text::place;
use gl_sphere::Grid;
use std::alloc::AllocError;

/// What a line of an airspace text says.
#[derive(Clone, Copy)]
pub enum AirLine {
    /// Nothing that counts.
    PassedOver,
    /// The beginning of a volume.
    Begins,
    /// The name of a volume.
    Names,
    /// The floor of a volume, in metres.
    Floor(i32),
    /// The ceiling of a volume, in metres.
    Ceiling(i32),
    /// The centre for a circle after it.
    Centre(Grid),
    /// A corner of a polygon.
    Corner(Grid),
    /// A circle with its radius in centimetres.
    Circles(u64),
}

/// Whether a squeezed line counts for nothing.
fn is_passed_over(line: &[u8]) -> bool
    ensures { result ≡ is_passed_over line.now }
{
    line.is_empty()
        || line.starts_with(b"*")
        || line.starts_with(b"AT")
        || line.starts_with(b"SP")
        || line.starts_with(b"SB")
}

/// What a squeezed line says of a shape.
#[tactic(auto, unfolding(crate::specs::Line::shape_by))]
fn shape_by(line: &[u8]) -> Option<AirLine>
    ensures { option_map said result ≡ shape_by line.now }
{
    if line.starts_with(b"V X=") {
        place(&line[4..]).map(AirLine::Centre)
    } else if line.starts_with(b"DP ") {
        place(&line[3..]).map(AirLine::Corner)
    } else if line.starts_with(b"DC ") {
        radius(&line[3..]).map(AirLine::Circles)
    } else {
        None
    }
}

/// What a squeezed line says; `None` where it doesn't read.
#[tactic(auto, unfolding(crate::specs::Line::said_by))]
pub fn said_by(line: &[u8]) -> Option<AirLine>
    ensures { option_map said result ≡ said_by line.now }
{
    if is_passed_over(line) {
        Some(AirLine::PassedOver)
    } else if line.starts_with(b"AC ") {
        Some(AirLine::Begins)
    } else if line.starts_with(b"AN ") {
        Some(AirLine::Names)
    } else if line.starts_with(b"AL ") {
        height(&line[3..]).map(AirLine::Floor)
    } else if line.starts_with(b"AH ") {
        height(&line[3..]).map(AirLine::Ceiling)
    } else {
        shape_by(line)
    }
}

/// Puts a line into the buffer with capital letters, one space for each run of blanks, and none at
/// its end.
pub fn squeeze(line: &[u8], buffer: &mut Vec<u8>) -> Result<(), AllocError>
    ensures { OnOk result (buffer.new.items ≡ squeezed line.now) }
{
    buffer.clear();
    let mut is_blank_before = false;
    for &byte in line {
        if byte == b' ' || byte == b'\t' {
            is_blank_before = true;
        } else {
            if is_blank_before {
                buffer.push(b' ')?;
                is_blank_before = false;
            }
            buffer.push(byte.to_ascii_uppercase())?;
        }
    }
    Ok(())
}
