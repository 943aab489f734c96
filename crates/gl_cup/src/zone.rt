ghost use Rattle.std.specs.Prelude.{◌≡◌};
ghost use Rattle.gl_cup.specs.Zone.{angle_of, flag_of, options_of, point_of, style_of, time_of, zone_of};

use crate::decimal::{read_clock, read_radius, read_thousandths};
use crate::field::Field;
use crate::pair::{is_text, said};
use gl_text::read_digits;

/// Which way the middle of a zone points.
#[derive(Clone, Copy, Debug, PartialEq, Eq)]
pub enum Style {
    /// As the file's `A12` says.
    Fixed,
    /// Half way between the points before and behind.
    Symmetrical,
    /// To the next point.
    ToNext,
    /// To the point before.
    ToPrevious,
    /// To the start.
    ToStart,
}

/// A zone as an `ObsZone` line says it. Radii are in metres, angles in thousandths of a degree; a
/// key that is left out is 0.
#[derive(Clone, Copy, Debug, PartialEq, Eq)]
pub struct ObsZone {
    /// The number of its point; 0 is the start.
    pub point: u64,
    pub style: Style,
    pub radius: u32,
    pub angle: u32,
    pub second_radius: u32,
    pub second_angle: u32,
    pub axis: u32,
    pub is_line: bool,
    pub is_area: bool,
}

/// What the `Options` line of a task says.
#[derive(Clone, Copy, Debug, PartialEq, Eq)]
pub struct Options {
    /// When the start opens, in seconds of the day. Midnight is as good as left out.
    pub opens: Option<u32>,
    /// How long the task takes, in seconds. No time is as good as left out.
    pub time: Option<u32>,
}

/// The number of a point: one to nine digits, and no 0 before others.
#[tactic(auto, unfolding(crate::specs::Zone::point_of))]
fn read_point(text: &[u8]) -> Option<u64>
    ensures { result ≡ point_of text.now }
{
    if text.is_empty() || text.len() > 9 || (text.len() > 1 && text[0] == b'0') {
        return None;
    }
    Some(u64::from(read_digits(text)?))
}

/// Which way a zone points.
#[tactic(auto, unfolding(crate::specs::Zone::style_of))]
fn read_style(text: &[u8]) -> Option<Style>
    ensures { result ≡ style_of text.now }
{
    if is_text(text, b"0") {
        Some(Style::Fixed)
    } else if is_text(text, b"1") {
        Some(Style::Symmetrical)
    } else if is_text(text, b"2") {
        Some(Style::ToNext)
    } else if is_text(text, b"3") {
        Some(Style::ToPrevious)
    } else if is_text(text, b"4") {
        Some(Style::ToStart)
    } else {
        None
    }
}

/// An angle of at most a whole turn, in thousandths of a degree.
#[tactic(auto, unfolding(crate::specs::Zone::angle_of))]
fn read_angle(text: &[u8]) -> Option<u32>
    ensures { result ≡ angle_of text.now }
{
    let angle = read_thousandths(text)?;
    if angle <= 360_000 { Some(angle) } else { None }
}

/// Whether a value is set, to 1 or True; not where it is 0 or False.
fn read_flag(text: &[u8]) -> Option<bool>
    ensures { result ≡ flag_of text.now }
{
    if is_text(text, b"0") || is_text(text, b"False") {
        Some(false)
    } else if is_text(text, b"1") || is_text(text, b"True") {
        Some(true)
    } else {
        None
    }
}

/// A time in seconds of the day. Midnight is none.
#[tactic(auto, unfolding(crate::specs::Zone::time_of))]
fn read_time(text: &[u8]) -> Option<Option<u32>>
    ensures { result ≡ time_of text.now }
{
    match read_clock(text)? {
        0 => Some(None),
        second => Some(Some(second)),
    }
}

/// The zone that the fields of a line say.
#[tactic(auto, unfolding(crate::specs::Zone::zone_of))]
pub fn read_zone(fields: &[Field]) -> Option<ObsZone>
    ensures { result ≡ zone_of fields.now }
{
    Some(ObsZone {
        point: read_point(said(fields, b"ObsZone", b""))?,
        style: read_style(said(fields, b"Style", b""))?,
        radius: read_radius(said(fields, b"R1", b""))?,
        angle: read_angle(said(fields, b"A1", b"0"))?,
        second_radius: read_radius(said(fields, b"R2", b"0"))?,
        second_angle: read_angle(said(fields, b"A2", b"0"))?,
        axis: read_angle(said(fields, b"A12", b"0"))?,
        is_line: read_flag(said(fields, b"Line", b"0"))?,
        is_area: read_flag(said(fields, b"AAT", b"0"))?,
    })
}

/// What the fields of a line of options say. Points that may be flown in any order are no task that
/// can be said, and don't read.
#[tactic(auto, unfolding(crate::specs::Zone::options_of))]
pub fn read_options(fields: &[Field]) -> Option<Options>
    ensures { result ≡ options_of fields.now }
{
    let any_order = read_flag(said(fields, b"RandomOrder", b"0"))?;
    let opens = read_time(said(fields, b"NoStart", b"00:00:00"))?;
    let time = read_time(said(fields, b"TaskTime", b"00:00:00"))?;
    if any_order {
        None
    } else {
        Some(Options { opens, time })
    }
}
