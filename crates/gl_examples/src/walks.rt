//! Walks along the split tree, and the boxes that they say.

use anyhow::{Result, bail};
use gl_box::{Cell, Closed, GoalTurn, MOST_AXES, Span, Tuple, Walk};
use std::alloc::Global;

/// The cell of all tuples with so many axes, on each of which the places up to the last one lie.
fn whole(axes: usize, last: u32) -> Cell {
    let mut cell = Cell::point(&Tuple::first(axes.clamp(1, MOST_AXES) as u8));
    for axis in 0..MOST_AXES {
        if axis < cell.axes as usize {
            cell.set(axis, Span { lo: 0, hi: last });
        }
    }
    cell
}

/// The turns of words as `320C`: so many times the same turn, a cut or a box closed as disordered,
/// shut or by its bound.
fn turns_of(alloc: Global, words: &str) -> Result<Vec<GoalTurn>> {
    let mut turns = Vec::new(alloc);
    for word in words.split_whitespace() {
        let count = word.trim_end_matches(|letter: char| letter.is_ascii_uppercase());
        let turn = match word.strip_prefix(count) {
            Some("C") => GoalTurn::Cut,
            Some("D") => GoalTurn::Disordered,
            Some("S") => GoalTurn::Shut,
            Some("B") => GoalTurn::Bound,
            _ => bail!("no turn"),
        };
        for _ in 0..count.parse::<u32>()? {
            turns.push(turn)?;
        }
    }
    Ok(turns)
}

/// A box in words: its reason and its spans.
fn word_of(alloc: Global, closed: &Closed) -> Result<String> {
    let mut word = format!(in alloc; "{:?}", closed.why)?;
    for axis in 0..closed.cell.axes as usize {
        let Span { lo, hi } = closed.cell.spans[axis];
        word.push_str(format!(in alloc; " {lo}-{hi}")?.as_str())?;
    }
    Ok(word)
}

/// `walk AXES LAST, TURNS`: how many boxes a walk from the whole has, the first one and the last one.
fn walk(alloc: Global, input: &str) -> Result<String> {
    let Some((size, words)) = input.split_once(", ") else {
        bail!("no turns");
    };
    let Some((axes, last)) = size.split_once(" ") else {
        bail!("no size");
    };
    let mut opened = Vec::new(alloc);
    opened.push(whole(axes.parse::<usize>()?, last.parse::<u32>()?))?;
    let turns = turns_of(alloc, words)?;
    let boxes = Walk { opened, turns }.to_list(alloc)?;
    let (Some(first), Some(last)) = (boxes.first(), boxes.last()) else {
        bail!("no box");
    };
    let first = word_of(alloc, first)?;
    let last = word_of(alloc, last)?;
    Ok(format!(in alloc; "{} boxes: {first} to {last}", boxes.len())?)
}

/// The answer to a row of walks.
pub fn answer(alloc: Global, verb: &str, input: &str) -> Result<String> {
    match verb {
        "walk" => walk(alloc, input),
        _ => bail!("no verb of walks"),
    }
}
