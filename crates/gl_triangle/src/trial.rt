ghost use Rattle.std.specs.Prelude.{◌<◌, ◌^◌, All, IfSome, length};
ghost use Rattle.gl_triangle.specs.Code.Node.{fixes_of};
ghost use Rattle.gl_triangle.specs.Code.Places.{AreAmong, AreChoices};

use crate::places::Places;
use gl_goal::{Hulls, TriangleGoal, fair};
use gl_sphere::{dist, sq};
use std::alloc::{AllocError, Global};

/// Places to choose from for each of the three fixes of a triangle.
#[derive(Drop)]
pub(crate) struct Choices {
    pub first: Vec<u32>,
    pub second: Vec<u32>,
    pub third: Vec<u32>,
}

/// The length of a leg, in centimetres.
#[derive(Clone, Copy)]
struct Length {
    centimetres: u64,
    ghost below: { centimetres < 2 ^ 40 },
}

/// Three places and the length of the legs round them.
#[derive(Clone, Copy)]
pub(crate) struct Chosen {
    pub total: u64,
    pub places: Places,
}

/// The leg from a first place to a second one.
#[derive(Clone, Copy)]
struct FirstLeg {
    from: u32,
    to: u32,
    length: Length,
}

/// The leg from the fix at one place to that at another.
#[inline]
fn leg(hulls: &Hulls, from: u32, to: u32) -> Length
    requires from { from < length hulls.now }
    requires to { to < length hulls.now }
{
    Length {
        centimetres: dist(sq(hulls.fix(from).at, hulls.fix(to).at)),
    }
}

/// The legs from a place to others; none has a length to a place before it. The only error is want
/// of memory.
fn legs_onward(
    alloc: Global,
    hulls: &Hulls,
    from: u32,
    places: &[u32],
) -> Result<Vec<Length>, AllocError>
    requires from { from < length hulls.now }
    requires places { All (λ place. place < length hulls.now) places.now }
{
    let mut legs = Vec::with_capacity(alloc, places.len())?;
    for &to in places {
        let length = if from <= to {
            leg(hulls, from, to)
        } else {
            Length { centimetres: 0 }
        };
        legs.push(length)?;
    }
    Ok(legs)
}

/// The legs from each place to each of others. The only error is want of memory.
fn all_legs(
    alloc: Global,
    hulls: &Hulls,
    from: &[u32],
    places: &[u32],
) -> Result<Vec<Vec<Length>>, AllocError>
    requires from { All (λ place. place < length hulls.now) from.now }
    requires places { All (λ place. place < length hulls.now) places.now }
{
    let mut legs = Vec::with_capacity(alloc, from.len())?;
    for &place in from {
        legs.push(legs_onward(alloc, hulls, place, places)?)?;
    }
    Ok(legs)
}

/// What was chosen is worth, 0 where nothing was.
fn total(chosen: &Option<Chosen>) -> u64 {
    match chosen {
        Some(chosen) => chosen.total,
        None => 0,
    }
}

/// Tries all third places after the two of a leg. `onward` are the legs to them, `back` those from
/// them to the first place.
fn try_thirds(
    goal: &TriangleGoal,
    start: FirstLeg,
    places: &[u32],
    onward: &[Length],
    back: &[Length],
    chosen: &mut Option<Chosen>,
)
    requires from { start.from < length (fixes_of goal.now) }
    requires to { start.to < length (fixes_of goal.now) }
    requires places { All (λ place. place < length (fixes_of goal.now)) places.now }
    requires chosen { IfSome chosen.old (λ it. AreAmong (fixes_of goal.now) it.places) }
    ensures { IfSome chosen.new (λ it. AreAmong (fixes_of goal.now) it.places) }
{
    let first = start.length.centimetres;
    for ((&place, onward), back) in places.iter().zip(onward).zip(back) {
        let (second, third) = (onward.centimetres, back.centimetres);
        if start.to <= place
            && first + second + third > total(chosen)
            && fair(first, second, third)
            && goal.closes(start.from, place)
        {
            *chosen = Some(Chosen {
                total: first + second + third,
                places: Places {
                    first: start.from,
                    second: start.to,
                    third: place,
                },
            });
        }
    }
}

/// Tries all second and third places after a first one. `onward` are the legs from the second
/// places to the third ones, `back` those from these to the first.
fn try_seconds(
    goal: &TriangleGoal,
    first: u32,
    choices: &Choices,
    onward: &[Vec<Length>],
    back: &[Length],
    chosen: &mut Option<Chosen>,
)
    requires first { first < length (fixes_of goal.now) }
    requires choices { AreChoices (fixes_of goal.now) choices.now }
    requires chosen { IfSome chosen.old (λ it. AreAmong (fixes_of goal.now) it.places) }
    ensures { IfSome chosen.new (λ it. AreAmong (fixes_of goal.now) it.places) }
{
    let hulls = goal.hulls();
    let seconds = choices.second.as_slice();
    for index in 0..seconds.len().min(onward.len()) {
        let second = seconds[index];
        if first <= second {
            let start = FirstLeg {
                from: first,
                to: second,
                length: leg(hulls, first, second),
            };
            try_thirds(goal, start, &choices.third, &onward[index], back, chosen);
        }
    }
}

/// Tries all choices in time order, and keeps the longest triangle. The only error is want of
/// memory.
pub(crate) fn try_all(
    alloc: Global,
    goal: &TriangleGoal,
    choices: &Choices,
    chosen: &mut Option<Chosen>,
) -> Result<(), AllocError>
    requires choices { AreChoices (fixes_of goal.now) choices.now }
    requires chosen { IfSome chosen.old (λ it. AreAmong (fixes_of goal.now) it.places) }
    ensures { IfSome chosen.new (λ it. AreAmong (fixes_of goal.now) it.places) }
{
    let hulls = goal.hulls();
    let onward = all_legs(alloc, hulls, &choices.second, &choices.third)?;
    for &first in &choices.first {
        let back = legs_onward(alloc, hulls, first, &choices.third)?;
        try_seconds(goal, first, choices, &onward, &back, chosen);
    }
    Ok(())
}
