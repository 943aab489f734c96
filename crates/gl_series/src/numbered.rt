ghost use Rattle.std.specs.Prelude.{◌≡◌, ◌≢◌, ◌≤◌, All, AllPairs, IfOk, map};
ghost use Rattle.std.specs.List.Sorted.{IsPermutation, IsSorted};
ghost use Rattle.gl_series.specs.Code.Tallies.{IsNumbered, text_cmp};
ghost use Rattle.gl_series.specs.Totals.{total_beside};

use crate::standing::Total;
use gl_desk::Name;
use std::alloc::{AllocError, Global};

/// Pilots, and the same in the order of their numbers.
#[derive(Drop)]
pub(crate) struct Numbered<'a> {
    pub pilots: &'a [Total],
    pub in_order: Vec<&'a Total>,
}

/// The places of some pilots.
fn places_of<'a>(alloc: Global, pilots: &'a [Total]) -> Result<Vec<&'a Total>, AllocError>
    ensures { IfOk result (λ places. map (λ pilot. pilot.now) places.items ≡ pilots.now) }
{
    let mut places = Vec::new(alloc);
    for pilot in pilots {
        places.push(pilot)?;
    }
    Ok(places)
}

/// Puts pilots in the order of their numbers.
fn sort(pilots: &mut [&Total])
    ensures all { IsPermutation pilots.old pilots.new }
    ensures sorted { IsSorted (λ one other. text_cmp one.now.number other.now.number) pilots.new }
{
    pilots.sort_unstable_by(|a, b| a.number.cmp(&b.number));
}

/// Pilots, and the same in the order of their numbers.
pub(crate) fn by_number<'a>(alloc: Global, pilots: &'a [Total]) -> Result<Numbered<'a>, AllocError>
    requires apart { AllPairs (λ one other. one.number ≢ other.number) pilots.now }
    requires low { All (λ pilot. pilot.total ≤ 30_000) pilots.now }
    ensures pilots { IfOk result (λ numbered. numbered.pilots.now ≡ pilots.now) }
    ensures numbered { IfOk result IsNumbered }
{
    let mut in_order = places_of(alloc, pilots)?;
    sort(&mut in_order);
    Ok(Numbered { pilots, in_order })
}

/// The total beside a number, 0 where no pilot has it.
pub(crate) fn total_in(pilots: &Numbered, number: &Name) -> u32
    requires { IsNumbered pilots.now }
    ensures value { result ≡ total_beside number.now pilots.now.pilots.now }
    ensures low { result ≤ 30_000 }
{
    let found = pilots
        .in_order
        .binary_search_by(|pilot| pilot.number.cmp(number));
    match found {
        Ok(place) => pilots.in_order[place].total,
        Err(_) => 0,
    }
}
