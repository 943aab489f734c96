ghost use Rattle.std.specs.Prelude.{◌≡◌, ◌≤◌, [], ◌∷◌, ◌++◌, length, map, IfOk, OnOk};
ghost use Rattle.gl_judge.specs.Choices.{numbers_before, numbers_in_zone, zone_lists};

use crate::stretch::Stretch;
use crate::visits::is_in_zone;
use gl_igc::Fix;
use gl_zone::Zone;
use std::alloc::{AllocError, Global};

/// The numbers of a stretch. The only error is want of memory.
fn numbers_of(alloc: Global, stretch: Stretch) -> Result<Vec<u32>, AllocError>
    requires ordered { stretch.from ≤ stretch.to }
    requires most { stretch.to ≤ 90_000 }
    ensures { IfOk result (λ numbers. numbers.items ≡ numbers_before stretch.from stretch.to) }
{
    let mut numbers = Vec::with_capacity(alloc, stretch.to - stretch.from)?;
    for i in stretch.from..stretch.to {
        numbers.push(i as u32)?;
    }
    Ok(numbers)
}

/// Appends the numbers of a stretch to some lists. The only error is want of memory.
pub(crate) fn push_numbers(
    lists: &mut Vec<Vec<u32>>,
    alloc: Global,
    stretch: Stretch,
) -> Result<(), AllocError>
    requires ordered { stretch.from ≤ stretch.to }
    requires most { stretch.to ≤ 90_000 }
    ensures { OnOk result (map (λ list. list.items) lists.new.items
        ≡ map (λ list. list.items) lists.old.items
        ++ numbers_before stretch.from stretch.to ∷ []) }
{
    let numbers = numbers_of(alloc, stretch)?;
    Ok(lists.push(numbers)?)
}

/// The numbers of the fixes of a stretch in a zone. The only error is want of memory.
fn numbers_in_zone(
    alloc: Global,
    zone: &Zone,
    fixes: &[Fix],
    stretch: Stretch,
) -> Result<Vec<u32>, AllocError>
    requires ordered { stretch.from ≤ stretch.to }
    requires within { stretch.to ≤ length fixes.now }
    requires most { stretch.to ≤ 90_000 }
    ensures { IfOk result (λ numbers.
        numbers.items ≡ numbers_in_zone fixes.now stretch.from stretch.to zone.now) }
{
    let mut numbers = Vec::new(alloc);
    for i in stretch.from..stretch.to {
        if is_in_zone(zone, fixes, i) {
            numbers.push(i as u32)?;
        }
    }
    Ok(numbers)
}

/// For each of some zones the numbers of the fixes of a stretch in it. The only error is want of
/// memory.
pub(crate) fn zone_lists(
    alloc: Global,
    zones: &[Zone],
    fixes: &[Fix],
    stretch: Stretch,
) -> Result<Vec<Vec<u32>>, AllocError>
    requires ordered { stretch.from ≤ stretch.to }
    requires within { stretch.to ≤ length fixes.now }
    requires most { stretch.to ≤ 90_000 }
    ensures { IfOk result (λ lists. map (λ list. list.items) lists.items
        ≡ zone_lists fixes.now zones.now stretch.from stretch.to) }
{
    let mut lists = Vec::new(alloc);
    for zone in zones {
        lists.push(numbers_in_zone(alloc, zone, fixes, stretch)?)?;
    }
    Ok(lists)
}
