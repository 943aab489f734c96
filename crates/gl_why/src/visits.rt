ghost use Rattle.std.specs.Prelude.{ℕ, ◌≡◌, ◌≤◌, ◌<◌, ◌+◌, ◌↔◌, IsTrue, length, take, slice_get, IsSomeAnd, IfNone, IfOk, IfSome, OnOk};
ghost use Rattle.gl_judge.specs.Greatest.{IsGreatest, IsLeast};
ghost use Rattle.gl_judge.specs.JudgedFixes.{IsInRange};
ghost use Rattle.gl_judge.specs.Visits.{HasVisit, IsInZone, VisitsFirst};
ghost use Rattle.gl_zone.specs.Zones.{is_in_zone};
ghost use Rattle.gl_why.specs.Facts.{AddsFacts};
ghost use Rattle.gl_why.specs.Visits.{AreVisitsTold, IsVisitTold};

use crate::fact::{Fact, Visit};
use crate::flight_words::words_of_visit;
use crate::lines::Lines;
use crate::spot::Spot;
use gl_igc::Fix;
use gl_judge::{Stretch, Visited, first_in_zone};
use gl_zone::Zone;
use std::alloc::{AllocError, Global};

/// Tells the visit of a zone with the fix of a number.
fn tell_visit(
    alloc: Global,
    lines: &mut Lines,
    zones: &[Zone],
    fixes: &[Fix],
    judged: Stretch,
    from: usize,
    zone: usize,
    z: usize,
) -> Result<(), AllocError>
    requires in_list { z < length fixes.now }
    requires few { length fixes.now ≤ 90_000 }
    requires first { IsLeast (HasVisit fixes.now judged (take zone zones.now) from) z }
    ensures { OnOk result (AddsFacts (IsVisitTold fixes.now judged zones.now from zone)
        lines.old lines.new) }
{
    let at = Spot {
        number: z as u32,
        fix: fixes[z],
    };
    let visit = Visit { zone, at };
    let words = words_of_visit(alloc, &visit)?;
    lines.push(Fact::Visited(visit), String::new(alloc), words)
}

/// Tells the visits of the zones from the fix of a number on, each as early as can be, and answers
/// how far they come.
pub fn tell_visits(
    alloc: Global,
    lines: &mut Lines,
    zones: &[Zone],
    fixes: &[Fix],
    judged: Stretch,
    from: usize,
) -> Result<Visited, AllocError>
    requires to_in_list { judged.to ≤ length fixes.now }
    requires few { length fixes.now ≤ 90_000 }
    requires from_judged { IsInRange judged from }
    ensures judged { IfOk result (λ visited. IsInRange judged visited.last) }
    ensures most { IfOk result (λ visited. IsGreatest
        (VisitsFirst fixes.now judged zones.now from) visited.count) }
    ensures least { IfOk result (λ visited. IsLeast
        (HasVisit fixes.now judged (take visited.count zones.now) from) visited.last) }
    ensures told { IfOk result (λ visited. AddsFacts
        (AreVisitsTold fixes.now judged zones.now from visited.count) lines.old lines.new) }
{
    let mut last = from;
    for (count, zone) in zones.iter().enumerate() {
        match first_in_zone(zone, fixes, judged, last) {
            Some(z) => {
                tell_visit(alloc, lines, zones, fixes, judged, from, count + 1, z)?;
                last = z;
            }
            None => return Ok(Visited { count, last }),
        }
    }
    Ok(Visited {
        count: zones.len(),
        last,
    })
}
