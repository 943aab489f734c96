ghost use Rattle.std.specs.Prelude.{◌≤◌, length, IfNone, IfSome, OnOk};
ghost use Rattle.gl_why.specs.Cuts.{IsCut, IsCutTold, IsEntry};
ghost use Rattle.gl_why.specs.Facts.{AddsFacts};

use crate::air_places::AirPlace;
use crate::fact::{Cut, Fact};
use crate::flight_words::words_of_cut;
use crate::lines::Lines;
use crate::spot::Spot;
use gl_airspace::{Airspace, inside};
use gl_igc::Fix;
use gl_judge::Stretch;
use gl_task::Task;
use std::alloc::{AllocError, Global};

/// Where airspace ends the judged fixes, if it does.
fn cut_of(task: &Task, air: &Airspace, fixes: &[Fix], judged: Stretch) -> Option<Cut>
    requires { length fixes.now ≤ 90_000 }
    ensures some { IfSome result (IsCut task.now.closes air.now.volumes fixes.now judged) }
    ensures none { IfNone result (IsEntry task.now.closes air.now.volumes fixes.now judged.to → ⊥) }
{
    let next = judged.to;
    if next >= fixes.len() {
        return None;
    }
    let fix = &fixes[next];
    if fix.second < 0 {
        return None;
    }
    if task.closes < fix.second {
        return None;
    }
    let volume = inside(air, fix)?;
    let count = air.volumes.len();
    prove!(volume < count);
    let at = Spot {
        number: next as u32,
        fix: *fix,
    };
    Some(Cut { volume, at })
}

/// Tells where airspace ends the judged fixes, if it does.
pub fn tell_cut(
    alloc: Global,
    lines: &mut Lines,
    task: &Task,
    air: &Airspace,
    fixes: &[Fix],
    judged: Stretch,
    places: &[AirPlace],
) -> Result<(), AllocError>
    requires { length fixes.now ≤ 90_000 }
    ensures { OnOk result (AddsFacts
        (IsCutTold task.now.closes air.now.volumes fixes.now judged) lines.old lines.new) }
{
    match cut_of(task, air, fixes, judged) {
        Some(cut) => {
            let words = words_of_cut(alloc, &cut, places)?;
            lines.push(
                Fact::Cut(cut),
                String::from_str(alloc, "airspace: ")?,
                words,
            )
        }
        None => Ok(()),
    }
}
