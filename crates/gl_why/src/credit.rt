ghost use Rattle.std.specs.Prelude.{◌<◌, length, OnOk};
ghost use Rattle.gl_why.specs.Credits.{AreCreditsTold, IsCreditTold};
ghost use Rattle.gl_why.specs.Facts.{AddsFacts};

use crate::fact::{Credit, Fact};
use crate::flight_words::{head_of_credit, words_of_credit};
use crate::lines::Lines;
use crate::spot::spot_at;
use gl_igc::Fix;
use std::alloc::{AllocError, Global};

/// Tells the fix at a place of the choice that a distance goes by. The last one may be a landing.
fn tell_credit(
    alloc: Global,
    lines: &mut Lines,
    fixes: &[Fix],
    choice: &[u32],
    k: usize,
    lands: bool,
) -> Result<(), AllocError>
    requires { k < length choice.now }
    ensures { OnOk result (AddsFacts (IsCreditTold fixes.now choice.now k)
        lines.old lines.new) }
{
    match spot_at(fixes, choice[k]) {
        Some(at) => {
            let credit = Credit { place: k + 1, at };
            let head = head_of_credit(alloc, &credit, lands && k + 1 == choice.len())?;
            let words = words_of_credit(alloc, &credit)?;
            lines.push(Fact::Credited(credit), head, words)
        }
        None => Ok(()),
    }
}

/// Tells the fixes that a distance goes by.
pub fn tell_credits(
    alloc: Global,
    lines: &mut Lines,
    fixes: &[Fix],
    choice: &[u32],
    lands: bool,
) -> Result<(), AllocError>
    ensures { OnOk result (AddsFacts (AreCreditsTold fixes.now choice.now)
        lines.old lines.new) }
{
    'places: for k in 0..choice.len() {
        tell_credit(alloc, lines, fixes, choice, k, lands)?;
    }
    Ok(())
}
