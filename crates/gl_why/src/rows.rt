ghost use Rattle.std.specs.Prelude.{◌≡◌, ◌++◌, ◌∷◌, [], OnOk};

use crate::fact::{Earning, Fact};
use crate::lines::Lines;
use crate::result_words::words_of_row;
use gl_desk::Name;
use gl_sheet::Row;
use gl_task::Entrant;
use std::alloc::{AllocError, Global};

/// Tells the line of the sheet of an entrant.
pub fn tell_row(
    alloc: Global,
    lines: &mut Lines,
    entrant: &Entrant,
    row: Row,
) -> Result<(), AllocError>
    ensures { OnOk result (lines.new ≡ lines.old ++ Fact.Scored entrant.now.number row ∷ []) }
{
    let words = words_of_row(alloc, &row)?;
    let number = Name::from_text(alloc, entrant.number.as_str())?;
    lines.push(Fact::Scored(number, row), String::new(alloc), words)
}

/// Tells what the entrant with a number has of the day's points.
pub fn tell_earned(
    alloc: Global,
    lines: &mut Lines,
    number: &Name,
    earning: Earning,
    words: String,
) -> Result<(), AllocError>
    ensures { OnOk result (lines.new ≡ lines.old ++ Fact.Earned number.now earning ∷ []) }
{
    let number = Name::from_text(alloc, number.as_str())?;
    lines.push(Fact::Earned(number, earning), String::new(alloc), words)
}
