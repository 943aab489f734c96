ghost use Rattle.std.specs.Prelude.{IfOk};
ghost use Rattle.gl_series.specs.SeriesList.{IsSeries};
ghost use Rattle.gl_series.specs.Totals.{AreDays, IsStanding};

use crate::day::DaySheet;
use crate::pilots::pilots;
use crate::series::Series;
use crate::standing::Standing;
use crate::teams::teams;
use gl_text::Items;
use std::alloc::{AllocError, Global};

/// The standing of a championship after some days, where so many days are left out for each pilot:
/// a pilot's total is the greatest sum of points over the days of a choice that leaves out so many,
/// and a team's the sum of the totals of its members. The only error is want of memory.
pub fn totals(
    alloc: Global,
    series: &Series,
    days: &[DaySheet],
    drop: u32,
) -> Result<Standing, AllocError>
    requires days { AreDays days.now }
    requires series { IsSeries series.now }
    ensures { IfOk result (IsStanding series.now days.now drop) }
{
    let pilots = pilots(alloc, days, drop)?;
    let teams = teams(alloc, series.teams.as_slice(), &pilots)?;
    Ok(Standing {
        pilots: Items::from_vec(pilots),
        teams: Items::from_vec(teams),
    })
}
