ghost use Rattle.std.specs.Prelude.{◌≡◌, ◌≤◌, ◌++◌, ◌∷◌, ℕ, [], List, length, IfOk, OnOk, option_map};
ghost use Rattle.gl_desk.specs.Answers.{OnlyReads, stop_of};
ghost use Rattle.gl_desk.specs.Desk.{ListsNames};
ghost use Rattle.gl_desk.specs.Limits.{most_bytes};
ghost use Rattle.gl_day.specs.Flight.{IsFlight, IsSeen};
ghost use Rattle.gl_why.specs.Code.Entrants.{AreFewIn, IsRecordingTold};
ghost use Rattle.gl_why.specs.Code.Scoring.{IsScored};
ghost use Rattle.gl_why.specs.Entrants.{IsBytesTold, IsEntrantTold, IsExtent, IsSeenTold, IsToldIfWanted};
ghost use Rattle.gl_why.specs.Facts.{AddsFacts};

use crate::air_places::AirPlace;
use crate::credit::tell_credits;
use crate::entrant_words::{words_of_extent, words_of_outcome, words_of_read};
use crate::fact::{Extent, Fact};
use crate::fines::tell_fines;
use crate::flight::tell_flight;
use crate::lines::Lines;
use crate::scoring::{Scored, score_recorded};
use crate::sight::{Sight, see};
use crate::spot::Spot;
use crate::wanted::is_wanted;
use gl_airspace::Airspace;
use gl_day::{Flight, Seen, absent_flight, large_flight, read_flight};
use gl_desk::{Desk, DeskError, Name};
use gl_igc::{Recording, read_igc};
use gl_sheet::Outcome;
use gl_task::{Entrant, Task};
use std::alloc::{AllocError, Global};

/// How many fixes a recording has, its first and its last.
fn extent_of(rec: &Recording) -> Extent
    ensures { IsExtent rec.now result }
{
    let fixes = rec.fixes.as_slice();
    let count = fixes.len();
    let first = Spot {
        number: 0,
        fix: fixes[0],
    };
    let last = Spot {
        number: (count - 1) as u32,
        fix: fixes[count - 1],
    };
    Extent { count, first, last }
}

/// Tells what became of an entrant.
fn tell_outcome(
    alloc: Global,
    lines: &mut Lines,
    entrant: &Entrant,
    outcome: Outcome,
    words: String,
) -> Result<(), AllocError>
    ensures { OnOk result
        (lines.new ≡ lines.old ++ Fact.Entrant entrant.now.number outcome ∷ []) }
{
    let number = Name::from_text(alloc, entrant.number.as_str())?;
    lines.push(Fact::Entrant(number, outcome), String::new(alloc), words)
}

/// Tells what was read of a recording.
fn tell_extent(
    alloc: Global,
    lines: &mut Lines,
    entrant: &Entrant,
    extent: Extent,
) -> Result<(), AllocError>
    ensures { OnOk result (lines.new ≡ lines.old ++ Fact.Read extent ∷ []) }
{
    let words = words_of_extent(alloc, entrant, &extent)?;
    lines.push(Fact::Read(extent), String::new(alloc), words)
}

/// Tells what counts of the flight of an entrant.
fn tell_counted(
    alloc: Global,
    lines: &mut Lines,
    entrant: &Entrant,
    flight: &Flight,
) -> Result<(), AllocError>
    ensures { OnOk result
        (lines.new ≡ lines.old ++ Fact.Counted entrant.now.number flight.now ∷ []) }
{
    let number = Name::from_text(alloc, entrant.number.as_str())?;
    let words = String::new(alloc);
    lines.push(Fact::Counted(number, *flight), String::new(alloc), words)
}

/// Tells of an entrant with a recording that was scored so.
fn tell_scored(
    alloc: Global,
    lines: &mut Lines,
    task: &Task,
    air: &Airspace,
    places: &[AirPlace],
    entrant: &Entrant,
    rec: &Recording,
    scored: &Scored,
) -> Result<(), AllocError>
    requires { IsScored task.now air.now entrant.now rec.now scored.now }
    ensures { OnOk result (AddsFacts (IsRecordingTold task.now air.now entrant.now rec.now
        scored.now.flight) lines.old lines.new) }
{
    let outcome = scored.flight.outcome;
    let words = words_of_outcome(alloc, entrant, outcome)?;
    tell_outcome(alloc, lines, entrant, outcome, words)?;
    tell_extent(alloc, lines, entrant, extent_of(rec))?;
    tell_flight(alloc, lines, task, air, rec, &scored.judged, places)?;
    let lands = outcome == Outcome::Outlanded;
    let fixes = rec.fixes.as_slice();
    tell_credits(alloc, lines, fixes, scored.credited.as_slice(), lands)?;
    tell_fines(alloc, lines, task, rec, &scored.judged)?;
    tell_counted(alloc, lines, entrant, &scored.flight)
}

/// Tells of an entrant with a recording, and answers the flight.
fn tell_recorded(
    alloc: Global,
    lines: &mut Lines,
    task: &Task,
    air: &Airspace,
    places: &[AirPlace],
    entrant: &Entrant,
    rec: &Recording,
) -> Result<Flight, AllocError>
    ensures { IfOk result (λ flight. AddsFacts
        (IsRecordingTold task.now air.now entrant.now rec.now flight) lines.old lines.new) }
{
    let scored = score_recorded(alloc, task, air, entrant, rec)?;
    tell_scored(alloc, lines, task, air, places, entrant, rec, &scored)?;
    Ok(scored.flight)
}

/// Tells of an entrant whose file has these bytes, and answers the flight.
fn tell_bytes(
    alloc: Global,
    lines: &mut Lines,
    task: &Task,
    air: &Airspace,
    places: &[AirPlace],
    entrant: &Entrant,
    text: &[u8],
) -> Result<Flight, AllocError>
    requires { length text.now ≤ most_bytes }
    ensures { IfOk result (λ flight. AddsFacts
        (IsBytesTold task.now air.now entrant.now text.now flight) lines.old lines.new) }
{
    let read = read_igc(alloc, text, Some(task.date));
    let words = words_of_read(alloc, entrant, &read)?;
    match read_flight(task, entrant, read)? {
        Seen::Recorded(rec) => tell_recorded(alloc, lines, task, air, places, entrant, &rec),
        Seen::Refused(flight) => {
            tell_outcome(alloc, lines, entrant, flight.outcome, words)?;
            Ok(flight)
        }
    }
}

/// Tells of an entrant whose file has no bytes that are read, and answers the flight.
fn tell_unread(
    alloc: Global,
    lines: &mut Lines,
    entrant: &Entrant,
    flight: Flight,
) -> Result<Flight, AllocError>
    ensures same { IfOk result (λ told. told ≡ flight) }
    ensures told { IfOk result (λ _.
        lines.new ≡ lines.old ++ Fact.Entrant entrant.now.number flight.outcome ∷ []) }
{
    let words = words_of_outcome(alloc, entrant, flight.outcome)?;
    tell_outcome(alloc, lines, entrant, flight.outcome, words)?;
    Ok(flight)
}

/// Tells of an entrant of whose file this is seen, and answers the flight.
fn tell_seen(
    alloc: Global,
    lines: &mut Lines,
    task: &Task,
    air: &Airspace,
    places: &[AirPlace],
    entrant: &Entrant,
    sight: &Sight,
) -> Result<Flight, AllocError>
    requires { AreFewIn sight.now }
    ensures { IfOk result (λ flight. AddsFacts
        (IsSeenTold task.now air.now entrant.now sight.now flight) lines.old lines.new) }
{
    match sight {
        Sight::Absent => tell_unread(alloc, lines, entrant, absent_flight(task, entrant)),
        Sight::TooLarge => tell_unread(alloc, lines, entrant, large_flight(task, entrant)),
        Sight::Bytes(text) => tell_bytes(alloc, lines, task, air, places, entrant, text),
    }
}

/// Tells of an entrant, in a folder that lists some names, and answers the flight.
fn tell_entrant<D: Desk>(
    alloc: Global,
    desk: &mut D,
    lines: &mut Lines,
    names: &[Name],
    task: &Task,
    air: &Airspace,
    places: &[AirPlace],
    entrant: &Entrant,
) -> Result<Flight, DeskError>
    requires { ListsNames (D.told desk.old).folder names.now }
    ensures told { IfOk result (λ flight. AddsFacts
        (IsEntrantTold (D.told desk.old).folder names.now task.now air.now entrant.now flight)
        lines.old lines.new) }
    ensures reads { OnlyReads (stop_of result) (D.told desk.old) (D.told desk.new) }
{
    let sight = see(alloc, desk, names, &entrant.file)?;
    let flight = tell_seen(alloc, lines, task, air, places, entrant, &sight)?;
    Ok(flight)
}

/// Tells of an entrant, if he is asked for, and answers the flight.
pub fn tell_if_wanted<D: Desk>(
    alloc: Global,
    desk: &mut D,
    lines: &mut Lines,
    names: &[Name],
    task: &Task,
    air: &Airspace,
    places: &[AirPlace],
    choice: Option<&Name>,
    entrant: &Entrant,
) -> Result<Flight, DeskError>
    requires { ListsNames (D.told desk.old).folder names.now }
    ensures told { IfOk result (λ flight. AddsFacts
        (IsToldIfWanted (option_map (λ number. number.now) choice.entry)
        (D.told desk.old).folder names.now task.now air.now entrant.now flight)
        lines.old lines.new) }
    ensures reads { OnlyReads (stop_of result) (D.told desk.old) (D.told desk.new) }
{
    if is_wanted(choice, entrant) {
        return tell_entrant(alloc, desk, lines, names, task, air, places, entrant);
    }
    let mut others = Lines::new(alloc);
    tell_entrant(alloc, desk, &mut others, names, task, air, places, entrant)
}
