ghost use Rattle.std.specs.Prelude.{◌≡◌, ◌≢◌, ◌∷◌, [], ℕ, List, length, Option, IfOk, OnOk, option_map};
ghost use Rattle.std.specs.List.{list_any};
ghost use Rattle.gl_desk.specs.Answers.{OnlyReads, stop_of};
ghost use Rattle.gl_desk.specs.Desk.{FilesByName, ListsNames};
ghost use Rattle.gl_task_file.specs.Reading.{IsReadFrom, IsRefusalOf};
ghost use Rattle.gl_task_file.specs.declared.error.TaskError.TheVariants.{Memory};
ghost use Rattle.gl_why.specs.Code.Days.{IsTaskKnown};
ghost use Rattle.gl_why.specs.Days.{AreEntrantsTold, AreScoredTold, IsAirOf, IsAirSeen, IsAirText, IsDayTold, IsTaskSeenTold, IsTaskTextTold, IsTaskTold, IsToldWith};
ghost use Rattle.gl_why.specs.Entrants.{IsToldIfWanted};
ghost use Rattle.gl_why.specs.Facts.{AddsFacts, AreFlown, refused};
ghost use Rattle.gl_why.specs.Wanted.{is_wanted};

use crate::air_places::{AirPlace, air_places};
use crate::day_words::{words_of_no_air, words_of_no_entrant, words_of_no_task};
use crate::entrant::tell_if_wanted;
use crate::fact::Obstacle;
use crate::fix_words::{words_of_absent, words_of_large};
use crate::fixes::refused;
use crate::lines::Lines;
use crate::results::tell_results;
use crate::sight::{Sight, see};
use crate::wanted::is_wanted;
use gl_airspace::{AirError, Airspace, empty, read_openair};
use gl_day::Flight;
use gl_desk::{Desk, DeskError, Name};
use gl_task::{Entrant, Task};
use gl_task_file::{TaskError, read_task};
use std::alloc::{AllocError, Global};

/// The airspace of a text, or that the file doesn't read.
fn air_in(alloc: Global, file: &Name, text: &[u8]) -> Result<Result<Airspace, Lines>, AllocError>
    ensures { IfOk result (IsAirText file.now text.now) }
{
    match read_openair(alloc, text) {
        Ok(air) => Ok(Ok(air)),
        Err(AirError::Memory) => Err(AllocError),
        Err(error) => {
            let words = words_of_no_air(alloc, &error)?;
            Ok(Err(refused(alloc, file, Obstacle::NotRead, words)?))
        }
    }
}

/// The airspace of a file of which this is seen, or that it can't be used.
fn air_seen(
    alloc: Global,
    names: &[Name],
    file: &Name,
    sight: &Sight,
) -> Result<Result<Airspace, Lines>, AllocError>
    ensures { IfOk result (IsAirSeen file.now sight.now) }
{
    match sight {
        Sight::Absent => {
            let words = words_of_absent(alloc, names, file)?;
            Ok(Err(refused(alloc, file, Obstacle::NoFile, words)?))
        }
        Sight::TooLarge => {
            let words = words_of_large(alloc)?;
            Ok(Err(refused(alloc, file, Obstacle::TooLarge, words)?))
        }
        Sight::Bytes(text) => air_in(alloc, file, text),
    }
}

/// The airspace of a task, or that its file can't be used.
fn air_of<D: Desk>(
    alloc: Global,
    desk: &mut D,
    names: &[Name],
    task: &Task,
) -> Result<Result<Airspace, Lines>, DeskError>
    requires { ListsNames (D.told desk.old).folder names.now }
    ensures is { IfOk result (IsAirOf (D.told desk.old).folder names.now task.now.airspace) }
    ensures reads { OnlyReads (stop_of result) (D.told desk.old) (D.told desk.new) }
{
    let Some(file) = &task.airspace else {
        return Ok(Ok(empty(alloc)));
    };
    let sight = see(alloc, desk, names, file)?;
    let air = air_seen(alloc, names, file, &sight)?;
    Ok(air)
}

/// Tells of the entrants who are asked for, and answers the flights of all.
fn tell_entrants<D: Desk>(
    alloc: Global,
    desk: &mut D,
    lines: &mut Lines,
    names: &[Name],
    task: &Task,
    air: &Airspace,
    places: &[AirPlace],
    choice: Option<&Name>,
) -> Result<Vec<Flight>, DeskError>
    requires { ListsNames (D.told desk.old).folder names.now }
    ensures told { IfOk result (λ flights. AddsFacts
        (AreFlown (IsToldIfWanted (option_map (λ number. number.now) choice.entry)
        (D.told desk.old).folder names.now task.now air.now) task.now.entrants flights.items)
        lines.old lines.new) }
    ensures as_many { IfOk result (λ flights.
        length flights.items ≡ length task.now.entrants) }
    ensures reads { OnlyReads (stop_of result) (D.told desk.old) (D.told desk.new) }
{
    let entrants = task.entrants.as_slice();
    let mut flights = Vec::new(alloc);
    'entrants: for entrant in entrants {
        let flight = tell_if_wanted(
            alloc, desk, lines, names, task, air, places, choice, entrant,
        )?;
        flights.push(flight)?;
    }
    Ok(flights)
}

/// Whether an entrant of a task is asked for.
fn is_any_wanted(choice: Option<&Name>, entrants: &[Entrant]) -> bool
    ensures { result ≡ list_any
        (is_wanted (option_map (λ number. number.now) choice.entry)) entrants.now }
{
    entrants.iter().any(|entrant| is_wanted(choice, entrant))
}

/// Tells of the entrants who are asked for, and then of the points that the flights of all give.
fn tell_scored<D: Desk>(
    alloc: Global,
    desk: &mut D,
    lines: &mut Lines,
    names: &[Name],
    task: &Task,
    air: &Airspace,
    places: &[AirPlace],
    choice: Option<&Name>,
) -> Result<(), DeskError>
    requires { ListsNames (D.told desk.old).folder names.now }
    ensures told { OnOk result (AddsFacts (AreScoredTold (D.told desk.old).folder names.now
        (option_map (λ number. number.now) choice.entry) task.now air.now)
        lines.old lines.new) }
    ensures reads { OnlyReads (stop_of result) (D.told desk.old) (D.told desk.new) }
{
    let flights = tell_entrants(alloc, desk, lines, names, task, air, places, choice)?;
    tell_results(
        alloc,
        lines,
        choice,
        task.entrants.as_slice(),
        flights.as_slice(),
    )?;
    Ok(())
}

/// What is told of the entrants of a task with this airspace.
fn tell_with<D: Desk>(
    alloc: Global,
    desk: &mut D,
    names: &[Name],
    file: &Name,
    choice: Option<&Name>,
    task: &Task,
    air: &Airspace,
    places: &[AirPlace],
) -> Result<Lines, DeskError>
    requires { ListsNames (D.told desk.old).folder names.now }
    ensures is { IfOk result (AreEntrantsTold (D.told desk.old).folder names.now file.now
        (option_map (λ number. number.now) choice.entry) task.now air.now) }
    ensures reads { OnlyReads (stop_of result) (D.told desk.old) (D.told desk.new) }
{
    if !is_any_wanted(choice, task.entrants.as_slice()) {
        let words = words_of_no_entrant(alloc, choice)?;
        return Ok(refused(alloc, file, Obstacle::NoEntrant, words)?);
    }
    let mut lines = Lines::new(alloc);
    tell_scored(alloc, desk, &mut lines, names, task, air, places, choice)?;
    Ok(lines)
}

/// Where the volumes of a task's airspace begin in its file, and their names there.
fn places_of<D: Desk>(
    alloc: Global,
    desk: &mut D,
    names: &[Name],
    task: &Task,
) -> Result<Vec<AirPlace>, DeskError>
    requires { ListsNames (D.told desk.old).folder names.now }
    ensures { OnlyReads (stop_of result) (D.told desk.old) (D.told desk.new) }
{
    let Some(file) = &task.airspace else {
        return Ok(Vec::new(alloc));
    };
    match see(alloc, desk, names, file)? {
        Sight::Bytes(text) => Ok(air_places(alloc, &text)?),
        _ => Ok(Vec::new(alloc)),
    }
}

/// What is told of the entrants of a task with this airspace, with the places of its volumes.
fn tell_placed<D: Desk>(
    alloc: Global,
    desk: &mut D,
    names: &[Name],
    file: &Name,
    choice: Option<&Name>,
    task: &Task,
    air: &Airspace,
) -> Result<Lines, DeskError>
    requires { ListsNames (D.told desk.old).folder names.now }
    ensures is { IfOk result (AreEntrantsTold (D.told desk.old).folder names.now file.now
        (option_map (λ number. number.now) choice.entry) task.now air.now) }
    ensures reads { OnlyReads (stop_of result) (D.told desk.old) (D.told desk.new) }
{
    let places = places_of(alloc, desk, names, task)?;
    let lines = tell_with(alloc, desk, names, file, choice, task, air, &places)?;
    Ok(lines)
}

/// What is told of a task.
fn tell_task<D: Desk>(
    alloc: Global,
    desk: &mut D,
    names: &[Name],
    file: &Name,
    choice: Option<&Name>,
    task: &Task,
) -> Result<Lines, DeskError>
    requires { ListsNames (D.told desk.old).folder names.now }
    ensures is { IfOk result (IsTaskTold (D.told desk.old).folder names.now file.now
        (option_map (λ number. number.now) choice.entry) task.now) }
    ensures reads { OnlyReads (stop_of result) (D.told desk.old) (D.told desk.new) }
{
    match air_of(alloc, desk, names, task)? {
        Ok(air) => tell_placed(alloc, desk, names, file, choice, task, &air),
        Err(lines) => Ok(lines),
    }
}

/// The task of a text, or why there is none; want of memory apart.
fn task_of(alloc: Global, text: &[u8]) -> Result<Result<Task, TaskError>, AllocError>
    ensures { IfOk result (IsTaskKnown text.now) }
{
    match read_task(alloc, text) {
        Ok(task) => Ok(Ok(task)),
        Err(TaskError::Memory) => Err(AllocError),
        Err(error) => Ok(Err(error)),
    }
}

/// What is told of the text of a task file with this task.
fn tell_some<D: Desk>(
    alloc: Global,
    desk: &mut D,
    names: &[Name],
    file: &Name,
    choice: Option<&Name>,
    text: &[u8],
    task: &Task,
) -> Result<Lines, DeskError>
    requires names { ListsNames (D.told desk.old).folder names.now }
    requires read { IsReadFrom text.now task.now }
    ensures is { IfOk result (IsTaskTextTold (D.told desk.old).folder names.now file.now
        (option_map (λ number. number.now) choice.entry) text.now) }
    ensures reads { OnlyReads (stop_of result) (D.told desk.old) (D.told desk.new) }
{
    tell_task(alloc, desk, names, file, choice, task)
}

/// What is told of the text of a task file that says no task.
fn tell_none(
    alloc: Global,
    file: &Name,
    text: &[u8],
    error: &TaskError,
) -> Result<Lines, AllocError>
    requires known { error.now ≢ Memory }
    requires refused { IsRefusalOf text.now error.now }
    ensures { IfOk result (λ facts. (folder : Option FilesByName) (names : List (List ℕ))
        (choice : Option (List ℕ)) → IsTaskTextTold folder names file.now choice text.now facts) }
{
    let words = words_of_no_task(alloc, file)?;
    let lines = refused(alloc, file, Obstacle::NotRead, words)?;
    Ok(lines)
}

/// What is told of the text of a task file.
fn tell_text<D: Desk>(
    alloc: Global,
    desk: &mut D,
    names: &[Name],
    file: &Name,
    choice: Option<&Name>,
    text: &[u8],
) -> Result<Lines, DeskError>
    requires { ListsNames (D.told desk.old).folder names.now }
    ensures is { IfOk result (IsTaskTextTold (D.told desk.old).folder names.now file.now
        (option_map (λ number. number.now) choice.entry) text.now) }
    ensures reads { OnlyReads (stop_of result) (D.told desk.old) (D.told desk.new) }
{
    match task_of(alloc, text)? {
        Ok(task) => tell_some(alloc, desk, names, file, choice, text, &task),
        Err(error) => Ok(tell_none(alloc, file, text, &error)?),
    }
}

/// What is told of a task file of which this is seen.
fn tell_seen<D: Desk>(
    alloc: Global,
    desk: &mut D,
    names: &[Name],
    file: &Name,
    choice: Option<&Name>,
    sight: &Sight,
) -> Result<Lines, DeskError>
    requires { ListsNames (D.told desk.old).folder names.now }
    ensures is { IfOk result (IsTaskSeenTold (D.told desk.old).folder names.now file.now
        (option_map (λ number. number.now) choice.entry) sight.now) }
    ensures reads { OnlyReads (stop_of result) (D.told desk.old) (D.told desk.new) }
{
    match sight {
        Sight::Absent => {
            let words = words_of_absent(alloc, names, file)?;
            Ok(refused(alloc, file, Obstacle::NoFile, words)?)
        }
        Sight::TooLarge => {
            let words = words_of_large(alloc)?;
            Ok(refused(alloc, file, Obstacle::TooLarge, words)?)
        }
        Sight::Bytes(text) => tell_text(alloc, desk, names, file, choice, text),
    }
}

/// What is told of the entrants of a task file, in a folder that lists some names.
fn tell_listed<D: Desk>(
    alloc: Global,
    desk: &mut D,
    names: Vec<Name>,
    file: &Name,
    choice: Option<&Name>,
) -> Result<Lines, DeskError>
    requires { ListsNames (D.told desk.old).folder names.items }
    ensures is { IfOk result (IsDayTold (D.told desk.old).folder file.now
        (option_map (λ number. number.now) choice.entry)) }
    ensures reads { OnlyReads (stop_of result) (D.told desk.old) (D.told desk.new) }
{
    let sight = see(alloc, desk, &names, file)?;
    let lines = tell_seen(alloc, desk, &names, file, choice, &sight)?;
    Ok(lines)
}

/// What is told of the entrants of a task file, of each or of the one with a number.
pub fn tell_day<D: Desk>(
    alloc: Global,
    desk: &mut D,
    file: &Name,
    choice: Option<&Name>,
) -> Result<Lines, DeskError>
    ensures is { IfOk result (IsDayTold (D.told desk.old).folder file.now
        (option_map (λ number. number.now) choice.entry)) }
    ensures reads { OnlyReads (stop_of result) (D.told desk.old) (D.told desk.new) }
{
    let names = desk.names(alloc)?;
    tell_listed(alloc, desk, names, file, choice)
}
